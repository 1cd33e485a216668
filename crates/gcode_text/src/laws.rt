//! Laws of the definitions, each carried by the contract of a function that does nothing.
ghost use Rattle.gcode_text.specs.Laws.{ProgramsMakeTheirMoves};

/// Along the program that is written of layers, the machine makes exactly the moves of their paths, each with its
/// amount of filament: a travel up to each layer and to each path, and a printing move to each further point.
pub fn programs_make_their_moves()
    ensures { ProgramsMakeTheirMoves }
{}

//! Laws of the definitions, each carried by the contract of a function that does nothing.
ghost use Rattle.print_laws.specs.Laws.{PlansArePrintable, SidesAreExtruded, MovesKeepPlaces, MovesStayInside};
ghost use Rattle.print_laws.specs.Laws.{PlansArePrinted, LayersArePrinted, PrintsAreOne};

use cli_read::laws::written_texts_say_their_layers;
use gcode_text::laws::programs_make_their_moves;
use plan_layer::laws::{plans_have_lengths, plans_keep_clear};
use support_laws::laws::supports_stand_apart;

/// The numbers of the program of at most 20,000 planned layers can be written, for settings in their ranges.
pub fn plans_are_printable()
    ensures { PlansArePrintable }
{
    plans_keep_clear();
}

/// The moves of a program that extrude go along the sides of the paths of its layers in order, at the layers' upper
/// surfaces and with their filament, where each side has a length.
pub fn sides_are_extruded()
    ensures { SidesAreExtruded }
{}

/// Each extruding move lies at the upper surface of a layer. Along planned paths each point of it keeps the clearance of
/// half the width of a line from that layer's outlines, and they wind round it; along supports it keeps apart from them.
pub fn moves_keep_places()
    ensures { MovesKeepPlaces }
{
    plans_keep_clear();
    plans_have_lengths();
    sides_are_extruded();
}

/// So without support lines each of them stays inside.
pub fn moves_stay_inside()
    ensures { MovesStayInside }
{
    moves_keep_places();
}

/// Along the text of the program of planned layers the machine makes such moves, and those that extrude are exactly the
/// moves of plans and supports.
pub fn plans_are_printed()
    ensures { PlansArePrinted }
{
    plans_are_printable();
    sides_are_extruded();
    moves_keep_places();
    moves_stay_inside();
    plans_have_lengths();
    programs_make_their_moves();
}

/// The layers of a tree of solids, where none passes a limit, have a print.
pub fn layers_are_printed()
    ensures { LayersArePrinted }
{
    plans_keep_clear();
    plans_are_printed();
    supports_stand_apart();
    written_texts_say_their_layers();
}

/// No other bytes are a print of the same tree by the same settings.
pub fn prints_are_one()
    ensures { PrintsAreOne }
{}

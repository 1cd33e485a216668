//! What is told of a part.

/// What is told of a part whose layers are all written: how many layers, outlines and extruding moves it has, the
/// amount of filament behind the last move in hundred-thousandths of a millimetre, and how many bytes its layers have
/// in each output.
#[derive(Clone, Copy)]
pub struct Summary {
    pub layers: u32,
    pub loops: u64,
    pub moves: u64,
    pub e: u64,
    pub cli: u64,
    pub gcode: u64,
}

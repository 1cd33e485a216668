//! What a move takes.

/// The measures and speeds of a printing program's moves.
#[derive(Clone, Copy)]
pub struct Rates {
    /// The width of a printed line, in micrometres.
    pub line_width: u32,
    /// The height of a layer, in micrometres.
    pub layer_height: u32,
    /// The area of the filament's section, in square micrometres.
    pub filament_area: u32,
    /// The feed of printing moves, in millimetres per minute.
    pub print_feed: u32,
    /// The feed of other moves, in millimetres per minute.
    pub travel_feed: u32,
}

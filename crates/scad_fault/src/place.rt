//! Places in a source.
ghost use Rattle.std.specs.Prelude.{◌≡◌};
ghost use Rattle.scad_fault.specs.Place.{no_place, first_place};

/// A place in a source: a line from 1, counted by line feeds, and a column from 1, counted in
/// bytes. Both are 0 where there is no place.
#[derive(Clone, Copy)]
pub struct Place {
    pub line: u32,
    pub col: u32,
}

impl Place {
    /// The first byte of a source.
    pub const START: Place = Place { line: 1, col: 1 };

    /// No place.
    pub const NONE: Place = Place { line: 0, col: 0 };
}

/// The two constants are the places of their names. It does nothing.
pub fn constant_places()
    ensures none { Place.NONE ≡ no_place }
    ensures start { Place.START ≡ first_place }
{}

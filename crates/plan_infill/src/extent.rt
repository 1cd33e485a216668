//! Between which lines sides lie.
ghost use Rattle.std.specs.Prelude.{◌≡◌, ℕ, ◌≤ℤ◌, ◌-ℤ◌, pos, All};
ghost use Rattle.std.specs.Int.{int_min, int_max};
ghost use Rattle.scad_geom.specs.Within.{IsEdgeWithin};
ghost use Rattle.plan_infill.specs.Extent.{across, IsEdgeAmong};

use scad_geom::{Edge, Pt};

/// The least and the greatest coordinate across lines; where there is none the greatest lies below the least.
#[derive(Clone, Copy)]
pub struct Extent {
    /// The least, in micrometres.
    pub low: i32,
    /// The greatest, in micrometres.
    pub high: i32,
}

impl Extent {
    fn with(self, at: i32) -> Extent
        ensures low { result.low ≡ int_min self.low at }
        ensures high { result.high ≡ int_max self.high at }
    {
        Extent {
            low: self.low.min(at),
            high: self.high.max(at),
        }
    }
}

/// Between which rows sides lie, or between which columns. Where the sides lie within a limit it does too.
pub fn extent_of(sides: &[Edge], rows: bool) -> Extent
    ensures among { All (IsEdgeAmong rows result.low result.high) sides.now }
    ensures from { (limit : ℕ) → All (IsEdgeWithin limit) sides.now → (pos 0 -ℤ pos limit) ≤ℤ result.low }
    ensures to { (limit : ℕ) → All (IsEdgeWithin limit) sides.now → result.high ≤ℤ pos limit }
{
    let mut extent = Extent {
        low: i32::MAX,
        high: i32::MIN,
    };
    'sides: for side in sides {
        extent = extent.with(across(rows, side.a)).with(across(rows, side.b));
    }
    extent
}

// The coordinate of a point across lines.
fn across(rows: bool, p: Pt) -> i32
    ensures { result ≡ across rows p }
{
    if rows { p.y } else { p.x }
}

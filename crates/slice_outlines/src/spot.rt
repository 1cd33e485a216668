//! Places where edges pass a height, rounded.
ghost use Rattle.std.specs.Prelude.{◌≡◌, ◌*ℤ◌, true};
ghost use Rattle.std.specs.Ordering.{int_eq};
ghost use Rattle.scad_geom.specs.Limits.{coordinate_limit};
ghost use Rattle.scad_geom.specs.Within.{IsWithin, IsEdgeWithin};
ghost use Rattle.scad_geom.specs.Level.{IsLevelWithin};
ghost use Rattle.winding_laws.specs.Edges.{rounded};
ghost use Rattle.slice_pieces.specs.Spots.{point_of};
ghost use Rattle.slice_border.specs.Pieces.{spot_on, passes_at};

use scad_geom::line::{high, low};
use scad_geom::wide::times;
use scad_geom::{Edge, Level, Pt};
use slice_border::spot_on;
use slice_pieces::rounded;

/// Where an edge that isn't flat passes a height, rounded: at an end the end itself.
pub(crate) fn rounded_on(e: &Edge, at: &Level) -> Pt
    requires edge { IsEdgeWithin coordinate_limit e.now }
    requires at { IsLevelWithin coordinate_limit at.now }
    requires passes { passes_at e.now at.now ≡ true }
    ensures { result ≡ rounded (point_of (spot_on e.now at.now)) }
{
    if lies_on(low(e), at) {
        low(e)
    } else if lies_on(high(e), at) {
        high(e)
    } else {
        rounded(&spot_on(e, at).spot)
    }
}

fn lies_on(p: Pt, at: &Level) -> bool
    requires point { IsWithin coordinate_limit p }
    requires at { IsLevelWithin coordinate_limit at.now }
    ensures { result ≡ int_eq (p.y *ℤ at.now.d) at.now.n }
{
    times::<21, 44>(p.y as i128, at.d) == at.n
}

//! Points in range.
ghost use Rattle.std.specs.Prelude.{◌≡◌};
ghost use Rattle.std.specs.List.{list_all};
ghost use Rattle.scad_geom.specs.PointRange.{is_in_range};

use scad_geom::{Pt3, is_in_range};

/// Whether all points are in range.
pub(crate) fn all_in_range(points: &[Pt3]) -> bool
    ensures { result ≡ list_all is_in_range points.now }
{
    points.iter().all(|p| is_in_range(*p))
}

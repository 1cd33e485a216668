//! Whether an edge comes near a point.
ghost use Rattle.std.specs.Prelude.{◌≡◌, ◌+◌, ◌*◌, ◌^◌, ◌<◌, ◌≤◌, true, false, cond, ◌&&◌, ◌+ℤ◌, ◌-ℤ◌, ◌*ℤ◌, pos, neg_ℤ, int_le, ◌≤ℤ◌, unsigned_abs};
ghost use Rattle.scad_geom.specs.Limits.{coordinate_limit};
ghost use Rattle.scad_geom.specs.Within.{IsWithin, IsEdgeWithin};
ghost use Rattle.scad_geom.specs.Point.{whole};
ghost use Rattle.scad_geom.specs.Half.{meant};
ghost use Rattle.scad_geom.specs.Near.{MeetsBox, IsClear};

use crate::half::Half;
use crate::point::{Edge, Pt};
use crate::whole::{minus, plus, times};

/// Whether some point of the edge lies within `width` micrometres of the point along both axes. The edge's points are the
/// exact ones, not only the whole ones, and its ends are among them.
pub fn box_meets(e: &Edge, p: Pt, half: Half, width: u32) -> bool
    requires edge { IsEdgeWithin coordinate_limit e.now }
    requires point { IsWithin coordinate_limit p }
    ensures meets { result ≡ true → MeetsBox (pos (2 * width)) (meant half p) (whole e.now.a) (whole e.now.b) }
    ensures clear { result ≡ false → IsClear (pos (2 * width)) (meant half p) (whole e.now.a) (whole e.now.b) }
{
    let (x, y) = (half.doubled(p.x), half.doubled(p.y));
    let across = rising(past(e.a.x, x), past(e.b.x, x));
    let along = rising(past(e.a.y, y), past(e.b.y, y));
    meets_square(across, along, doubled_width(width))
}

// The ends of a way along one axis.
#[derive(Clone, Copy)]
struct Way {
    from: i64,
    to: i64,
}

// How far a coordinate, doubled, is past another, which is doubled already.
fn past(end: i32, from: i64) -> i64
    requires { unsigned_abs from ≤ 2 ^ 62 }
    ensures value { result ≡ pos 2 *ℤ end -ℤ from }
    ensures size { unsigned_abs result ≤ 2 * unsigned_abs end + unsigned_abs from }
{
    minus(2 * end as i64, from)
}

// A way, mirrored at 0 where it falls.
fn rising(from: i64, to: i64) -> Way
    requires from { unsigned_abs from ≤ 2 ^ 23 }
    requires to { unsigned_abs to ≤ 2 ^ 23 }
    ensures from { result.from ≡ cond (int_le from to) from (neg_ℤ from) }
    ensures to { result.to ≡ cond (int_le from to) to (neg_ℤ to) }
    ensures from_size { unsigned_abs result.from ≤ 2 ^ 23 }
    ensures to_size { unsigned_abs result.to ≤ 2 ^ 23 }
    ensures rises { result.from ≤ℤ result.to }
{
    if from <= to {
        Way { from, to }
    } else {
        Way {
            from: -from,
            to: -to,
        }
    }
}

// Whether a segment that rises along both axes meets the square of the points at most w from the origin: it isn't wholly
// beyond a side of the square, and the square's corners aren't all strictly on one side of its line.
fn meets_square(across: Way, along: Way, w: i64) -> bool
    requires left { unsigned_abs across.from ≤ 2 ^ 23 }
    requires right { unsigned_abs across.to ≤ 2 ^ 23 }
    requires below { unsigned_abs along.from ≤ 2 ^ 23 }
    requires above { unsigned_abs along.to ≤ 2 ^ 23 }
    requires width { unsigned_abs w ≤ 2 ^ 33 }
    ensures { result ≡ ((int_le across.from w && int_le (neg_ℤ w) across.to) && ((int_le along.from w && int_le (neg_ℤ w) along.to)
        && (int_le (across.to *ℤ along.from -ℤ across.from *ℤ along.to) (w *ℤ (across.to -ℤ across.from) +ℤ w *ℤ (along.to -ℤ along.from))
        && int_le (neg_ℤ (across.to *ℤ along.from -ℤ across.from *ℤ along.to)) (w *ℤ (across.to -ℤ across.from) +ℤ w *ℤ (along.to -ℤ along.from))))) }
{
    let is_across = overlaps(across, w);
    let is_along = overlaps(along, w);
    let is_on_line = is_within(cross(across, along), reach(across, along, w));
    is_across && (is_along && is_on_line)
}

// Whether a rising way comes within w of 0.
fn overlaps(way: Way, w: i64) -> bool
    requires { unsigned_abs w ≤ 2 ^ 33 }
    ensures { result ≡ (int_le way.from w && int_le (neg_ℤ w) way.to) }
{
    way.from <= w && -w <= way.to
}

// How far the origin lies to the side of a segment's line, times the segment's length.
fn cross(across: Way, along: Way) -> i64
    requires left { unsigned_abs across.from ≤ 2 ^ 23 }
    requires right { unsigned_abs across.to ≤ 2 ^ 23 }
    requires below { unsigned_abs along.from ≤ 2 ^ 23 }
    requires above { unsigned_abs along.to ≤ 2 ^ 23 }
    ensures value { result ≡ across.to *ℤ along.from -ℤ across.from *ℤ along.to }
    ensures size { unsigned_abs result ≤ 2 ^ 47 }
{
    let left = times::<23, 23>(across.to, along.from);
    let right = times::<23, 23>(across.from, along.to);
    minus(left, right)
}

// How far the square's corners reach to the sides of a rising segment's line, times the segment's length.
fn reach(across: Way, along: Way, w: i64) -> i64
    requires left { unsigned_abs across.from ≤ 2 ^ 23 }
    requires right { unsigned_abs across.to ≤ 2 ^ 23 }
    requires below { unsigned_abs along.from ≤ 2 ^ 23 }
    requires above { unsigned_abs along.to ≤ 2 ^ 23 }
    requires width { unsigned_abs w ≤ 2 ^ 33 }
    ensures { result ≡ w *ℤ (across.to -ℤ across.from) +ℤ w *ℤ (along.to -ℤ along.from) }
{
    let right = times::<33, 24>(w, minus(across.to, across.from));
    let up = times::<33, 24>(w, minus(along.to, along.from));
    plus(right, up)
}

// Whether a number is at most `most` in size.
fn is_within(z: i64, most: i64) -> bool
    requires { unsigned_abs z ≤ 2 ^ 47 }
    ensures { result ≡ (int_le z most && int_le (neg_ℤ z) most) }
{
    z <= most && -z <= most
}

// A width in the units of doubled coordinates.
fn doubled_width(width: u32) -> i64
    ensures value { result ≡ pos (2 * width) }
    ensures size { unsigned_abs result ≤ 2 ^ 33 }
{
    2 * width as i64
}

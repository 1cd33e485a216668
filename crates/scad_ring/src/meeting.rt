//! Whether an edge meets the octagon round a point.
ghost use Rattle.std.specs.Prelude.{◌≡◌, ◌⊎◌, ◌+◌, ◌*◌, ◌^◌, ◌<◌, ◌≤◌, true, false, pos, ◌-ℤ◌, ◌*ℤ◌, unsigned_abs};
ghost use Rattle.scad_geom.specs.Limits.{coordinate_limit};
ghost use Rattle.scad_geom.specs.Within.{IsWithin, IsEdgeWithin};
ghost use Rattle.scad_geom.specs.Point.{whole};
ghost use Rattle.scad_geom.specs.Half.{doubled, meant};
ghost use Rattle.scad_ring.specs.Octagon.{octagon};
ghost use Rattle.scad_ring.specs.Nearness.{Closed, Meets, IsClear};
ghost use Rattle.scad_ring.specs.Tests.{overlaps, is_size, breadth, passes};

use scad_geom::line::{high, low};
use scad_geom::whole::{minus, plus, times};
use scad_geom::{Edge, Half, Pt};

/// Whether some point of the edge differs from the point by (dx, dy) with |dx| and |dy| at most `s` micrometres and
/// |dx| + |dy| at most `u`. The edge's points are the exact ones, not only the whole ones, and its ends are among them.
/// It takes no memory.
pub fn octagon_meets(e: &Edge, p: Pt, half: Half, s: u32, u: u32) -> bool
    requires edge { IsEdgeWithin coordinate_limit e.now }
    requires point { IsWithin coordinate_limit p }
    ensures meets { result ≡ true → Meets Closed (octagon (pos s) (pos u)) (meant half p) (whole e.now.a) (whole e.now.b) }
    ensures clear { result ≡ false → IsClear Closed (octagon (pos s) (pos u)) (meant half p) (whole e.now.a) (whole e.now.b) }
{
    let from = seen_from(low(e), p, half);
    let to = seen_from(high(e), p, half);
    passes(from, to, narrowed(s, u))
}

// Where a point lies as another sees it, in doubled micrometres.
#[derive(Clone, Copy)]
struct Seen {
    x: i64,
    y: i64,
}

// The half width and the half sum of an octagon, in doubled micrometres.
#[derive(Clone, Copy)]
struct Size {
    s: i64,
    u: i64,
}

fn seen_from(a: Pt, p: Pt, half: Half) -> Seen
    requires a { IsWithin coordinate_limit a }
    requires p { IsWithin coordinate_limit p }
    ensures x { result.x ≡ pos 2 *ℤ a.x -ℤ doubled half p.x }
    ensures y { result.y ≡ pos 2 *ℤ a.y -ℤ doubled half p.y }
    ensures x_size { unsigned_abs result.x ≤ 2 ^ 23 }
    ensures y_size { unsigned_abs result.y ≤ 2 ^ 23 }
{
    Seen {
        x: past(a.x, half.doubled(p.x)),
        y: past(a.y, half.doubled(p.y)),
    }
}

// How far a coordinate, doubled, is past another, which is doubled already.
fn past(end: i32, from: i64) -> i64
    requires { unsigned_abs from ≤ 2 ^ 62 }
    ensures value { result ≡ pos 2 *ℤ end -ℤ from }
    ensures size { unsigned_abs result ≤ 2 * unsigned_abs end + unsigned_abs from }
{
    minus(2 * end as i64, from)
}

// The same octagon with no bound that others make idle: a half width of at most the half sum, and a half sum of at most
// twice the half width.
fn narrowed(s: u32, u: u32) -> Size
    ensures s { (result.s ≡ pos (2 * s) × s ≤ u) ⊎ (result.s ≡ pos (2 * u) × u ≤ s) }
    ensures u { (result.u ≡ pos (2 * u) × u ≤ 2 * s) ⊎ (result.u ≡ pos (4 * s) × 2 * s ≤ u) }
{
    let (s, u) = (s as i64, u as i64);
    Size {
        s: if s <= u { 2 * s } else { 2 * u },
        u: if u <= 2 * s { 2 * u } else { 4 * s },
    }
}

// Whether a segment that doesn't fall meets an octagon round the origin: none of the octagon's sides leaves out both its
// ends, and the octagon's corners aren't all strictly on one side of its line.
fn passes(from: Seen, to: Seen, size: Size) -> bool
    requires from_x { unsigned_abs from.x ≤ 2 ^ 23 }
    requires from_y { unsigned_abs from.y ≤ 2 ^ 23 }
    requires to_x { unsigned_abs to.x ≤ 2 ^ 23 }
    requires to_y { unsigned_abs to.y ≤ 2 ^ 23 }
    requires s { unsigned_abs size.s ≤ 2 ^ 33 }
    requires u { unsigned_abs size.u ≤ 2 ^ 34 }
    ensures { result ≡ passes size.s size.u from.x from.y to.x to.y }
{
    let is_across = overlaps(from.x, to.x, size.s);
    let is_upwards = overlaps(from.y, to.y, size.s);
    let is_rising = overlaps(plus(from.x, from.y), plus(to.x, to.y), size.u);
    let is_falling = overlaps(minus(from.x, from.y), minus(to.x, to.y), size.u);
    let is_on_line = is_size(cross(from, to), reach(from, to, size));
    is_across && (is_upwards && (is_rising && (is_falling && is_on_line)))
}

// Whether two numbers are neither both above w nor both below -w.
#[tactic(auto, using(scad_geom::proofs::Casts::casts), unfolding(crate::specs::Tests::overlaps))]
fn overlaps(from: i64, to: i64, w: i64) -> bool
    requires { unsigned_abs w ≤ 2 ^ 34 }
    ensures { result ≡ overlaps w from to }
{
    (from <= w || to <= w) && (-w <= from || -w <= to)
}

// Whether a number is at most `most` in size.
#[tactic(auto, using(scad_geom::proofs::Casts::casts), unfolding(crate::specs::Tests::is_size))]
fn is_size(z: i64, most: i64) -> bool
    requires { unsigned_abs most ≤ 2 ^ 62 }
    ensures { result ≡ is_size most z }
{
    z <= most && -most <= z
}

// How far the origin lies to the side of a segment's line, times the segment's length.
fn cross(from: Seen, to: Seen) -> i64
    requires from_x { unsigned_abs from.x ≤ 2 ^ 23 }
    requires from_y { unsigned_abs from.y ≤ 2 ^ 23 }
    requires to_x { unsigned_abs to.x ≤ 2 ^ 23 }
    requires to_y { unsigned_abs to.y ≤ 2 ^ 23 }
    ensures { result ≡ from.x *ℤ to.y -ℤ from.y *ℤ to.x }
{
    minus(times::<23, 23>(from.x, to.y), times::<23, 23>(from.y, to.x))
}

// How far the octagon's corners reach to the sides of a segment's line, times the segment's length.
fn reach(from: Seen, to: Seen, size: Size) -> i64
    requires from_x { unsigned_abs from.x ≤ 2 ^ 23 }
    requires from_y { unsigned_abs from.y ≤ 2 ^ 23 }
    requires to_x { unsigned_abs to.x ≤ 2 ^ 23 }
    requires to_y { unsigned_abs to.y ≤ 2 ^ 23 }
    requires s { unsigned_abs size.s ≤ 2 ^ 33 }
    requires u { unsigned_abs size.u ≤ 2 ^ 34 }
    ensures value { result ≡ breadth size.s (size.u -ℤ size.s) (to.x -ℤ from.x) (to.y -ℤ from.y) }
    ensures size { unsigned_abs result ≤ 2 ^ 62 }
{
    breadth(
        size.s,
        minus(size.u, size.s),
        minus(to.x, from.x),
        minus(to.y, from.y),
    )
}

#[tactic(auto, using(scad_geom::proofs::Casts::casts), unfolding(crate::specs::Tests::breadth))]
fn breadth(s: i64, t: i64, x: i64, y: i64) -> i64
    requires s { unsigned_abs s ≤ 2 ^ 35 }
    requires t { unsigned_abs t ≤ 2 ^ 35 }
    requires x { unsigned_abs x ≤ 2 ^ 24 }
    requires y { unsigned_abs y ≤ 2 ^ 24 }
    ensures value { result ≡ breadth s t x y }
    ensures size { unsigned_abs result ≤ 2 ^ 60 }
{
    if y <= x {
        plus(times::<35, 24>(s, x), times::<35, 24>(t, y))
    } else if plus(x, y) <= 0 {
        minus(times::<35, 24>(t, y), times::<35, 24>(s, x))
    } else if 0 <= x {
        plus(times::<35, 24>(s, y), times::<35, 24>(t, x))
    } else {
        minus(times::<35, 24>(s, y), times::<35, 24>(t, x))
    }
}

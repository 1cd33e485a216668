//! The line of an edge, found once, in numbers of 64 bits.
ghost use Rattle.std.specs.Prelude.{◌≡◌, ◌*◌, ◌^◌, ◌<◌, ◌≤◌, unsigned_abs, pos, ◌*ℤ◌};
ghost use Rattle.scad_geom.specs.Limits.{coordinate_limit, divisor_limit};
ghost use Rattle.scad_geom.specs.Within.{IsWithin, IsEdgeWithin};
ghost use Rattle.scad_geom.specs.Line.{low, high, rise, run, offset, left_of, lean, apart};
ghost use Rattle.slice_events.specs.Reading.{IsRead};

use scad_geom::line::{high, low};
use scad_geom::{Edge, Pt, whole, wide};

/// An edge, its ends read upwards, and its line: the points with `rise * x = run * y + offset`.
#[derive(Clone, Copy)]
pub(crate) struct Line {
    pub(crate) edge: Edge,
    pub(crate) low: Pt,
    pub(crate) high: Pt,
    pub(crate) rise: i64,
    pub(crate) run: i64,
    pub(crate) offset: i64,
    ghost within: { IsEdgeWithin coordinate_limit edge },
    ghost read: { IsRead edge low high rise run offset },
    ghost low_within: { IsWithin coordinate_limit low },
    ghost high_within: { IsWithin coordinate_limit high },
    ghost rise_size: { unsigned_abs rise ≤ 2 * coordinate_limit },
    ghost run_size: { unsigned_abs run ≤ 2 * coordinate_limit },
    ghost offset_size: { unsigned_abs offset ≤ 2 ^ 44 },
}

/// What is found of an edge.
pub(crate) fn line_of(edge: Edge) -> Line
    requires { IsEdgeWithin coordinate_limit edge }
    ensures { result.edge ≡ edge }
{
    let (low, high) = (low(&edge), high(&edge));
    let (rise, run) = (rise_of(&edge), run_of(&edge));
    let offset = offset_of(&edge);
    Line {
        edge,
        low,
        high,
        rise,
        run,
        offset,
    }
}

#[tactic(auto, using(scad_geom::proofs::Casts::casts), unfolding(scad_geom::specs::Line::rise))]
fn rise_of(e: &Edge) -> i64
    requires { IsEdgeWithin coordinate_limit e.now }
    ensures value { result ≡ rise e.now }
    ensures size { unsigned_abs result ≤ 2 * coordinate_limit }
{
    whole::span(low(e).y, high(e).y)
}

#[tactic(auto, using(scad_geom::proofs::Casts::casts), unfolding(scad_geom::specs::Line::run))]
fn run_of(e: &Edge) -> i64
    requires { IsEdgeWithin coordinate_limit e.now }
    ensures value { result ≡ run e.now }
    ensures size { unsigned_abs result ≤ 2 * coordinate_limit }
{
    whole::span(low(e).x, high(e).x)
}

#[tactic(auto, using(scad_geom::proofs::Casts::casts), unfolding(scad_geom::specs::Line::offset))]
fn offset_of(e: &Edge) -> i64
    requires { IsEdgeWithin coordinate_limit e.now }
    ensures value { result ≡ offset e.now }
    ensures size { unsigned_abs result ≤ 2 ^ 44 }
{
    let from = low(e);
    let up = whole::times::<22, 21>(rise_of(e), from.x as i64);
    let right = whole::times::<22, 21>(run_of(e), from.y as i64);
    whole::minus(up, right)
}

impl Line {
    /// The height of its lower end.
    #[tactic(auto, using(scad_geom::proofs::Casts::casts))]
    pub(crate) fn low_y(&self) -> i32
        ensures value { result ≡ (low self.now.edge).y }
        ensures within { unsigned_abs result ≤ coordinate_limit }
    {
        self.low.y
    }

    /// The height of its upper end.
    #[tactic(auto, using(scad_geom::proofs::Casts::casts))]
    pub(crate) fn high_y(&self) -> i32
        ensures value { result ≡ (high self.now.edge).y }
        ensures within { unsigned_abs result ≤ coordinate_limit }
    {
        self.high.y
    }

    /// Above 0 where the point lies to the line's left.
    #[tactic(auto, using(scad_geom::proofs::Casts::casts, scad_geom::proofs::Lines::left_of_whole))]
    pub(crate) fn left_of(&self, p: Pt) -> i64
        requires { IsWithin coordinate_limit p }
        ensures { result ≡ left_of self.now.edge p.x p.y (pos 1) }
    {
        let x = whole::plus(whole::times::<22, 21>(self.run, p.y as i64), self.offset);
        whole::minus(x, whole::times::<22, 21>(self.rise, p.x as i64))
    }

    /// Above 0 where, on the way up, it runs more to the right than the other.
    #[tactic(auto, using(scad_geom::proofs::Casts::casts), unfolding(scad_geom::specs::Line::lean))]
    pub(crate) fn lean(&self, f: &Line) -> i64
        ensures value { result ≡ lean self.now.edge f.now.edge }
        ensures size { unsigned_abs result ≤ divisor_limit }
    {
        whole::minus(area(self.run, f.rise), area(f.run, self.rise))
    }

    /// At height 0 it lies to the right of the other by this over the product of the rises.
    #[tactic(auto, using(scad_geom::proofs::Casts::casts), unfolding(scad_geom::specs::Line::apart))]
    pub(crate) fn apart(&self, f: &Line) -> i128
        ensures value { result ≡ apart self.now.edge f.now.edge }
        ensures size { unsigned_abs result ≤ 2 ^ 67 }
    {
        wide::minus(
            wide::times::<44, 22>(self.offset as i128, f.rise as i128),
            wide::times::<44, 22>(f.offset as i128, self.rise as i128),
        )
    }
}

fn area(a: i64, b: i64) -> i64
    requires a { unsigned_abs a ≤ 2 * coordinate_limit }
    requires b { unsigned_abs b ≤ 2 * coordinate_limit }
    ensures value { result ≡ a *ℤ b }
    ensures size { unsigned_abs result ≤ (2 * coordinate_limit) * (2 * coordinate_limit) }
{
    whole::product(a, b)
}

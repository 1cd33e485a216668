//! Random edges, many of them collinear, doubled, flat, empty or through one point.
ghost use Rattle.std.specs.Prelude.{◌+◌, ◌<◌, ◌≤◌, ◌^◌, length, OnOk, IfOk, All};
ghost use Rattle.scad_geom.specs.Limits.{coordinate_limit};
ghost use Rattle.scad_geom.specs.Within.{IsEdgeWithin};
ghost use Rattle.scad_geom.specs.Level.{IsLevelWithin};
ghost use Rattle.slice_events.specs.Levels.{AreLevels};
ghost use Rattle.slice_slab.specs.Active.{IsReadyFor as IsActiveFor, StandsAt};
ghost use Rattle.slice_sweep.specs.Front.{IsReadyFor};
ghost use Rattle.slice_border.specs.Levels.{level_at};

use crate::cases::expect;
use crate::grid::roll_point;
use crate::numbers::number_with;
use sample_dice::Dice;
use scad_geom::{Edge, LeafEdge, Level};
use slice_bundles::Bundle;
use slice_events::levels;
use slice_slab::{Active, slab};
use slice_sweep::Front;
use std::alloc::{AllocError, AllocGlobal, Global};
use std::process::Abort;

// So many edges, or up to so many more.
fn roll_edges(
    alloc: Global,
    dice: &mut Dice,
    least: u32,
    more: u32,
) -> Result<Vec<LeafEdge>, AllocError>
    requires some { 0 < more }
    requires few { least + more ≤ 1000 }
    ensures { IfOk result (λ v. All (λ e. IsEdgeWithin coordinate_limit e.edge) v.items) }
{
    let mut edges = Vec::new(alloc);
    let count = least + dice.roll(more);
    let (side, places) = (2 + dice.roll(8), 3 + dice.roll(2));
    'edges: for _i in 0..count {
        let a = roll_point(dice, side, places);
        let b = roll_point(dice, side, places);
        let edge = Edge { a, b };
        edges.push(LeafEdge { leaf: 0, edge })?;
    }
    Ok(edges)
}

// The numbers of the edges in each bundle as one number, or -1 where the front or the edges that are live have others.
fn number_of_bundles(front: &Front, active: &[Bundle], bundles: &[Bundle]) -> i64 {
    if front.count() != bundles.len() || active.len() != bundles.len() {
        return -1;
    }
    let mut number = bundles.len() as i64;
    for i in 0..bundles.len() {
        let bundle = bundles[i].as_slice();
        if front.bundle(i) != bundle || active[i].as_slice() != bundle {
            return -1;
        }
        for edge in bundle {
            number = number_with(number, i64::from(*edge) + 1);
        }
        number = number_with(number, 0);
    }
    number
}

// That of the bundles above a level, which `slab` makes from all edges.
fn number_of_slab(
    alloc: Global,
    edges: &[LeafEdge],
    levels: &[Level],
    i: usize,
    front: &mut Front,
    active: &mut Active,
) -> Result<i64, AllocError>
    requires edges { All (λ e. IsEdgeWithin coordinate_limit e.edge) edges.now }
    requires few { length edges.now < 2 ^ 32 }
    requires within { All (IsLevelWithin coordinate_limit) levels.now }
    requires levels { AreLevels edges.now levels.now }
    requires there { i + 1 < length levels.now }
    requires front { IsReadyFor edges.now (level_at levels.now i) front.old }
    requires active { IsActiveFor edges.now (level_at levels.now i) active.old }
    ensures front { OnOk result (IsReadyFor edges.now (level_at levels.now (i + 1)) front.new) }
    ensures active { OnOk result (StandsAt edges.now (level_at levels.now i) active.new) }
{
    let (lower, upper) = (&levels[i], &levels[i + 1]);
    front.advance(edges, lower, upper)?;
    active.advance(edges, lower, upper)?;
    let bundles = slab(alloc, edges, lower, upper)?;
    Ok(number_of_bundles(front, active.bundles(), &bundles))
}

// That of the bundles between all levels.
fn number_of_slabs(alloc: Global, edges: &[LeafEdge], levels: &[Level]) -> Result<i64, AllocError>
    requires edges { All (λ e. IsEdgeWithin coordinate_limit e.edge) edges.now }
    requires few { length edges.now < 2 ^ 32 }
    requires within { All (IsLevelWithin coordinate_limit) levels.now }
    requires levels { AreLevels edges.now levels.now }
{
    let mut front = Front::new(alloc, edges)?;
    let mut active = Active::new(alloc, edges)?;
    let mut number = 0;
    'levels: for i in 1..levels.len() {
        let slab = number_of_slab(alloc, edges, levels, i - 1, &mut front, &mut active)?;
        number = number_with(number, slab);
    }
    Ok(number)
}

// That of the random edges of a seed.
fn number_of_seed(rt: &(impl Abort + AllocGlobal), seed: u64, least: u32, more: u32) -> i64
    requires some { 0 < more }
    requires few { least + more ≤ 1000 }
{
    let mut dice = Dice::of_seed(seed);
    let edges = roll_edges(rt.alloc(), &mut dice, least, more).expect(rt, "memory");
    expect(rt, edges.len() < 1000, "few edges");
    let heights = levels(rt.alloc(), &edges).expect(rt, "levels");
    number_of_slabs(rt.alloc(), &edges, &heights).expect(rt, "memory")
}

// That of a hundred seeds from this one on.
fn number_of_hundred(rt: &(impl Abort + AllocGlobal), from: u64) -> i64 {
    let mut number = 0;
    for k in 0..100 {
        number = number_with(number, number_of_seed(rt, from.wrapping_add(k), 2, 14));
    }
    number
}

// Of a hundred seeds each, from the seeds 1, 101, 201 .. on: what another program told.
const EXPECTED: [i64; 15] = [
    996061317, 111384462, 857176078, 873412267, 425386455, 358681606, 644265289, 595810107,
    171347471, 515931803, 967275062, 288259054, 245053859, 508661447, 664737298,
];

// Of the seeds of long lists, whose fronts have up to 178, 178, 200 and 194 bundles.
const LONG: [(u64, i64); 4] = [
    (1506, 488940473),
    (1514, 690770833),
    (1530, 92627815),
    (1538, 461160464),
];

#[test]
fn bundles_are_those_of_another_program(rt: HostRuntime) {
    let mut seed: u64 = 1;
    for &wanted in &EXPECTED {
        expect(
            &rt,
            number_of_hundred(&rt, seed) == wanted,
            "a hundred lists",
        );
        seed = seed.wrapping_add(100);
    }
    for &(seed, wanted) in &LONG {
        let number = number_of_seed(&rt, seed, 400, 100);
        expect(&rt, number == wanted, "a long list");
    }
}

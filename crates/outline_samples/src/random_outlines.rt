//! Random closed outlines, many of whose sides are collinear, doubled, flat, empty or through one point, under random
//! shapes: the pieces of the border and the outlines, which an independent program has found too.
ghost use Rattle.std.specs.Prelude.{◌≡◌, ◌++◌, ◌<◌, ◌≤◌, map, OnOk, IfOk, All};
ghost use Rattle.scad_geom.specs.Limits.{coordinate_limit};
ghost use Rattle.scad_geom.specs.Within.{IsWithin, IsEdgeWithin};
ghost use Rattle.scad_geom.specs.Leaves.{AreLeavesBalanced};
ghost use Rattle.scad_tree.specs.Sections.{leaf_edge};

use crate::cases::expect;
use crate::grid::roll_point;
use crate::numbers::{number_with, number_with_loops, number_with_pieces};
use plan_sides::sides;
use sample_dice::Dice;
use scad_geom::{Edge, LeafEdge, Loop, Pt, Shape};
use slice_border::BoolFault;
use std::alloc::{AllocError, AllocGlobal, Global};
use std::process::Abort;
use std::slice::from_ref;

// More edges than any of the lists has.
const ROOM_FOR_EDGES: u32 = 1000;

// The last outline again, the same turned, a rectangle, or one of one to six points.
fn roll_outline(
    alloc: Global,
    dice: &mut Dice,
    side: u32,
    places: u32,
    last: Loop,
) -> Result<Loop, AllocError>
    requires some { 0 < side }
    requires few { side ≤ 10 }
    requires last { All (IsWithin coordinate_limit) last }
    ensures { IfOk result (λ l. All (IsWithin coordinate_limit) l) }
{
    let kind = dice.roll(8);
    if kind == 0 {
        return Ok(last);
    }
    let mut points = last.into_vec();
    if kind == 1 {
        points.reverse();
        return Ok(Loop::from_vec(points));
    }
    points.clear();
    if kind < 4 {
        let p = roll_point(dice, side, places);
        let q = roll_point(dice, side, places);
        points.extend_from_slice(&[p, Pt { x: q.x, y: p.y }, q, Pt { x: p.x, y: q.y }])?;
        return Ok(Loop::from_vec(points));
    }
    let count = 1 + dice.roll(6);
    'points: for _i in 0..count {
        points.push(roll_point(dice, side, places))?;
    }
    Ok(Loop::from_vec(points))
}

fn push_leaf(edges: &mut Vec<LeafEdge>, leaf: u32, around: &[Edge]) -> Result<(), AllocError>
    ensures { OnOk result (edges.new.items ≡ edges.old.items ++ map (leaf_edge leaf) around.now) }
{
    'edges: for edge in around {
        edges.push(LeafEdge { leaf, edge: *edge })?;
    }
    Ok(())
}

// The sides of an outline, as edges of a leaf.
fn push_sides(
    alloc: Global,
    edges: &mut Vec<LeafEdge>,
    leaf: u32,
    outline: &Loop,
) -> Result<(), AllocError>
    requires points { All (IsWithin coordinate_limit) outline.now }
    requires within { All (λ e. IsEdgeWithin coordinate_limit e.edge) edges.old.items }
    requires balanced { AreLeavesBalanced edges.old.items }
    ensures within { OnOk result (All (λ e. IsEdgeWithin coordinate_limit e.edge) edges.new.items) }
    ensures balanced { OnOk result (AreLeavesBalanced edges.new.items) }
{
    let around = sides(alloc, from_ref(outline))?;
    push_leaf(edges, leaf, &around)?;
    Ok(())
}

// The sides of up to so many outlines of five leaves.
fn roll_sides(alloc: Global, dice: &mut Dice, most: u32) -> Result<Vec<LeafEdge>, AllocError>
    requires some { 0 < most }
    requires few { most ≤ 1000 }
    ensures within { IfOk result (λ v. All (λ e. IsEdgeWithin coordinate_limit e.edge) v.items) }
    ensures balanced { IfOk result (λ v. AreLeavesBalanced v.items) }
{
    let mut edges = Vec::new(alloc);
    let (side, places) = (2 + dice.roll(9), dice.roll(5));
    let count = 1 + dice.roll(most);
    let mut outline = Loop::from_vec(Vec::new(alloc));
    'outlines: for _i in 0..count {
        outline = roll_outline(alloc, dice, side, places, outline)?;
        push_sides(alloc, &mut edges, dice.roll(5), &outline)?;
    }
    Ok(edges)
}

// None to two leaves.
fn roll_leaves(alloc: Global, dice: &mut Dice) -> Result<Vec<Shape>, AllocError> {
    let mut leaves = Vec::new(alloc);
    let count = dice.roll(3);
    for _i in 0..count {
        leaves.push(Shape::Leaf(dice.roll(5)))?;
    }
    Ok(leaves)
}

// An operation over leaves and a shape, which stands last.
fn roll_over(alloc: Global, dice: &mut Dice, shape: Shape) -> Result<Shape, AllocError> {
    let kind = dice.roll(8);
    let mut members = roll_leaves(alloc, dice)?;
    if kind < 2 {
        return Ok(Shape::Diff(Box::new(alloc, shape)?, members));
    }
    members.push(shape)?;
    match kind {
        2..=5 => Ok(Shape::Union(members)),
        6 => Ok(Shape::Inter(members)),
        _ => {
            let first = Box::new(alloc, Shape::Leaf(dice.roll(5)))?;
            Ok(Shape::Diff(first, members))
        }
    }
}

// Up to seven operations, one over another.
fn roll_shape(alloc: Global, dice: &mut Dice) -> Result<Shape, AllocError> {
    let mut shape = match dice.roll(12) {
        0 => Shape::Empty,
        1 => Shape::Union(roll_leaves(alloc, dice)?),
        2 => Shape::Inter(roll_leaves(alloc, dice)?),
        _ => Shape::Leaf(dice.roll(5)),
    };
    let count = dice.roll(8);
    for _i in 0..count {
        shape = roll_over(alloc, dice, shape)?;
    }
    Ok(shape)
}

fn number_of_border(rt: &(impl Abort + AllocGlobal), edges: &[LeafEdge], shape: &Shape) -> i64
    requires { All (λ e. IsEdgeWithin coordinate_limit e.edge) edges.now }
{
    let border = slice_bool::pieces(rt.alloc(), edges, shape, ROOM_FOR_EDGES).expect(rt, "pieces");
    number_with_pieces(0, &border)
}

fn number_with_found(rt: &impl Abort, before: i64, found: Result<Vec<Loop>, BoolFault>) -> i64 {
    number_with_loops(before, &found.expect(rt, "outlines"))
}

// The outlines of a seed as one number, from the pieces and by the sweep, behind those pieces for the first 200 seeds.
fn number_of_seed(rt: &(impl Abort + AllocGlobal), seed: u64, most: u32) -> i64
    requires some { 0 < most }
    requires few { most ≤ 1000 }
{
    let mut dice = Dice::of_seed(seed);
    let edges = roll_sides(rt.alloc(), &mut dice, most).expect(rt, "memory");
    let shape = roll_shape(rt.alloc(), &mut dice).expect(rt, "memory");
    let border = if seed <= 200 {
        number_of_border(rt, &edges, &shape)
    } else {
        0
    };
    let made = slice_bool::outlines(rt.alloc(), &edges, &shape, ROOM_FOR_EDGES);
    let number = number_with_found(rt, border, made);
    let kept = slice_outlines::outlines(rt.alloc(), &edges, &shape, ROOM_FOR_EDGES);
    number_with_found(rt, number, kept)
}

// Of a hundred seeds from this one on.
fn number_of_hundred(rt: &(impl Abort + AllocGlobal), from: u64) -> i64 {
    let mut number = 0;
    for k in 0..100 {
        number = number_with(number, number_of_seed(rt, from.wrapping_add(k), 8));
    }
    number
}

// Of a hundred seeds each, from the seeds 1, 101, 201 .. on: what another program told.
const EXPECTED: [i64; 30] = [
    544570052, 422224889, 432950498, 864886184, 800640798, 195845003, 164654414, 911827528,
    566021474, 696419072, 743929956, 884773045, 209767936, 867324342, 466826447, 132499790,
    959036691, 878982293, 786234034, 160827595, 301265267, 362890450, 909149949, 821164077,
    21777137, 577087624, 751620717, 465844524, 553657787, 901169212,
];

// Of longer lists, whose fronts are wider, with more cursors, from the seed 3001 on.
const LONG: [i64; 20] = [
    642713201, 0, 0, 0, 0, 377639952, 103064831, 0, 309416828, 906606234, 106544021, 151100134,
    934887798, 0, 124678025, 244059848, 459147606, 0, 454448570, 603987529,
];

#[test]
fn borders_and_outlines_are_those_of_another_program(rt: HostRuntime) {
    let mut seed: u64 = 1;
    for &wanted in &EXPECTED {
        expect(
            &rt,
            number_of_hundred(&rt, seed) == wanted,
            "a hundred lists",
        );
        seed = seed.wrapping_add(100);
    }
    for &wanted in &LONG {
        expect(&rt, number_of_seed(&rt, seed, 60) == wanted, "a long list");
        seed = seed.wrapping_add(1);
    }
}

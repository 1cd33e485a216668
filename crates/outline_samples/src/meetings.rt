//! Edges that touch squares and octagons or just miss them, the sides on which points lie, and slopes.
use crate::cases::expect;
use scad_geom::{Edge, Half, Pt, box_meets, cmp_slope, side};
use scad_ring::octagon_meets;
use std::cmp::Ordering;

const FALLING: Edge = Edge {
    a: Pt { x: 0, y: 10 },
    b: Pt { x: 10, y: 0 },
};

const RISING: Edge = Edge {
    a: Pt { x: 0, y: 0 },
    b: Pt { x: 40, y: 10 },
};

const STEEP_LEFT: Edge = Edge {
    a: Pt { x: 0, y: 0 },
    b: Pt { x: -10, y: 40 },
};

/// Points, how wide the square round them is, and whether it meets the falling edge.
const SQUARES: [(i32, i32, Half, u32, bool); 7] = [
    (0, 0, Half::Whole, 5, true),
    (0, 0, Half::Whole, 4, false),
    (0, 0, Half::Cell, 4, false),
    (0, 1, Half::Cell, 4, true),
    (-1, 14, Half::Whole, 4, true),
    (-1, 14, Half::Whole, 3, false),
    (4, 6, Half::Whole, 0, true),
];

/// The same of edges and octagons. Each row stands at a border: a neighbouring point has the other answer.
const OCTAGONS: [(Edge, i32, i32, Half, u32, u32, bool); 18] = [
    (FALLING, -3, 8, Half::Cell, 3, 4, true),
    (FALLING, 2, 12, Half::Cell, 3, 4, false),
    (FALLING, 6, -4, Half::Cell, 5, 7, true),
    (FALLING, 12, 5, Half::Cell, 5, 7, false),
    (FALLING, -1, 9, Half::Whole, 4, 2, true),
    (FALLING, 9, -3, Half::Cell, 4, 2, false),
    (RISING, -3, -2, Half::Cell, 3, 4, true),
    (RISING, 0, 3, Half::Cell, 3, 4, false),
    (RISING, -4, 3, Half::Whole, 5, 7, true),
    (RISING, -5, -4, Half::Cell, 5, 7, false),
    (RISING, 9, 4, Half::Whole, 4, 2, true),
    (RISING, -3, 0, Half::Whole, 4, 2, false),
    (STEEP_LEFT, 1, 7, Half::Whole, 3, 4, true),
    (STEEP_LEFT, 2, 6, Half::Whole, 3, 4, false),
    (STEEP_LEFT, -6, 1, Half::Cell, 5, 7, true),
    (STEEP_LEFT, 6, -2, Half::Whole, 5, 7, false),
    (STEEP_LEFT, -5, 13, Half::Whole, 4, 2, true),
    (STEEP_LEFT, -3, 0, Half::Cell, 4, 2, false),
];

/// Points, and the side of the falling edge on which they lie: 1 to its left, seen from its start.
const SIDES: [(i32, i32, i8); 3] = [(10, 10, 1), (4, 6, 0), (0, 0, -1)];

/// Edges, and the order of how far they run to the right for each step upwards: -1 the falling one, 4 the rising one, -1/4 the
/// steep one.
const SLOPES: [(Edge, Edge, Ordering); 3] = [
    (FALLING, STEEP_LEFT, Ordering::Less),
    (FALLING, FALLING, Ordering::Equal),
    (RISING, STEEP_LEFT, Ordering::Greater),
];

#[test]
fn edges_have_these_meetings_sides_and_slopes(rt: HostRuntime) {
    for &(x, y, half, width, meets) in &SQUARES {
        let found = box_meets(&FALLING, Pt { x, y }, half, width);
        expect(&rt, found == meets, "a square and an edge");
    }
    for &(edge, x, y, half, s, u, meets) in &OCTAGONS {
        let found = octagon_meets(&edge, Pt { x, y }, half, s, u);
        expect(&rt, found == meets, "an octagon and an edge");
    }
    for &(x, y, wanted) in &SIDES {
        let found = side(&FALLING, Pt { x, y });
        expect(&rt, found == wanted, "the side of a point");
    }
    for &(e, f, wanted) in &SLOPES {
        expect(&rt, cmp_slope(&e, &f) == wanted, "two slopes");
    }
}

//! What is told of a sample.

use crate::placings::{number, placing};
use crate::solids::solid;
use scad_geom::Edge;
use scad_shapes::{cylinder, sphere};
use scad_solid::Triangles;
use slice_section::section;
use std::alloc::Global;

/// The height of a layer in micrometres.
const HEIGHT: u32 = 250;

/// How many triangles a solid has, how many edges its sections have, and their checksum.
#[derive(Clone, Copy)]
pub(crate) struct Tally {
    pub(crate) triangles: usize,
    pub(crate) edges: u64,
    pub(crate) checksum: i64,
}

/// A sample's first 60 layers.
pub(crate) fn sample(alloc: Global, i: u32, at: u32) -> Option<Tally> {
    let solid = solid(alloc, i, &placing(at)?).ok()?;
    sum_up(alloc, &solid, 0, 60)
}

/// The layer of a sphere of 198,912 triangles that lies at a height of 10 of its 30 millimetres.
pub(crate) fn sphere_sample(alloc: Global) -> Option<Tally> {
    let solid = sphere(alloc, number(30_000), 446, &placing(1)?).ok()?;
    sum_up(alloc, &solid, 40, 41)
}

/// The section of a cylinder of six fragments at layer 0 of 200 micrometres.
pub(crate) fn hexagon(alloc: Global) -> Option<Vec<Edge>> {
    let r = number(5_000);
    let solid = cylinder(alloc, number(1_000), r, r, 6, false, &placing(4)?).ok()?;
    section(alloc, &solid, 0, 200).ok()
}

fn sum_up(alloc: Global, solid: &Triangles, from: u32, to: u32) -> Option<Tally> {
    let mut edges: u64 = 0;
    let mut checksum = 0;
    for layer in from..to {
        let section = section(alloc, solid, layer, HEIGHT).ok()?;
        edges = edges.wrapping_add(section.len() as u64);
        checksum = added(checksum, section.as_slice());
    }
    Some(Tally {
        triangles: solid.count(),
        edges,
        checksum,
    })
}

fn added(checksum: i64, edges: &[Edge]) -> i64 {
    let mut sum = checksum;
    for edge in edges {
        for z in [edge.a.x, edge.a.y, edge.b.x, edge.b.y] {
            sum = sum.wrapping_mul(31).wrapping_add(i64::from(z));
        }
    }
    sum
}

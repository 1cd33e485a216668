//! Prints the sections of sample solids. First the edges of a hexagonal cylinder's section; then, for nine solids under
//! each of five matrices and for a fine sphere, a line with the numbers of the solid and of its matrix, how many
//! triangles it has, how many edges its sections have, and their checksum. `stdout` has the lines as an independent
//! program gives them.
#![tactic(auto)]

mod placings;
mod solids;
mod tally;

use scad_geom::Edge;
use std::io;
use tally::{Tally, hexagon, sample, sphere_sample};

fn main(rt: HostRuntime) -> io::Result<()> {
    match hexagon(rt.alloc()) {
        Some(edges) => print_edges(&rt, edges.as_slice())?,
        None => println!(rt; "none")?,
    }
    for solid in 0..9 {
        for placing in 0..5 {
            print(&rt, solid, placing, sample(rt.alloc(), solid, placing))?;
        }
    }
    print(&rt, 9, 1, sphere_sample(rt.alloc()))
}

fn print<R: Print>(rt: &R, solid: u32, placing: u32, tally: Option<Tally>) -> io::Result<()> {
    match tally {
        Some(t) => println!(rt;
            "{solid} {placing} {} {} {}",
            t.triangles, t.edges, t.checksum
        ),
        None => println!(rt; "{solid} {placing} none"),
    }
}

fn print_edges<R: Print>(rt: &R, edges: &[Edge]) -> io::Result<()> {
    for edge in edges {
        println!(rt; "{} {} {} {}", edge.a.x, edge.a.y, edge.b.x, edge.b.y)?;
    }
    Ok(())
}

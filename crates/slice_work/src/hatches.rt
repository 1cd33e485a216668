//! The infill of a layer as hatches.
ghost use Rattle.std.specs.Prelude.{◌≡◌, ◌++◌, OnOk, IfOk};
ghost use Rattle.plan_layer.specs.Moves.{moves, all_moves};
ghost use Rattle.slice_work.specs.Part.{last_moves};

use scad_geom::{Edge, Path, Pt};
use std::alloc::{AllocError, Global};

/// The moves along the last `runs` of paths, in their order and directions.
#[tactic(auto, using(std::proofs::lemmas::List::take_rest))]
pub fn last_moves(alloc: Global, paths: &[Path], runs: u64) -> Result<Vec<Edge>, AllocError>
    ensures { IfOk result (λ v. v.items ≡ last_moves paths.now runs) }
{
    let walls = (paths.len() as u64).saturating_sub(runs) as usize;
    all_moves(alloc, &paths[walls..])
}

// The moves along paths, one after another.
fn all_moves(alloc: Global, paths: &[Path]) -> Result<Vec<Edge>, AllocError>
    ensures { IfOk result (λ v. v.items ≡ all_moves paths.now) }
{
    let mut edges = Vec::new(alloc);
    'paths: for path in paths {
        push_moves(&mut edges, path.as_slice())?;
    }
    Ok(edges)
}

// From each point of a path to the next.
fn push_moves(edges: &mut Vec<Edge>, points: &[Pt]) -> Result<(), AllocError>
    ensures { OnOk result (edges.new.items ≡ edges.old.items ++ moves points.now) }
{
    let [first, rest @ ..] = points else {
        return Ok(());
    };
    let mut from = *first;
    'points: for to in rest {
        edges.push(Edge { a: from, b: *to })?;
        from = *to;
    }
    Ok(())
}

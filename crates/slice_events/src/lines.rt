//! The lines of a list of edges.
ghost use Rattle.std.specs.Prelude.{◌≡◌, IfOk, All};
ghost use Rattle.scad_geom.specs.Limits.{coordinate_limit};
ghost use Rattle.scad_geom.specs.Within.{IsEdgeWithin};
ghost use Rattle.slice_events.specs.Lines.{edges_in, edges_of_leaves};

use crate::line::{Line, line_of};
use scad_geom::LeafEdge;
use std::alloc::{AllocError, Global};

/// The lines of edges, in their order.
pub(crate) fn lines_of(alloc: Global, edges: &[LeafEdge]) -> Result<Vec<Line>, AllocError>
    requires { All (λ e. IsEdgeWithin coordinate_limit e.edge) edges.now }
    ensures { IfOk result (λ v. edges_in v.items ≡ edges_of_leaves edges.now) }
{
    let mut lines = Vec::with_capacity(alloc, edges.len())?;
    'edges: for e in edges {
        lines.push(line_of(e.edge))?;
    }
    Ok(lines)
}

//! What is found of the pairs of edges that are compared.
ghost use Rattle.std.specs.Prelude.{◌+◌, ◌<◌, OnOk};
ghost use Rattle.slice_events.specs.Yields.{yield_of, HasRoom, HasYielded};

use crate::events::CROSSING_LIMIT;
use crate::height::Height;
use crate::line::Line;
use crate::meeting::{crosses, is_kept, meeting};
use std::alloc::AllocError;

/// How many pairs were compared, how many of them cross, and the heights of the crossings at which no end lies: of all of
/// them while no more cross than `CROSSING_LIMIT`.
#[derive(Drop)]
pub(crate) struct Found {
    pub(crate) tests: u64,
    pub(crate) count: u64,
    pub(crate) heights: Vec<Height>,
}

/// Compares two edges.
pub(crate) fn compare(found: &mut Found, e: &Line, f: &Line) -> Result<(), AllocError>
    requires { HasRoom found.old (yield_of e.now.edge f.now.edge) }
    ensures { OnOk result (HasYielded found.old found.new (yield_of e.now.edge f.now.edge)) }
{
    found.tests += 1;
    let cross = crosses(e, f);
    if cross {
        found.count += 1;
    }
    if is_kept(e, f, cross) && found.count <= CROSSING_LIMIT {
        found.heights.push(Height {
            level: meeting(e, f),
        })?;
    }
    Ok(())
}

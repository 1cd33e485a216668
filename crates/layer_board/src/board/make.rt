//! How a board is made.
ghost use Rattle.std.specs.Prelude.{◌≡◌, ◌<◌, ◌≤◌, IfOk, map, All, Contains, vec_len};
ghost use Rattle.layer_board.specs.Limits.{worker_limit};
ghost use Rattle.layer_board.specs.Pass.{opened, gives, given};
ghost use Rattle.layer_board.specs.Calls.{view, layers_of, workers_of, IsOf, IsFresh, AreDealt};

use super::{Board, Pass};
use crate::rule::{Gives, Sharing};
use crate::view::{Size, View};
use atomic_table::Table;
use std::alloc::{AllocError, Global};

impl Board {
    /// A board of so many layers, and a pass for each worker.
    pub fn new(alloc: Global, count: u32, workers: u32) -> Result<(Board, Vec<Pass>), AllocError>
        requires some { 0 < workers }
        requires few { workers ≤ worker_limit }
        ensures board { IfOk result (λ r. (layers_of r.0 ≡ count) × (workers_of r.0 ≡ workers)) }
        ensures splits { IfOk result (λ r. AreDealt count workers (map view r.1.items)) }
        ensures passes { IfOk result (λ r. (vec_len r.1 ≡ workers) × All (IsFresh r.0) r.1.items) }
    {
        let (board, mut first) = Board::open(alloc, count, workers)?;
        let mut passes = Vec::new(alloc);
        for _made in 1..workers {
            passes.push(board.split(&mut first))?;
        }
        passes.push(first)?;
        Ok((board, passes))
    }

    // A board with its first pass, which counts one number given: its own.
    fn open(alloc: Global, count: u32, workers: u32) -> Result<(Board, Pass), AllocError>
        requires some { 0 < workers }
        requires few { workers ≤ worker_limit }
        ensures board { IfOk result (λ r. (layers_of r.0 ≡ count) × (workers_of r.0 ≡ workers)) }
        ensures pass { IfOk result (λ r. IsOf r.0 r.1 × (view r.1 ≡ opened count)) }
    {
        let size = Size { count, workers };
        let (table, seat) = Table::<(), View, Size, Sharing, Global>::of_words(
            alloc,
            &[0, u64::from(count)],
            &size,
        )?;
        let board = Board { table, count };
        let first = Pass {
            seat,
            members: 1,
            ended: false,
        };
        Ok((board, first))
    }

    // One more pass, whose number the first one counts.
    fn split(&self, first: &mut Pass) -> Pass
        requires of { IsOf self.now first.old }
        requires first { Contains (view first.old).members 0 }
        requires room { (view first.old).given < workers_of self.now }
        ensures of { IsOf self.now first.new × IsOf self.now result }
        ensures event { (view first.new ≡ gives (view first.old)) × (view result ≡ given (view first.old)) }
    {
        let seat = self.table.shared.split_seat::<Gives>(&mut first.seat);
        Pass {
            seat,
            members: 1,
            ended: false,
        }
    }
}

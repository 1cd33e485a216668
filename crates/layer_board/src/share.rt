//! What workers did of the layers that they drew.
ghost use Rattle.std.specs.Prelude.{◌≡◌, ◌++◌, IfOk};
ghost use Rattle.layer_board.specs.Pass.{joins};
ghost use Rattle.layer_board.specs.Calls.{view, IsThrough};

use crate::board::{Board, Pass};
use std::alloc::AllocError;

/// The pass that drew layers, and what the work on each gave.
#[derive(Drop)]
pub struct Share<T> {
    pub pass: Pass,
    pub done: Vec<T>,
}

/// Two shares as one: the passes are joined, and so are the lists.
pub fn together<T: Drop>(board: &Board, a: Share<T>, b: Share<T>) -> Result<Share<T>, AllocError>
    requires a { IsThrough board.now a.pass }
    requires b { IsThrough board.now b.pass }

    ensures through { IfOk result (λ s. IsThrough board.now s.pass) }
    ensures joined { IfOk result (λ s. view s.pass ≡ joins (view a.pass) (view b.pass)) }
    ensures done { IfOk result (λ s. s.done.items ≡ a.done.items ++ b.done.items) }
{
    let Share { pass, done } = a;
    let mut pass = pass;
    let mut done = done;
    let mut more = b.done;
    board.join(&mut pass, b.pass);
    done.append(&mut more)?;
    Ok(Share { pass, done })
}

//! Boards that two threads draw to their ends.
ghost use Rattle.std.specs.Prelude.{◌≡◌, true, None, length, IfOk};
ghost use Rattle.layer_board.specs.Calls.{view, layers_of, workers_of, IsOf, IsFresh};

use crate::cases::holds_at;
use layer_board::{Board, Claim, Pass};
use std::alloc::{AllocError, Global};
use std::process::Abort;
use std::thread;
use std::thread::Threads;

fn pair(rt: &impl Abort, alloc: Global, count: u32) -> (Board, Pass, Pass)
    ensures layers { layers_of result.0 ≡ count }
    ensures workers { workers_of result.0 ≡ 2 }
    ensures first { IsFresh result.0 result.1 }
    ensures second { IsFresh result.0 result.2 }
{
    let (board, mut passes) = Board::new(alloc, count, 2).expect(rt, "memory");
    let first = passes.pop().unwrap();
    let second = passes.pop().unwrap();
    (board, first, second)
}

#[derive(Drop)]
struct Drawn {
    pass: Pass,
    finished: Vec<u32>,
}

// Draws until the end; the one layer fails, all others that aren't skipped are finished.
fn draw(alloc: Global, board: &Board, pass: Pass, failing: u32) -> Result<Drawn, AllocError>
    requires { IsFresh board.now pass }
    ensures of { IfOk result (λ d. IsOf board.now d.pass) }
    ensures ended { IfOk result (λ d. ((view d.pass).ended ≡ true) × ((view d.pass).pending ≡ None)) }
    ensures one { IfOk result (λ d. length (view d.pass).members ≡ 1) }
{
    let mut pass = pass;
    let mut finished = Vec::new(alloc);
    while let Claim::Layer(n) = board.claim(&mut pass) {
        if board.look(&mut pass, n) {
            continue;
        }
        if n == failing {
            board.fail(&mut pass, n);
        } else {
            board.finish(&mut pass, n);
            finished.push(n)?;
        }
    }
    Ok(Drawn { pass, finished })
}

/// The least failed layer of a board that two threads draw, and those that are finished, in order.
fn drawn_by_two<R: Threads + Sync + Abort>(
    rt: &R,
    alloc: Global,
    layers: u32,
    failing: u32,
) -> (u32, Vec<u32>) {
    let (board, first, second) = pair(rt, alloc, layers);
    let shared = &board;
    let (one, other) = thread::join(
        rt,
        move || draw(alloc, shared, first, failing),
        move || draw(alloc, shared, second, failing),
    );
    let Drawn {
        mut pass,
        mut finished,
    } = one.expect(rt, "memory");
    let Drawn {
        pass: also,
        finished: more,
    } = other.expect(rt, "memory");
    board.join(&mut pass, also);
    holds_at(
        rt,
        pass.members() == 2,
        "members of a pass",
        u64::from(layers),
    );
    finished.extend_from_slice(&more).expect(rt, "memory");
    finished.sort().expect(rt, "memory");
    (board.close(pass).least, finished)
}

/// Whether each layer below the least failed one is there once, and that one isn't. Higher ones may be there, by a thread
/// that hadn't met it.
fn are_all_below(finished: &[u32], least: u32) -> bool {
    let mut next = 0u32;
    for &layer in finished {
        if layer == least || layer < least && layer != next {
            return false;
        }
        if layer < least {
            next = next.saturating_add(1);
        }
    }
    next == least
}

/// How many layers a board has, and which one fails, if it is there.
const BOARDS: [(u32, u32); 4] = [(0, 0), (3, 0), (300, 200), (500, 500)];

#[test]
fn two_threads_draw_boards_to_their_ends(rt: HostRuntime) {
    for &(layers, failing) in &BOARDS {
        let (least, finished) = drawn_by_two(&rt, rt.alloc(), layers, failing);
        let is_drawn = least == failing && are_all_below(&finished, least);
        holds_at(&rt, is_drawn, "layers of a board", u64::from(layers));
    }
}

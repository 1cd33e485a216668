//! The board and its passes.
ghost use Rattle.std.specs.Prelude.{◌≡◌, ◌<◌, [], length};

use crate::rule::Sharing;
use crate::view::{Size, View};
use atomic_table::{Seat, Table};
use std::alloc::Global;

mod calls;
mod make;

/// The layers of a part that workers draw, shared by reference.
#[derive(Drop)]
pub struct Board {
    table: Table<(), View, Size, Sharing, Global>,
    count: u32,
    ghost words: { (table.shared.table_id.words ≡ 2) × (table.shared.table_id.slots ≡ 0) },
    ghost counts: { table.shared.key.count ≡ count },
}

/// What one worker draws with. It can't be copied; two that are joined are one.
#[derive(Drop)]
pub struct Pass {
    seat: Seat<(), View>,
    members: u32,
    ended: bool,
    ghost counted: { members ≡ length seat.me.0.members },
    ghost live: { 0 < length seat.me.0.members },
    ghost bare: { seat.me.1 ≡ [] },
    ghost ends: { ended ≡ seat.me.0.ended },
}

/// What a claim draws: a layer, or nothing, for all layers are drawn.
#[derive(Clone, Copy)]
pub enum Claim {
    Layer(u32),
    Ended,
}

/// The least failed layer, or the number of layers where none failed.
#[derive(Clone, Copy)]
pub struct Outcome {
    pub least: u32,
}

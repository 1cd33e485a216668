//! An output of a memory desk.
ghost use Rattle.std.specs.Prelude.{◌≡◌, ◌-◌, ◌==◌, ◌||◌, ◌<◌, [], length, take, min, nat_lt, is_ok, is_err, IfOk, unwrap_or};
ghost use Rattle.std.specs.Result.{result_unwrap_or};
ghost use Rattle.scad_io.specs.Desk.{added, fresh, write_failed};

use crate::last_name::{LastName, NAME_ROOM};
use scad_io::Failed;
use std::alloc::{AllocError, Global};
use std::marker::Model;

/// An output in memory: its bytes, in a room that was reserved for them.
#[derive(Drop)]
pub struct Sink {
    name: LastName,
    bytes: Vec<u8>,
    room: usize,
    created: bool,
    failed: bool,
}

impl Model for Sink {
    ghost use Rattle.std.specs.Prelude.{Some, ◌≤◌, vec_len, vec_capacity};
    ghost use Rattle.memory_desk.specs.Memory.{Output};

    ghost Value = { Output };

    ghost view = { λ s. record {
      side = record {
        name = s.name;
        bytes = Some s.bytes.items;
        created = s.created;
        failed = s.failed;
      };
      room = s.room;
    } };

    ghost invariant = { λ s. (s.room ≤ vec_capacity s.bytes) × (vec_len s.bytes ≤ s.room) };
}

impl Sink {
    ghost use Rattle.memory_desk.specs.Memory.{name_room, told_name, fails_if};

    /// An output with room for so many bytes.
    pub fn new(alloc: Global, room: usize) -> Result<Sink, AllocError>
        ensures { IfOk result (λ s. s ≡ record { side = fresh (Some []); room = room }) }
    {
        Ok(Sink {
            name: LastName::new(alloc)?,
            bytes: Vec::with_capacity(alloc, room)?,
            room,
            created: false,
            failed: false,
        })
    }

    /// The bytes that were written.
    pub fn written(&self) -> &[u8]
        ensures { self.now.side.bytes ≡ Some result.now }
    {
        &self.bytes
    }

    /// Whether a call on the output has failed.
    pub fn has_failed(&self) -> bool
        ensures { result ≡ self.now.side.failed }
    {
        self.failed
    }

    /// Creates the output by this name, where the call isn't to fail and the name fits its room.
    pub fn create(&mut self, due: bool, name: &str) -> Result<(), Failed>
        ensures answer { result ≡ fails_if (due || nat_lt name_room (length name.now)) tt }
        ensures side { self.new.side ≡ record self.old.side {
          name = told_name name.now;
          created = is_ok result;
          failed = is_err result;
        } }
        ensures room { self.new.room ≡ self.old.room }
    {
        self.name.keep(name);
        self.failed = due || name.len() > NAME_ROOM;
        self.created = !self.failed;
        if self.failed { Err(Failed) } else { Ok(()) }
    }

    /// Takes as much of the piece as there is room for. It fails where there is none, or is to.
    pub fn write(&mut self, due: bool, piece: &[u8]) -> Result<usize, Failed>
        requires { 0 < length piece.now }
        ensures answer { let left = self.old.room - length (unwrap_or self.old.side.bytes []) in
            result ≡ fails_if (due || (left == 0)) (min (length piece.now) left) }
        ensures side { let front = take (result_unwrap_or result 0) piece.now in
            self.new.side ≡ added front (write_failed result) self.old.side }
        ensures room { self.new.room ≡ self.old.room }
    {
        let left = self.room - self.bytes.len();
        self.failed = due || left == 0;
        if self.failed {
            return Err(Failed);
        }
        let n = piece.len().min(left);
        self.bytes.extend_from_slice(&piece[..n]).unwrap();
        Ok(n)
    }
}

//! Lists of runs in one piece of memory.
ghost use Rattle.std.specs.Prelude.{◌≡◌, ◌<◌, ◌≤◌, ◌++◌, ◌∷◌, [], List, length, slice_index_or, OnOk, OnErr};
ghost use Rattle.plan_infill.specs.declared.run.Run.{Run};
ghost use Rattle.plan_support.specs.Lists.{cut, AreEnds};

use plan_infill::Run;
use std::alloc::{AllocError, Global};
use std::marker::Model;

/// Lists of runs, one after another in one piece of memory: eight bytes for a run and four for a list.
#[derive(Drop)]
pub(crate) struct Lists {
    ends: Vec<u32>,
    runs: Vec<Run>,
}

impl Model for Lists {
    ghost Value = { List (List Run) };

    ghost view = { λ l. cut 0 l.ends.items l.runs.items };

    ghost invariant = { λ l. AreEnds 0 l.ends.items (length l.runs.items) };
}

impl Lists {
    pub(crate) fn new(alloc: Global) -> Lists
        ensures { result ≡ [] }
    {
        Lists {
            ends: Vec::new(alloc),
            runs: Vec::new(alloc),
        }
    }

    pub(crate) fn len(&self) -> usize
        ensures { result ≡ length self.now }
    {
        self.ends.len()
    }

    pub(crate) fn get(&self, i: usize) -> &[Run]
        requires { i < length self.now }
        ensures { result.now ≡ slice_index_or self.now i [] }
    {
        let ends = self.ends.as_slice();
        let runs = self.runs.as_slice();
        let part = part_of(ends, runs, i);
        &runs[part.start..part.end]
    }

    /// One more list. Where all together have 2^32 runs or more there is too little memory.
    pub(crate) fn push(&mut self, list: &[Run]) -> Result<(), AllocError>
        ensures ok { OnOk result (self.new ≡ self.old ++ list.now ∷ []) }
        ensures err { OnErr result (self.new ≡ self.old) }
    {
        let before = self.runs.len();
        self.runs.extend_from_slice(list)?;
        let pushed = push_end(&mut self.ends, self.runs.len());
        if pushed.is_err() {
            self.runs.truncate(before);
        }
        pushed
    }

    /// Gives back the room that vectors keep in reserve.
    pub(crate) fn shrink_to_fit(&mut self)
        ensures { self.new ≡ self.old }
    {
        self.ends.shrink_to_fit();
        self.runs.shrink_to_fit();
    }
}

// Where a list starts, and the place behind its end.
#[derive(Clone, Copy)]
struct Part {
    start: usize,
    end: usize,
}

fn part_of(ends: &[u32], runs: &[Run], i: usize) -> Part
    requires ends { AreEnds 0 ends.now (length runs.now) }
    requires there { i < length ends.now }
    ensures start { result.start ≡ slice_index_or (0 ∷ ends.now) i 0 }
    ensures end { result.end ≡ slice_index_or ends.now i 0 }
    ensures order { result.start ≤ result.end }
    ensures within { result.end ≤ length runs.now }
{
    Part {
        start: start_of(ends, i),
        end: ends[i] as usize,
    }
}

// A list starts where the one before it ends.
fn start_of(ends: &[u32], i: usize) -> usize
    requires { i ≤ length ends.now }
    ensures { result ≡ slice_index_or (0 ∷ ends.now) i 0 }
{
    if i == 0 {
        return 0;
    }
    ends[i - 1] as usize
}

fn push_end(ends: &mut Vec<u32>, end: usize) -> Result<(), AllocError>
    ensures ok { OnOk result (ends.new.items ≡ ends.old.items ++ end ∷ []) }
    ensures err { OnErr result (ends.new.items ≡ ends.old.items) }
{
    let Ok(end) = u32::try_from(end) else {
        return Err(AllocError);
    };
    ends.push(end)?;
    Ok(())
}

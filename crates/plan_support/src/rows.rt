//! Rows of runs.
ghost use Rattle.std.specs.Prelude.{◌≡◌, ◌<◌, ◌++◌, ◌∷◌, [], List, length, map, slice_index_or, OnOk};
ghost use Rattle.plan_support.specs.Rows.{Row, row_list, no_row, runs_at, GoUpwards};

use crate::lists::Lists;
use plan_infill::Run;
use std::alloc::{AllocError, Global};
use std::marker::Model;

/// Rows of a layer, each a height and the runs there. They lie in two pieces of memory, however many there are.
#[derive(Drop)]
pub struct Rows {
    heights: Vec<i32>,
    lists: Lists,
}

impl Model for Rows {
    ghost use Rattle.std.specs.Prelude.{◌≡◌, List, length};
    ghost use Rattle.plan_support.specs.Rows.{Row, row_list};

    ghost Value = { List Row };

    ghost view = { λ r. row_list r.heights.items r.lists };

    ghost invariant = { λ r. length r.heights.items ≡ length r.lists };
}

impl Rows {
    /// No rows.
    pub fn new(alloc: Global) -> Rows
        ensures { result ≡ [] }
    {
        Rows {
            heights: Vec::new(alloc),
            lists: Lists::new(alloc),
        }
    }

    /// How many rows there are.
    pub fn len(&self) -> usize
        ensures { result ≡ length self.now }
    {
        self.heights.len()
    }

    /// The height of a row.
    pub fn y(&self, i: usize) -> i32
        requires { i < length self.now }
        ensures { result ≡ (slice_index_or self.now i no_row).y }
    {
        self.heights[i]
    }

    /// The runs of a row.
    pub fn runs(&self, i: usize) -> &[Run]
        requires { i < length self.now }
        ensures { result.now ≡ (slice_index_or self.now i no_row).runs }
    {
        self.lists.get(i)
    }

    /// The heights of all rows.
    pub(crate) fn heights(&self) -> &[i32]
        ensures { result.now ≡ map (λ r. r.y) self.now }
    {
        self.heights.as_slice()
    }

    /// The runs at a height, none where there is no such row.
    pub(crate) fn runs_at(&self, y: i32) -> &[Run]
        requires { GoUpwards self.now }
        ensures { result.now ≡ runs_at y self.now }
    {
        match self.heights.as_slice().binary_search(&y) {
            Ok(i) => self.lists.get(i),
            Err(_) => &[],
        }
    }

    /// Adds a row behind the others.
    pub fn push(&mut self, y: i32, runs: &[Run]) -> Result<(), AllocError>
        ensures { OnOk result (self.new ≡ self.old ++ record { y = y; runs = runs.now } ∷ []) }
    {
        self.heights.push(y)?;
        let pushed = self.lists.push(runs);
        if pushed.is_err() {
            self.heights.pop();
        }
        pushed
    }

    /// Gives back the room that vectors keep in reserve.
    pub(crate) fn shrink_to_fit(&mut self)
        ensures { self.new ≡ self.old }
    {
        self.heights.shrink_to_fit();
        self.lists.shrink_to_fit();
    }
}

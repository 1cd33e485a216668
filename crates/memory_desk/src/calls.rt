//! Which calls of a memory desk are to fail.
ghost use Rattle.std.specs.Prelude.{◌≡◌, ◌==◌};
ghost use Rattle.std.specs.List.{list_any};

/// The calls of a desk, numbered from 0, and the numbers of those that are to fail.
#[derive(Drop)]
pub struct Calls {
    pub fails: Vec<u64>,
    pub next: u64,
}

impl Calls {
    ghost use Rattle.memory_desk.specs.Memory.{next_number};

    /// Counts a call, and says whether it is to fail. The number stays at the greatest.
    pub fn count(&mut self) -> bool
        ensures due { result ≡ list_any (λ number. number == self.old.next) self.old.fails.items }
        ensures next { self.new ≡ record self.old { next = next_number self.old.next } }
    {
        let due = self.fails.contains(&self.next);
        self.next = self.next.saturating_add(1);
        due
    }
}

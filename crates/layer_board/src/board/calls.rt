//! The calls of a board. Each but a claim after the end is one step on one word, and none waits or tries again.
ghost use Rattle.std.specs.Prelude.{◌≡◌, ℕ, ◌<◌, ◌≤◌, true, false, None, Some, length, Contains};
ghost use Rattle.layer_board.specs.Pass.{fails, finishes, joins};
ghost use Rattle.layer_board.specs.Calls.{view, layers_of, workers_of, IsOf, Claims, Looks, Ascends, Closed};

use super::{Board, Claim, Outcome, Pass};
use crate::rule;
use crate::rule::{LEAST, NEXT};

impl Board {
    /// Draws the next layer. A pass that was told the end makes no step.
    pub fn claim(&self, pass: &mut Pass) -> Claim
        requires of { IsOf self.now pass.old }
        requires free { (view pass.old).pending ≡ None }
        ensures of { IsOf self.now pass.new }
        ensures event { Claims (view pass.old) result (view pass.new) }
        ensures stood { (view pass.old).ended ≡ true → (result ≡ Claim.Ended) × (view pass.new ≡ view pass.old) }
        ensures ascends { Ascends (view pass.old) result }
        ensures few { (view pass.old).ended ≡ false → length (view pass.new).drawn ≤ layers_of self.now }
    {
        if pass.ended {
            return Claim::Ended;
        }
        let words = &self.table.shared;
        let found = words.fetch_add::<rule::Claims>(&mut pass.seat, NEXT, 1);
        if found < u64::from(self.count) {
            Claim::Layer(found as u32)
        } else {
            pass.ended = true;
            Claim::Ended
        }
    }

    /// Whether the pending layer lies above the least failed one; it is then skipped, and needs no work.
    pub fn look(&self, pass: &mut Pass, n: u32) -> bool
        requires of { IsOf self.now pass.old }
        requires pending { (view pass.old).pending ≡ Some n }
        ensures of { IsOf self.now pass.new }
        ensures event { Looks (view pass.old) result (view pass.new) }
        ensures failed { (m : ℕ) → Contains (view pass.old).failed m → m < n → result ≡ true }
    {
        let words = &self.table.shared;
        let least = words.load::<rule::Looks>(&mut pass.seat, LEAST);
        least < u64::from(n)
    }

    /// The pending layer has failed.
    pub fn fail(&self, pass: &mut Pass, n: u32)
        requires of { IsOf self.now pass.old }
        requires pending { (view pass.old).pending ≡ Some n }
        ensures of { IsOf self.now pass.new }
        ensures event { view pass.new ≡ fails (view pass.old) }
    {
        let words = &self.table.shared;
        let _ = words.fetch_min::<rule::Fails>(&mut pass.seat, LEAST, u64::from(n));
    }

    /// The pending layer is finished.
    pub fn finish(&self, pass: &mut Pass, n: u32)
        requires of { IsOf self.now pass.old }
        requires pending { (view pass.old).pending ≡ Some n }
        ensures of { IsOf self.now pass.new }
        ensures event { view pass.new ≡ finishes (view pass.old) }
    {
        let words = &self.table.shared;
        let _ = words.load::<rule::Finishes>(&mut pass.seat, NEXT);
    }

    /// The first pass takes over all that the other has.
    pub fn join(&self, pass: &mut Pass, other: Pass)
        requires of { IsOf self.now pass.old }
        requires other { IsOf self.now other }
        requires free { (view pass.old).pending ≡ None }
        requires other_free { (view other).pending ≡ None }
        ensures of { IsOf self.now pass.new }
        ensures event { view pass.new ≡ joins (view pass.old) (view other) }
    {
        let Pass {
            seat,
            members,
            ended,
        } = other;
        let words = &self.table.shared;
        words.join_seat::<rule::Joins>(&mut pass.seat, seat);
        // The other branch never runs: a load would show that no pass has more than 64 members.
        let Some(sum) = pass.members.checked_add(members) else {
            words.load::<rule::Counts>(&mut pass.seat, NEXT);
            unreachable!()
        };
        pass.members = sum;
        pass.ended = pass.ended || ended;
    }

    /// The board's answer, once all passes are one.
    pub fn close(self, pass: Pass) -> Outcome
        requires of { IsOf self pass }
        requires ended { (view pass).ended ≡ true }
        requires all { length (view pass).members ≡ workers_of self }
        ensures closed { Closed (layers_of self) result.least (view pass) }
        ensures within { result.least ≤ layers_of self }
    {
        let Board { table, count: _ } = self;
        let Pass {
            seat,
            members: _,
            ended: _,
        } = pass;
        let closed = table.close_with(seat);
        let least = closed.word(LEAST);
        closed.free();
        Outcome {
            least: least as u32,
        }
    }
}

impl Pass {
    /// How many workers' passes were made this one.
    pub fn members(&self) -> u32
        ensures { result ≡ length (view self.now).members }
    {
        self.members
    }
}

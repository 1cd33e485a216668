//! The stack of what waits.

ghost use Rattle.std.specs.Prelude.{◌≡◌, [], OnOk};

use crate::work::Frame;
use scad_fault::Place;
use scad_leaves::{Operation, Where, at_first};
use scad_operations::append;
use scad_tree::Tree;
use std::alloc::{AllocError, AllocFailed, Global};
use std::mem::replace;

/// Frames, the top one last, the members so far of the operation that is being made, and where statements stand.
#[derive(Drop)]
pub struct Stack<'p> {
    /// Where its memory comes from.
    pub alloc: Global,
    /// Where the statements stand that are at work.
    pub stands: Where,
    frames: Vec<Frame<'p>>,
    made: Vec<Tree>,
}

impl<'p> Stack<'p> {
    ghost use Rattle.std.specs.Prelude.{◌≡◌, [], OnOk, MatchOption};
    ghost use Rattle.scad_tree.specs.View.{solid_of};
    ghost use Rattle.scad_leaves.specs.View.{trees_in};
    ghost use Rattle.scad_leaves.specs.Where.{at_first as first_place};
    ghost use Rattle.scad_members.specs.Stack.{rest, ended, onto, made_in, with_member, again_at, Begins};

    /// No frame and no member, where a program begins.
    #[tactic(auto, unfolding(crate::specs::Stack::rest, crate::specs::Stack::made_in))]
    pub fn new(alloc: Global) -> Stack<'p>
        ensures rest { rest result ≡ ended }
        ensures made { made_in result ≡ [] }
        ensures stands { result.stands ≡ first_place }
    {
        Stack {
            alloc,
            stands: at_first(),
            frames: Vec::new(alloc),
            made: Vec::new(alloc),
        }
    }

    /// A frame more.
    #[tactic(auto, using(crate::proofs::Onward::stacks), unfolding(crate::specs::Stack::rest, crate::specs::Stack::made_in))]
    pub fn push(&mut self, frame: Frame<'p>) -> Result<(), AllocError>
        ensures rest { OnOk result (rest self.new ≡ onto frame.entry (rest self.old)) }
        ensures made { made_in self.new ≡ made_in self.old }
        ensures stands { self.new.stands ≡ self.old.stands }
    {
        append(&mut self.frames, frame)
    }

    /// The frame on the top, where there is one.
    #[tactic(auto, using(crate::proofs::Onward::stacks), unfolding(crate::specs::Stack::rest, crate::specs::Stack::made_in))]
    pub fn pop(&mut self) -> Option<Frame<'p>>
        ensures rest { MatchOption result (rest self.old ≡ ended) (λ f. rest self.old ≡ onto f (rest self.new)) }
        ensures made { made_in self.new ≡ made_in self.old }
        ensures stands { self.new.stands ≡ self.old.stands }
    {
        self.frames.pop()
    }

    /// A tree is a member, unless its statement is marked `%`.
    #[tactic(auto, using(scad_leaves::proofs::MadeTrees::trees), unfolding(crate::specs::Stack::rest, crate::specs::Stack::made_in))]
    pub fn add(&mut self, marked: bool, tree: Tree) -> Result<(), AllocFailed<Tree>>
        ensures made { OnOk result (made_in self.new ≡ with_member marked (made_in self.old) (solid_of tree)) }
        ensures rest { rest self.new ≡ rest self.old }
        ensures stands { self.new.stands ≡ self.old.stands }
    {
        if marked {
            return Ok(());
        }
        self.made.push(tree)
    }

    /// Other members are made from now on. Gives those before.
    #[tactic(auto, unfolding(crate::specs::Stack::rest, crate::specs::Stack::made_in))]
    pub fn exchange(&mut self, other: Vec<Tree>) -> Vec<Tree>
        ensures made { made_in self.new ≡ trees_in other }
        ensures before { trees_in result ≡ made_in self.old }
        ensures rest { rest self.new ≡ rest self.old }
        ensures stands { self.new.stands ≡ self.old.stands }
    {
        replace(&mut self.made, other)
    }

    /// Statements stand there from now on.
    #[tactic(auto, unfolding(crate::specs::Stack::rest, crate::specs::Stack::made_in))]
    pub fn go_to(&mut self, there: Where)
        ensures stands { self.new.stands ≡ there }
        ensures rest { rest self.new ≡ rest self.old }
        ensures made { made_in self.new ≡ made_in self.old }
    {
        self.stands = there;
    }

    /// Statements stand at another place until their tree is given.
    #[tactic(auto, unfolding(crate::specs::Stack::onto))]
    pub fn enter(&mut self, inner: Where) -> Result<(), AllocError>
        ensures rest { OnOk result (rest self.new ≡ again_at self.old.stands (rest self.old)) }
        ensures made { made_in self.new ≡ made_in self.old }
        ensures stands { OnOk result (self.new.stands ≡ inner) }
    {
        let outer = Box::new(self.alloc, self.stands)?;
        self.push(Frame::Stand(outer))?;
        self.go_to(inner);
        Ok(())
    }

    /// The members of an operation are made from now on, inside the last frames of the machine, which are left then.
    pub fn begin(&mut self, operation: Operation, at: Place, back: u32) -> Result<(), AllocError>
        ensures rest { OnOk result (Begins operation at back (rest self.old) (made_in self.old) (rest self.new)) }
        ensures made { OnOk result (made_in self.new ≡ []) }
        ensures stands { self.new.stands ≡ self.old.stands }
    {
        let outer = self.exchange(Vec::new(self.alloc));
        self.push(Frame::Combine(operation, at, outer))?;
        self.push(Frame::Leave(back))
    }
}

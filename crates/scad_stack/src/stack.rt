//! The stack of an evaluation.

use crate::frame::{Focus, Frame};
use scad_ast::Expr;
use scad_machine::EvalFault;
use scad_operations::{Part, append};
use scad_value::Value;
use std::alloc::{AllocError, Global};
use std::mem::replace;

/// Frames, the top one last, and what was added to the vector that is being made.
#[derive(Drop)]
pub struct Stack<'p> {
    alloc: Global,
    frames: Vec<Frame<'p>>,
    made: Vec<Part>,
}

impl<'p> Stack<'p> {
    ghost use Rattle.std.specs.Prelude.{◌≡◌, ◌+◌, ◌*◌, ◌++◌, ◌∷◌, [], OnOk, IfOk, MatchOption};
    ghost use Rattle.scad_ast.specs.View.{expression_of};
    ghost use Rattle.scad_value.specs.View.{datum_of};
    ghost use Rattle.scad_machine.specs.Machine.{Held, env_in, along_in};
    ghost use Rattle.scad_stack.specs.Meaning.{value};
    ghost use Rattle.scad_operations.specs.Parts.{parts_in};
    ghost use Rattle.scad_stack.specs.Stack.{Whole, Goes, added, rest, ended, onto, height, made_in, rank};
    ghost use Rattle.scad_machine.specs.State.{State, Outcome, and_then};

    /// A stack without frames.
    #[tactic(auto, unfolding(crate::specs::Stack::rest, crate::specs::Stack::height, crate::specs::Stack::made_in))]
    pub fn new(alloc: Global) -> Stack<'p>
        ensures rest { rest result ≡ ended }
        ensures height { height result ≡ 0 }
    {
        Stack {
            alloc,
            frames: Vec::new(alloc),
            made: Vec::new(alloc),
        }
    }

    /// Where its memory comes from.
    pub fn alloc(&self) -> Global {
        self.alloc
    }

    /// A frame waits.
    #[inline(always)]
    #[tactic(auto, using(crate::proofs::StackTurns::stacks), unfolding(crate::specs::Stack::rest, crate::specs::Stack::height, crate::specs::Stack::made_in))]
    pub fn push(&mut self, frame: Frame<'p>) -> Result<(), AllocError>
        ensures rest { OnOk result (rest self.new ≡ onto frame.entry (rest self.old)) }
        ensures height { OnOk result (height self.new ≡ height self.old + 1) }
        ensures made { made_in self.new ≡ made_in self.old }
    {
        append(&mut self.frames, frame)
    }

    /// The frame on the top goes on.
    #[inline(always)]
    #[tactic(auto, using(crate::proofs::StackTurns::stacks), unfolding(crate::specs::Stack::rest, crate::specs::Stack::height, crate::specs::Stack::made_in))]
    pub fn pop(&mut self) -> Option<Frame<'p>>
        ensures rest { MatchOption result (rest self.old ≡ ended) (λ f. rest self.old ≡ onto f (rest self.new)) }
        ensures height { MatchOption result (height self.old ≡ 0) (λ f. height self.old ≡ height self.new + 1) }
        ensures made { made_in self.new ≡ made_in self.old }
    {
        self.frames.pop()
    }

    /// An expression begins, and a frame waits for its value.
    #[inline(always)]
    #[tactic(auto, unfolding(crate::specs::Stack::goes_on))]
    pub fn wait(
        &mut self,
        frame: Frame<'p>,
        e: &'p Expr,
        depth: u32,
    ) -> Result<Focus<'p>, EvalFault>
        ensures goes { (h : Held) (s : State) (o : Outcome Whole) → o ≡ and_then (value depth (env_in h) (along_in h)
            (expression_of e.now) s) (onto frame.entry (rest self.old) h (made_in self.old))
            → Goes o result (rest self.new) h (made_in self.new) s }
        ensures less { IfOk result (λ f. rank f + 2 * height self.new ≡ 2 * height self.old + 2) }
    {
        self.push(frame)?;
        Ok(Focus::Part(e, depth))
    }

    /// A value is added to the vector, and the frame on the top goes on.
    #[tactic(auto, using(scad_operations::proofs::Parts::pushed), unfolding(crate::specs::Stack::rest, crate::specs::Stack::height, crate::specs::Stack::made_in, crate::specs::Stack::goes_on))]
    pub(crate) fn add(&mut self, v: Value) -> Result<Focus<'p>, EvalFault>
        ensures goes { (h : Held) (s : State) (o : Outcome Whole) → o
            ≡ added (rest self.old) h (made_in self.old ++ datum_of v ∷ []) s
            → Goes o result (rest self.new) h (made_in self.new) s }
        ensures less { IfOk result (λ f. rank f + 2 * height self.new ≡ 2 * height self.old + 4) }
    {
        append(&mut self.made, Part::One(v))?;
        Ok(Focus::Given(Value::Undef))
    }

    /// Another vector is made; gives what was added to the one before.
    #[tactic(auto, unfolding(crate::specs::Stack::rest, crate::specs::Stack::height, crate::specs::Stack::made_in))]
    pub(crate) fn exchange(&mut self, other: Vec<Part>) -> Vec<Part>
        ensures made { made_in self.new ≡ parts_in other }
        ensures before { parts_in result ≡ made_in self.old }
        ensures rest { rest self.new ≡ rest self.old }
        ensures height { height self.new ≡ height self.old }
    {
        replace(&mut self.made, other)
    }

    /// An empty vector is made; gives what was added to the one before.
    pub fn set_aside(&mut self) -> Vec<Part>
        ensures made { made_in self.new ≡ [] }
        ensures before { parts_in result ≡ made_in self.old }
        ensures rest { rest self.new ≡ rest self.old }
        ensures height { height self.new ≡ height self.old }
    {
        let none = Vec::new(self.alloc);
        self.exchange(none)
    }
}

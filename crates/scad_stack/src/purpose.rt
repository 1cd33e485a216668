//! What the values of arguments are for.

ghost use Rattle.std.specs.Prelude.{◌≡◌, IfSome};
ghost use Rattle.scad_ast.specs.View.{arguments, expression_of};
ghost use Rattle.scad_stack.specs.Stack.{args_of, purposed};

use crate::frame::Written;
use scad_ast::{Arg, Expr, Node};
use scad_fault::Place;

/// What arguments are for, once each has its value.
#[derive(Clone, Copy)]
pub(crate) enum Purpose<'p> {
    /// A call of a function.
    Call(Written<'p>),
    /// An `assert` before an expression.
    Assert(Place, &'p [Arg], &'p Expr),
    /// An `echo` before an expression.
    Echo(Place, &'p [Arg], &'p Expr),
}

impl<'p> Purpose<'p> {
    /// The arguments.
    #[tactic(auto, unfolding(crate::specs::Stack::args_of, crate::specs::Stack::purposed))]
    pub(crate) fn args(self) -> &'p [Arg]
        ensures { arguments result.now ≡ args_of (purposed self.entry) }
    {
        match self {
            Purpose::Call(written) => written.args,
            Purpose::Assert(_, args, _) => args,
            Purpose::Echo(_, args, _) => args,
        }
    }
}

/// What the arguments of an expression are for, where it is a call, an `assert` or an `echo`.
#[tactic(auto, unfolding(crate::specs::Stack::purposed))]
pub(crate) fn purpose_of<'p>(e: &'p Expr) -> Option<Purpose<'p>>
    ensures { IfSome result (λ p. purposed p ≡ expression_of e.now) }
{
    match &e.node {
        Node::Call(word, args) => Some(Purpose::Call(Written {
            at: e.at,
            word: word.as_slice(),
            args,
        })),
        Node::Assert(args, body) => Some(Purpose::Assert(e.at, args, body)),
        Node::Echo(args, body) => Some(Purpose::Echo(e.at, args, body)),
        _ => None,
    }
}

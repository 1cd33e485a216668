//! What names mean for a machine, and what is asked of arguments.

ghost use Rattle.std.specs.Prelude.{◌≡◌, [], option_map};
ghost use Rattle.scad_ast.specs.View.{arguments};
ghost use Rattle.scad_value.specs.View.{datum_of};
ghost use Rattle.scad_machine.specs.Answers.{Does};
ghost use Rattle.scad_machine.specs.Arguments.{are_named};
ghost use Rattle.scad_machine.specs.Machine.{held, env_in, along_in};
ghost use Rattle.scad_machine.specs.State.{State, gives};
ghost use Rattle.scad_machine.specs.Variables.{is_dollar, or_undef, variable};

use crate::fault::EvalFault;
use crate::machine::Machine;
use scad_ast::Arg;
use scad_value::{Value, copy};
use std::alloc::Global;

/// Whether the name begins with `$`.
pub fn is_dollar(name: &[u8]) -> bool
    ensures { result ≡ is_dollar name.now }
{
    match name {
        [first, ..] => *first == b'$',
        [] => false,
    }
}

/// Whether every argument has a name.
#[tactic(auto, using(scad_value::proofs::Lists::lists))]
pub fn are_named(args: &[Arg]) -> bool
    ensures { result ≡ are_named (arguments args.now) }
{
    'arguments: for arg in args {
        if arg.name.is_none() {
            return false;
        }
    }
    true
}

impl<'p> Machine<'p> {
    /// The value of a variable, where it has one.
    #[inline(always)]
    #[tactic(auto, unfolding(crate::specs::Variables::variable, crate::specs::Machine::env_in, crate::specs::Machine::along_in, crate::specs::Machine::held))]
    pub fn seek(&self, name: &[u8]) -> Option<&Value>
        ensures { or_undef (option_map (λ v. datum_of v.now) result)
            ≡ variable name.now (env_in (held self.now)) (along_in (held self.now)) }
    {
        if is_dollar(name) {
            let last = self.along.len().saturating_sub(1);
            self.along.get(last, name)
        } else {
            self.frames.get(self.here, name)
        }
    }

    /// A copy of the value of a variable.
    #[inline(always)]
    pub fn variable(&self, alloc: Global, name: &[u8]) -> Result<Value, EvalFault>
        ensures { (s : State) → Does datum_of (gives
            (variable name.now (env_in (held self.now)) (along_in (held self.now))) s) result s }
    {
        match self.seek(name) {
            Some(value) => Ok(copy(alloc, value)?),
            None => Ok(Value::Undef),
        }
    }
}

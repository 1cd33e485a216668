//! Lines of `echo`.

ghost use Rattle.std.specs.Prelude.{◌≡◌, ◌++◌, ◌≤◌, IfOk, OnOk};
ghost use Rattle.scad_ast.specs.View.{arguments};
ghost use Rattle.scad_value.specs.Texts.{comma};
ghost use Rattle.scad_machine.specs.EchoLines.{label, echo_line};
ghost use Rattle.scad_value.specs.View.{data_of};
ghost use Rattle.scad_machine.specs.Answers.{Does, nothing};
ghost use Rattle.scad_machine.specs.Machine.{held, state_of};
ghost use Rattle.scad_machine.specs.State.{say};

use crate::fault::EvalFault;
use crate::machine::Machine;
use scad_ast::Arg;
use scad_fault::{Place, Text};
use scad_value::{Value, push_text};
use std::alloc::{AllocError, Global};

fn push_bytes(out: &mut Vec<char>, bytes: &[u8]) -> Result<(), AllocError>
    ensures { OnOk result (out.new.items ≡ out.old.items ++ bytes.now) }
{
    'bytes: for b in bytes {
        out.push(char::from(*b))?;
    }
    Ok(())
}

/// Appends what stands before a named argument.
fn push_label(out: &mut Vec<char>, name: &Option<Text>) -> Result<(), AllocError>
    ensures { OnOk result (out.new.items ≡ out.old.items ++ label name.now) }
{
    match name {
        Some(word) => {
            push_bytes(out, word.as_slice())?;
            push_bytes(out, b" = ")
        }
        None => Ok(()),
    }
}

/// Appends what stands before an argument, the first of all or not.
fn push_comma(out: &mut Vec<char>, first: bool) -> Result<(), AllocError>
    ensures { OnOk result (out.new.items ≡ out.old.items ++ comma first) }
{
    if first {
        Ok(())
    } else {
        push_bytes(out, b", ")
    }
}

/// The line of these arguments and values.
#[tactic(auto, using(scad_value::proofs::Lists::lists), unfolding(crate::specs::EchoLines::echo_line))]
fn echo_line(alloc: Global, args: &[Arg], values: &[Value]) -> Result<Vec<char>, AllocError>
    ensures { IfOk result (λ line. line.items ≡ echo_line (arguments args.now) (data_of values.now)) }
{
    let mut line = Vec::new(alloc);
    push_bytes(&mut line, b"ECHO: ")?;
    let mut i = 0;
    'arguments: for arg in args {
        if i >= values.len() {
            return Ok(line);
        }
        push_comma(&mut line, i == 0)?;
        push_label(&mut line, &arg.name)?;
        push_text(&mut line, &values[i])?;
        i += 1;
    }
    Ok(line)
}

impl<'p> Machine<'p> {
    /// The line of these arguments with their values.
    pub fn echo(
        &mut self,
        alloc: Global,
        at: Place,
        args: &[Arg],
        values: &[Value],
    ) -> Result<(), EvalFault>
        ensures does { Does nothing (say at (echo_line (arguments args.now) (data_of values.now))
            (state_of self.old)) result (state_of self.new) }
        ensures kept { held self.new ≡ held self.old }
        ensures less { OnOk result (self.new.steps_left ≤ self.old.steps_left) }
    {
        let line = echo_line(alloc, args, values)?;
        self.say(alloc, at, &line)
    }
}

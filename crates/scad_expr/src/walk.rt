//! Expressions to values.

ghost use Rattle.std.specs.Prelude.{◌≡◌, OnOk};
ghost use Rattle.scad_ast.specs.View.{expression_of};
ghost use Rattle.scad_value.specs.View.{datum_of};
ghost use Rattle.scad_machine.specs.Answers.{Does};
ghost use Rattle.scad_machine.specs.Machine.{held, env_in, along_in, state_of};
ghost use Rattle.scad_stack.specs.Meaning.{value};

use crate::run::eval_at;
use scad_ast::Expr;
use scad_machine::{EvalFault, Machine};
use scad_value::Value;
use std::alloc::Global;

/// The value of an expression. It has as many levels of depth as the machine has left.
pub fn eval<'p>(
    alloc: Global,
    expr: &'p Expr,
    machine: &mut Machine<'p>,
) -> Result<Value, EvalFault>
    ensures does { Does datum_of (value (held machine.old).depth (env_in (held machine.old))
        (along_in (held machine.old)) (expression_of expr.now) (state_of machine.old))
        result (state_of machine.new) }
    ensures kept { OnOk result (held machine.new ≡ held machine.old) }
{
    let depth = machine.depth();
    eval_at(alloc, expr, depth, machine)
}

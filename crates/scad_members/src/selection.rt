//! The children that a value names.

ghost use Rattle.std.specs.Prelude.{◌≡◌, IfOk, option_map};
ghost use Rattle.scad_ast.specs.Scope.{item_of, items};
ghost use Rattle.scad_value.specs.View.{datum_of};
ghost use Rattle.scad_expr.specs.Runs.{left_in};
ghost use Rattle.scad_expr.specs.Runs.{items as run_over};
ghost use Rattle.scad_members.specs.ChildRange.{NameAlike};
ghost use Rattle.scad_members.specs.Choice.{child_named};

use crate::child_range::child_bounds;
use crate::item::child_at;
use scad_ast::{Item, Scope};
use scad_num::ONE;
use scad_operations::{Remainder, run_over};
use scad_value::Value;
use std::alloc::{AllocError, Global};

/// The child that a value names: a number is cut to a whole one, from 0.
#[tactic(auto, using(scad_value::proofs::Rows::vector_view))]
pub(crate) fn child_named<'p>(scope: &'p Scope, value: &Value) -> Option<&'p Item>
    ensures { option_map (λ i. item_of i.now) result ≡ child_named (items scope.now.items) (datum_of value.now) }
{
    match value {
        Value::Number(n) => {
            let whole = n.millionths() / ONE;
            if whole < 0 {
                None
            } else {
                child_at(scope, whole as usize)
            }
        }
        Value::Undef => None,
        Value::Bool(_) => None,
        Value::Str(_) => None,
        Value::List(_) => None,
        Value::Range(_, _, _) => None,
    }
}

/// Values that name the children that the items of a value name. Those of a range are sought where children can be.
#[tactic(auto, using(crate::proofs::Onward::alike), unfolding(scad_operations::specs::Runs::left_in, scad_operations::specs::Runs::items))]
pub(crate) fn naming(alloc: Global, scope: &Scope, value: &Value) -> Result<Remainder, AllocError>
    ensures { IfOk result (λ r. NameAlike (items scope.now.items) (left_in r) (run_over (datum_of value.now))) }
{
    match value {
        Value::Range(start, step, end) => {
            let (first, last) = child_bounds(scope, *start, *step, *end);
            Ok(Remainder::Numbers(Some(first), *step, last))
        }
        other => run_over(alloc, other),
    }
}

//! Which parameter takes which argument.

ghost use Rattle.std.specs.Prelude.{◌≡◌, ◌<◌, ◌^◌, ◌||◌, IfOk, OnOk, map};
ghost use Rattle.scad_ast.specs.Scope.{parameter, item_of, items};
ghost use Rattle.scad_ast.specs.View.{arguments};
ghost use Rattle.scad_value.specs.View.{datum_of, data_in};
ghost use Rattle.scad_machine.specs.Arguments.{is_parameter, given, is_statement, number_of_children};
ghost use Rattle.scad_machine.specs.Parameters.{parameter_names, unnamed_before_next, missing, with_argument};
ghost use Rattle.scad_machine.specs.Variables.{is_dollar};
ghost use Rattle.scad_machine.specs.View.{names_in, values_in};

use crate::names::is_dollar;
use crate::parameter_names::ParameterNames;
use crate::parameter_values::ParameterValues;
use scad_ast::{Arg, Item, Param, Scope};
use scad_num::{Num, ONE};
use scad_value::Value;
use std::alloc::{AllocError, Global};

/// At most so many children are counted.
pub const CHILD_LIMIT: u64 = 1_000_000_000;

/// Whether a call takes an argument of the name.
fn takes(params: &ParameterNames, name: &[u8]) -> bool
    ensures { result ≡ is_parameter name.now (names_in params.now) || is_dollar name.now }
{
    params.has(name) || is_dollar(name)
}

/// The value of an argument goes to its parameter, where so many unnamed ones stand before.
fn give<'p>(
    params: &ParameterNames<'p>,
    arg: &'p Arg,
    i: usize,
    value: Value,
    got: &mut ParameterValues<'p>,
) -> Result<(), AllocError>
    ensures { OnOk result (values_in got.new ≡ with_argument (names_in params.now) i
        arg.now.name (datum_of value) (values_in got.old)) }
{
    match &arg.name {
        Some(name) => {
            if takes(params, name.as_slice()) {
                got.put(name.as_slice(), value)
            } else {
                Ok(())
            }
        }
        None => match params.name(i) {
            Some(name) => got.put(name, value),
            None => Ok(()),
        },
    }
}

/// How many unnamed arguments stand before the next one.
fn unnamed_before_next(arg: &Arg, i: usize) -> usize
    requires { i < 2 ^ 63 }
    ensures { result ≡ unnamed_before_next arg.now.name i }
{
    match &arg.name {
        Some(_) => i,
        None => i + 1,
    }
}

/// What arguments with their values give to parameters.
#[tactic(auto, using(crate::proofs::Giving::gives), unfolding(crate::specs::Arguments::given))]
pub(crate) fn given<'p>(
    alloc: Global,
    params: &'p [Param],
    args: &'p [Arg],
    values: Vec<Value>,
) -> Result<ParameterValues<'p>, AllocError>
    ensures { IfOk result (λ got. values_in got
        ≡ given (parameter_names params.now) (arguments args.now) (data_in values)) }
{
    let names = ParameterNames::of(alloc, params, args.len())?;
    let mut got = ParameterValues::new(alloc, args.len());
    let mut unnamed = 0;
    let mut at = 0;
    'values: for value in values {
        if at >= args.len() {
            return Ok(got);
        }
        let arg = &args[at];
        give(&names, arg, unnamed, value, &mut got)?;
        unnamed = unnamed_before_next(arg, unnamed);
        at += 1;
    }
    Ok(got)
}

/// The parameters that aren't given, in their order.
#[tactic(auto, using(crate::proofs::Giving::misses))]
pub(crate) fn missing<'p>(
    alloc: Global,
    params: &'p [Param],
    got: &ParameterValues<'p>,
) -> Result<Vec<&'p Param>, AllocError>
    ensures { IfOk result (λ all. map (λ p. parameter p.now) all.items
        ≡ missing (values_in got.now) (map parameter params.now)) }
{
    let mut all = Vec::new(alloc);
    'parameters: for p in params {
        if !got.has(p.name.as_slice()) {
            all.push(p)?;
        }
    }
    Ok(all)
}

/// Whether an item is a statement.
pub fn is_statement(item: &Item) -> bool
    ensures { result ≡ is_statement (item_of item.now) }
{
    match item {
        Item::Run(_) => true,
        _ => false,
    }
}

/// The number of child statements, as a value.
#[tactic(auto, using(crate::proofs::Giving::counts))]
pub(crate) fn number_of_children(all: &Scope) -> Value
    ensures { datum_of result ≡ number_of_children (items all.now.items) }
{
    let mut count: u64 = 0;
    'items: for item in all {
        if is_statement(item) {
            count += 1;
        }
    }
    let shown = if count > CHILD_LIMIT {
        CHILD_LIMIT
    } else {
        count
    };
    Value::Number(Num::within(shown as i64 * ONE))
}

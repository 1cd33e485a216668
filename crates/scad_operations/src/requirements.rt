//! What is asked of the arguments of `let`, `for` and `assert`.

ghost use Rattle.std.specs.Prelude.{◌≡◌, [], ◌∷◌, codes, option_map};
ghost use Rattle.scad_ast.specs.View.{arguments};
ghost use Rattle.scad_value.specs.View.{datum_of, data_of};
ghost use Rattle.scad_scope.specs.Names.{value_of_name};
ghost use Rattle.scad_machine.specs.Answers.{Does, nothing};
ghost use Rattle.scad_machine.specs.Arguments.{given};
ghost use Rattle.scad_operations.specs.Values.{tested, asserted, judge_named, judge_variables};
ghost use Rattle.scad_machine.specs.State.{State};
ghost use Rattle.scad_operations.specs.Condition.{first_after, test_by};

use scad_ast::Arg;
use scad_fault::{FaultKind, Place};
use scad_machine::{EvalFault, are_named, fault_at, named_fault};
use scad_value::{Value, truth};
use std::alloc::Global;

/// Every argument has a name.
#[tactic(auto, unfolding(crate::specs::Values::judge_named, scad_machine::specs::State::fault_of))]
pub fn judge_named(alloc: Global, at: Place, word: &[u8], args: &[Arg]) -> Result<(), EvalFault>
    ensures { (s : State) → Does nothing (judge_named at word.now (arguments args.now) s) result s }
{
    if are_named(args) {
        Ok(())
    } else {
        Err(named_fault(alloc, FaultKind::BadArgument, at, word))
    }
}

/// There is an argument, and every one has a name.
#[tactic(auto, using(crate::proofs::Lists::some), unfolding(crate::specs::Values::judge_variables, scad_machine::specs::State::fault_of))]
pub fn judge_variables(alloc: Global, at: Place, word: &[u8], args: &[Arg]) -> Result<(), EvalFault>
    ensures { (s : State) → Does nothing (judge_variables at word.now (arguments args.now) s) result s }
{
    if args.len() == 0 {
        Err(named_fault(alloc, FaultKind::BadArgument, at, word))
    } else {
        judge_named(alloc, at, word, args)
    }
}

/// What is tested after an argument, where an unnamed one may stand before or not.
fn test_by<'a>(
    first: bool,
    arg: &Arg,
    value: &'a Value,
    found: Option<&'a Value>,
) -> Option<&'a Value>
    ensures { option_map (λ v. datum_of v.now) result
        ≡ test_by first arg.now.name (datum_of value.now) (option_map (λ v. datum_of v.now) found.entry) }
{
    match &arg.name {
        Some(name) => {
            if b"test".as_slice() == name.as_slice() {
                Some(value)
            } else {
                found
            }
        }
        None => { if first { Some(value) } else { found } }
    }
}

/// Whether still no unnamed argument stands before.
fn first_after(first: bool, arg: &Arg) -> bool
    ensures { result ≡ first_after first arg.now.name }
{
    match &arg.name {
        Some(_) => first,
        None => false,
    }
}

/// The value that is tested.
#[tactic(auto, using(scad_value::proofs::Lists::lists, crate::proofs::Condition::tested))]
fn test_of<'a>(args: &[Arg], values: &'a [Value]) -> Option<&'a Value>
    ensures { option_map (λ v. datum_of v.now) result ≡ value_of_name (codes "test")
        (given (codes "test" ∷ codes "text" ∷ []) (arguments args.now) (data_of values.now)) }
{
    let mut found = None;
    let mut first = true;
    let mut i = 0;
    'arguments: for arg in args {
        if i >= values.len() {
            return found;
        }
        found = test_by(first, arg, &values[i], found);
        first = first_after(first, arg);
        i += 1;
    }
    found
}

/// The judgement of a test.
#[tactic(auto, unfolding(scad_machine::specs::State::fault, scad_machine::specs::State::fault_of))]
fn tested(alloc: Global, at: Place, test: Option<&Value>) -> Result<(), EvalFault>
    ensures { (s : State) → Does nothing (tested at (option_map (λ v. datum_of v.now) test.entry) s) result s }
{
    match test {
        None => Err(named_fault(alloc, FaultKind::BadArgument, at, b"assert")),
        Some(Value::Undef) => Err(named_fault(alloc, FaultKind::BadArgument, at, b"assert")),
        Some(value) => {
            if truth(value) {
                Ok(())
            } else {
                Err(fault_at(alloc, FaultKind::AssertFailed, at))
            }
        }
    }
}

/// The judgement of an `assert` with these arguments and values.
#[tactic(auto, unfolding(crate::specs::Values::asserted))]
pub fn asserted(alloc: Global, at: Place, args: &[Arg], values: &[Value]) -> Result<(), EvalFault>
    ensures { (s : State) → Does nothing (asserted at (arguments args.now) (data_of values.now) s) result s }
{
    tested(alloc, at, test_of(args, values))
}

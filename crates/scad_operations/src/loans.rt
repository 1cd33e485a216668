//! Variables whose values are read where they stand, without a copy: `v[i]`, `v.x`, `len(v)`.

ghost use Rattle.std.specs.Prelude.{◌≡◌, ◌≤◌, IfOk, IfErr, IfSome, OnOk, Ok, Some, option_map};
ghost use Rattle.scad_ast.specs.Tree.{name};
ghost use Rattle.scad_ast.specs.View.{arguments};
ghost use Rattle.scad_builtin.specs.Builtin.{builtin};
ghost use Rattle.scad_builtin.specs.Answer.{Refuses};
ghost use Rattle.scad_value.specs.Datum.{element, no_elements};
ghost use Rattle.scad_value.specs.Index.{indexed};
ghost use Rattle.scad_value.specs.View.{datum_of};
ghost use Rattle.scad_machine.specs.Answers.{Does};
ghost use Rattle.scad_machine.specs.Machine.{held, env_in, along_in, state_of};
ghost use Rattle.scad_operations.specs.Values.{called_builtin, member_of};
ghost use Rattle.scad_machine.specs.Arguments.{lone};
ghost use Rattle.scad_machine.specs.Variables.{or_undef, variable};

use crate::operations::{member, refusal};
use scad_ast::{Arg, Node};
use scad_builtin::{BuiltinFault, call};
use scad_fault::Place;
use scad_machine::{EvalFault, Machine};
use scad_value::{Value, index};
use std::alloc::{AllocError, Global};

/// An index of a variable's value.
#[tactic(auto, using(crate::proofs::InPlace::undefined))]
pub(crate) fn index_in(alloc: Global, found: Option<&Value>, i: &Value) -> Result<Value, AllocError>
    ensures { IfOk result (λ v. datum_of v
        ≡ indexed (or_undef (option_map (λ w. datum_of w.now) found.entry)) (datum_of i.now)) }
{
    match found {
        Some(a) => index(alloc, a, i),
        None => Ok(Value::Undef),
    }
}

/// A member of a variable's value.
#[tactic(auto, using(crate::proofs::InPlace::undefined))]
pub fn member_in(alloc: Global, found: Option<&Value>, word: &[u8]) -> Result<Value, AllocError>
    ensures { IfOk result (λ v. datum_of v
        ≡ member_of word.now (or_undef (option_map (λ w. datum_of w.now) found.entry))) }
{
    match found {
        Some(a) => member(alloc, a, word),
        None => Ok(Value::Undef),
    }
}

/// What a function of the language gives of a variable.
pub(crate) fn of_variable<'p>(
    alloc: Global,
    word: &[u8],
    of: &[u8],
    m: &Machine<'p>,
) -> Result<Value, BuiltinFault>
    ensures ok { IfOk result (λ v. builtin word.now (element (variable of.now
        (env_in (held m.now)) (along_in (held m.now))) no_elements) ≡ Ok (datum_of v)) }
    ensures err { IfErr result (Refuses (builtin word.now (element (variable of.now
        (env_in (held m.now)) (along_in (held m.now))) no_elements))) }
{
    match m.seek(of) {
        Some(value) => call(alloc, word, std::slice::from_ref(value)),
        None => call(alloc, word, &[Value::Undef]),
    }
}

/// A function of the language of one argument, a variable.
#[tactic(auto, using(crate::proofs::InPlace::refused), unfolding(crate::specs::Values::called_builtin))]
pub fn builtin_on<'p>(
    alloc: Global,
    at: Place,
    word: &[u8],
    of: &[u8],
    m: &mut Machine<'p>,
) -> Result<Value, EvalFault>
    ensures does { Does datum_of (called_builtin at word.now (builtin word.now (element (variable of.now
        (env_in (held m.old)) (along_in (held m.old))) no_elements)) (state_of m.old)) result
        (state_of m.new) }
    ensures kept { OnOk result (held m.new ≡ held m.old) }
    ensures less { OnOk result (m.new.steps_left ≤ m.old.steps_left) }
{
    match of_variable(alloc, word, of, m) {
        Ok(value) => m.make(at, value),
        Err(e) => Err(refusal(alloc, at, word, e)),
    }
}

/// The argument of a call, where it has one and that is a name.
#[tactic(auto, using(crate::proofs::InPlace::alone))]
pub fn lone_name<'a>(args: &'a [Arg]) -> Option<(Place, &'a [u8])>
    ensures { IfSome result (λ r. lone (arguments args.now) ≡ Some (name r.0 r.1.now)) }
{
    let [arg] = args else {
        return None;
    };
    match &arg.value.node {
        Node::Name(word) => Some((arg.value.at, word.as_slice())),
        _ => None,
    }
}

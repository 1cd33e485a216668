//! `concat`.

ghost use Rattle.std.specs.Prelude.{◌≡◌, ◌++◌, ◌∷◌, [], OnOk, IfOk, IsOkUnless};
ghost use Rattle.scad_value.specs.Datum.{Elements, element, vector};
ghost use Rattle.scad_value.specs.View.{datum_of, elements};
ghost use Rattle.scad_builtin.specs.Vectors.{appended, spread, joined};

use crate::fault::BuiltinFault;
use scad_value::{Value, Values, copy};
use std::alloc::Global;

fn push(value: Value, onto: &mut Values) -> Result<(), BuiltinFault>
    ensures ok { OnOk result (onto.new.items ≡ onto.old.items ++ value ∷ []) }
    ensures err { IsOkUnless result BuiltinFault.Memory }
{
    match onto.push(value) {
        Ok(()) => Ok(()),
        Err(_) => Err(BuiltinFault::Memory),
    }
}

/// Adds a copy of a value.
#[tactic(auto, using(crate::proofs::Rows::appended_push))]
fn push_copy(alloc: Global, value: &Value, onto: &mut Values) -> Result<(), BuiltinFault>
    ensures ok { OnOk result ((rest : Elements) → appended (elements onto.new.items) rest
        ≡ appended (elements onto.old.items) (element (datum_of value.now) rest)) }
    ensures err { IsOkUnless result BuiltinFault.Memory }
{
    push(copy(alloc, value)?, onto)
}

/// Adds copies of values.
fn push_copies(alloc: Global, values: &[Value], onto: &mut Values) -> Result<(), BuiltinFault>
    ensures ok { OnOk result ((rest : Elements) → appended (elements onto.new.items) rest
        ≡ appended (elements onto.old.items) (appended (elements values.now) rest)) }
    ensures err { IsOkUnless result BuiltinFault.Memory }
{
    for value in values {
        push_copy(alloc, value, onto)?;
    }
    Ok(())
}

/// Adds copies of the elements of a vector, or of the value itself.
#[tactic(auto, using(scad_value::proofs::Rows::vector_view))]
fn push_spread(alloc: Global, value: &Value, onto: &mut Values) -> Result<(), BuiltinFault>
    ensures ok { OnOk result ((rest : Elements) → appended (elements onto.new.items) rest
        ≡ appended (elements onto.old.items) (spread (datum_of value.now) rest)) }
    ensures err { IsOkUnless result BuiltinFault.Memory }
{
    match value {
        Value::List(all) => push_copies(alloc, all.as_slice(), onto),
        _ => push_copy(alloc, value, onto),
    }
}

/// The elements of vectors, and the other values as they are, in one list.
fn joined(alloc: Global, args: &[Value]) -> Result<Values, BuiltinFault>
    ensures ok { IfOk result (λ all. elements all.items ≡ joined (elements args.now)) }
    ensures err { IsOkUnless result BuiltinFault.Memory }
{
    let mut all = Values::new(alloc);
    for value in args {
        push_spread(alloc, value, &mut all)?;
    }
    Ok(all)
}

/// The vector of the elements of vectors, and of the other values as they are.
#[tactic(auto, using(scad_value::proofs::Rows::vector_view))]
pub(crate) fn concat(alloc: Global, args: &[Value]) -> Result<Value, BuiltinFault>
    ensures ok { IfOk result (λ v. datum_of v ≡ vector (joined (elements args.now))) }
    ensures err { IsOkUnless result BuiltinFault.Memory }
{
    Ok(Value::vector(alloc, joined(alloc, args)?)?)
}

//! `cross`.

ghost use Rattle.std.specs.Prelude.{◌≡◌, ◌<◌, pos, length, slice_index_or, IfOk, IfErr, IsOkUnless};
ghost use Rattle.scad_value.specs.View.{datum_of, elements};
ghost use Rattle.scad_builtin.specs.Answer.{Refuses};
ghost use Rattle.scad_builtin.specs.Arguments.{numbers};
ghost use Rattle.scad_builtin.specs.Vectors.{cross_entry, cross_of, triple};

use crate::argument::amount;
use crate::fault::BuiltinFault;
use crate::number::minor;
use scad_num::Num;
use scad_value::Value;
use std::alloc::Global;

/// The number at a place.
#[tactic(auto, using(crate::proofs::Rows::number_at))]
fn number_at(values: &[Value], k: usize) -> Num
    requires { k < length values.now }
    ensures { result ≡ slice_index_or (numbers (elements values.now)) k (pos 0) }
{
    amount(&values[k])
}

/// `a[i] * b[j] - a[j] * b[i]`
fn cross_entry(a: &[Value], b: &[Value], i: usize, j: usize) -> Result<Num, BuiltinFault>
    requires i_in_a { i < length a.now }
    requires i_in_b { i < length b.now }
    requires j_in_a { j < length a.now }
    requires j_in_b { j < length b.now }
    ensures { result ≡ cross_entry (numbers (elements a.now)) (numbers (elements b.now)) i j }
{
    let entry = minor(
        number_at(a, i),
        number_at(a, j),
        number_at(b, i),
        number_at(b, j),
    );
    Ok(entry?)
}

/// The vector of three numbers.
#[tactic(auto, using(scad_value::proofs::Rows::vector_view))]
fn triple(alloc: Global, x: Num, y: Num, z: Num) -> Result<Value, BuiltinFault>
    ensures ok { IfOk result (λ v. datum_of v ≡ triple x y z) }
    ensures err { IsOkUnless result BuiltinFault.Memory }
{
    let all = [Value::Number(x), Value::Number(y), Value::Number(z)];
    match Vec::from_array(alloc, all) {
        Ok(all) => Ok(Value::vector(alloc, all)?),
        Err(_) => Err(BuiltinFault::Memory),
    }
}

/// The cross product of two vectors of numbers.
#[tactic(auto, using(crate::proofs::Rows::length_numbers))]
pub(crate) fn cross(alloc: Global, a: &[Value], b: &[Value]) -> Result<Value, BuiltinFault>
    ensures ok { IfOk result (λ v.
        cross_of (numbers (elements a.now)) (numbers (elements b.now)) ≡ Ok (datum_of v)) }
    ensures err { IfErr result
        (Refuses (cross_of (numbers (elements a.now)) (numbers (elements b.now)))) }
{
    if a.len() == 2 && b.len() == 2 {
        return Ok(Value::Number(cross_entry(a, b, 0, 1)?));
    }
    if a.len() == 3 && b.len() == 3 {
        let x = cross_entry(a, b, 1, 2)?;
        let y = cross_entry(a, b, 2, 0)?;
        let z = cross_entry(a, b, 0, 1)?;
        return triple(alloc, x, y, z);
    }
    Err(BuiltinFault::BadArgument)
}

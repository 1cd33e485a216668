//! Truth, size and depth of a value.

ghost use Rattle.std.specs.Prelude.{◌≡◌, ◌-◌, ◌^◌, min};
ghost use Rattle.scad_value.specs.Comparison.{truth};
ghost use Rattle.scad_value.specs.Measures.{made, made_all, nesting, deepest};
ghost use Rattle.scad_value.specs.View.{datum_of, elements};

use crate::value::Value;

/// Whether the value counts as true.
pub fn truth(a: &Value) -> bool
    ensures { result ≡ truth (datum_of a.now) }
{
    match a {
        Value::Undef => false,
        Value::Bool(b) => *b,
        Value::Number(n) => n.millionths() != 0,
        Value::Str(chars) => !chars.as_slice().is_empty(),
        Value::List(all) => !all.as_slice().is_empty(),
        Value::Range(_, _, _) => true,
    }
}

/// How many elements and characters there are in the value, at every depth, or 2^64 - 1 where there are more.
#[inline(always)]
#[cycle(made)]
#[tactic(auto, using(crate::proofs::Rows::at_vector))]
pub fn made(a: &Value) -> u64
    ensures { result ≡ min (made (datum_of a.now)) (2 ^ 64 - 1) }
{
    match a {
        Value::Str(chars) => chars.as_slice().len() as u64,
        Value::List(all) => made_all(all.as_slice()),
        _ => 0,
    }
}

#[cycle(made)]
#[tactic(auto, using(crate::proofs::Rows::left))]
fn made_all(all: &[Value]) -> u64
    ensures { result ≡ min (made_all (elements all.now)) (2 ^ 64 - 1) }
{
    let mut count = 0u64;
    for v in all {
        count = count.saturating_add(1).saturating_add(made(v));
    }
    count
}

/// How many brackets stand round the value's innermost element, or 2^32 - 1 where there are more.
#[inline(always)]
#[cycle(nesting)]
#[tactic(auto, using(crate::proofs::Rows::at_vector))]
pub fn nesting(a: &Value) -> u32
    ensures { result ≡ min (nesting (datum_of a.now)) (2 ^ 32 - 1) }
{
    match a {
        Value::List(all) => deepest(all.as_slice()).saturating_add(1),
        _ => 0,
    }
}

#[cycle(nesting)]
#[tactic(auto, using(crate::proofs::Rows::left))]
fn deepest(all: &[Value]) -> u32
    ensures { result ≡ min (deepest (elements all.now)) (2 ^ 32 - 1) }
{
    let mut depth = 0u32;
    for v in all {
        depth = depth.max(nesting(v));
    }
    depth
}

//! What a variable of a `for` still runs over.

ghost use Rattle.std.specs.Prelude.{◌≡◌, ◌∷◌, [], IfOk, MatchOption};
ghost use Rattle.scad_value.specs.View.{datum_of};
ghost use Rattle.scad_operations.specs.Runs.{items, left_in};

use crate::sequence::{items_of, next_number};
use scad_num::Num;
use scad_value::{Value, copy};
use std::alloc::{AllocError, Global};

/// What is left of some values.
#[derive(Drop)]
pub enum Remainder {
    /// Those from a place on.
    Values(Vec<Value>, usize),
    /// The numbers of a range, which are made one by one: the next one, the step and the end.
    Numbers(Option<Num>, Num, Num),
}

/// All that `for` runs over where it is given this value.
#[tactic(auto, using(crate::proofs::RunsLeft::kinds), unfolding(crate::specs::Runs::left_in))]
pub fn run_over(alloc: Global, over: &Value) -> Result<Remainder, AllocError>
    ensures { IfOk result (λ r. left_in r ≡ items (datum_of over.now)) }
{
    match over {
        Value::Range(start, step, end) => Ok(Remainder::Numbers(Some(*start), *step, *end)),
        over => Ok(Remainder::Values(items_of(alloc, over)?, 0)),
    }
}

/// The next value; what is left comes behind it.
#[tactic(auto, using(scad_value::proofs::Lists::lists), unfolding(crate::specs::Runs::left_in))]
pub fn next_value(alloc: Global, left: &mut Remainder) -> Result<Option<Value>, AllocError>
    ensures { IfOk result (λ r. MatchOption r (left_in left.old ≡ [])
        (λ v. left_in left.old ≡ datum_of v ∷ left_in left.new)) }
{
    match left {
        Remainder::Values(all, next) => {
            if *next >= all.len() {
                return Ok(None);
            }
            let value = copy(alloc, &all[*next])?;
            *next += 1;
            Ok(Some(value))
        }
        Remainder::Numbers(next, step, end) => match next_number(*next, *step, *end) {
            Some((n, rest)) => {
                *next = rest;
                Ok(Some(Value::Number(n)))
            }
            None => Ok(None),
        },
    }
}

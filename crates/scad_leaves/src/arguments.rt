//! What the arguments of the language's modules say, at the name of the call.

ghost use Rattle.std.specs.Prelude.{◌≡◌, ◌≢◌, Ok, IfOk};
ghost use Rattle.scad_machine.specs.declared.fault.EvalFault.TheVariants.{Memory};
ghost use Rattle.scad_machine.specs.Answers.{Does};
ghost use Rattle.scad_machine.specs.State.{State};
ghost use Rattle.scad_leaves.specs.Products.{argument_fault, argued, placed_by};
ghost use Rattle.scad_leaves.specs.Where.{moved};

use crate::space::{Where, moved};
use scad_fault::{FaultKind, Place};
use scad_machine::{EvalFault, fault_at, named_fault};
use scad_matrix::{Matrix, MatrixFault};
use scad_modules::ArgumentFault;
use std::alloc::Global;

/// The fault of arguments at the call's name.
fn argument_fault(alloc: Global, at: Place, name: &[u8], why: ArgumentFault) -> EvalFault
    ensures { result ≢ Memory → result ≡ argument_fault at name.now why }
{
    match why {
        ArgumentFault::BadArgument => named_fault(alloc, FaultKind::BadArgument, at, name),
        ArgumentFault::LeftOut => named_fault(alloc, FaultKind::LeftOut, at, name),
        ArgumentFault::NumberRange => fault_at(alloc, FaultKind::NumberRange, at),
        ArgumentFault::Memory => EvalFault::Memory,
    }
}

/// What the arguments of a call say, or their fault at the call's name.
#[tactic(auto, unfolding(crate::specs::Products::argued))]
pub fn argued<T>(
    alloc: Global,
    at: Place,
    name: &[u8],
    read: Result<T, ArgumentFault>,
) -> Result<T, EvalFault>
    ensures argued { (s : State) → Does (λ a. a) (argued at name.now read s) result s }
    ensures same { IfOk result (λ a. read ≡ Ok a) }
{
    match read {
        Ok(found) => Ok(found),
        Err(why) => Err(argument_fault(alloc, at, name, why)),
    }
}

/// Where the children of a transformation by a matrix stand; NumberRange where an entry of the product is out of range.
#[tactic(auto, unfolding(crate::specs::Products::placed_by, scad_machine::specs::State::fault))]
pub fn moved_by(alloc: Global, at: Place, w: &Where, by: &Matrix) -> Result<Where, EvalFault>
    ensures { (s : State) → Does (λ w. w) (placed_by at (moved w.now by.now) s) result s }
{
    match moved(w, by) {
        Ok(inner) => Ok(inner),
        Err(MatrixFault::Range) => Err(fault_at(alloc, FaultKind::NumberRange, at)),
    }
}

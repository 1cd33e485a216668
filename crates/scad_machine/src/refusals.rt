//! Faults and budgets at a place.

ghost use Rattle.std.specs.Prelude.{◌≡◌, ◌≢◌, []};

use crate::fault::EvalFault;
use scad_fault::{Budget, BudgetKind, Fault, FaultKind, Place, Text};
use std::alloc::Global;

/// A fault without a name.
pub fn fault_at(alloc: Global, kind: FaultKind, at: Place) -> EvalFault
    ensures { result ≡ EvalFault.Fault (record { kind = kind; at = at; name = [] }) }
{
    EvalFault::Fault(Fault {
        kind,
        at,
        name: Text::empty(alloc),
    })
}

/// A fault with a name, or want of memory for it.
pub fn named_fault(alloc: Global, kind: FaultKind, at: Place, name: &[u8]) -> EvalFault
    ensures { result ≢ EvalFault.Memory
        → result ≡ EvalFault.Fault (record { kind = kind; at = at; name = name.now }) }
{
    match Text::of(alloc, name) {
        Ok(name) => EvalFault::Fault(Fault { kind, at, name }),
        Err(_) => EvalFault::Memory,
    }
}

/// A budget that is passed at a place.
pub fn over(kind: BudgetKind, at: Place) -> EvalFault
    ensures { result ≡ EvalFault.Over (record { kind = kind; at = at; layer = 0; count = 0 }) }
{
    EvalFault::Over(Budget::placed(kind, at))
}

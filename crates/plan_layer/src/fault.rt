//! Why a layer has no plan.
ghost use Rattle.std.specs.Prelude.{◌≡◌};
ghost use Rattle.plan_layer.specs.Refusal.{fault_of};
ghost use Rattle.plan_layer.specs.declared.fault.PlanFault.TheVariants.{Memory};

use slice_border::BoolFault;
use std::alloc::AllocError;

/// Why a layer has no plan.
#[derive(Debug, Drop)]
pub enum PlanFault {
    /// Memory ran out.
    Memory,
    /// A wall's shape has this many edges, more than 220,000.
    Edges(u64),
    /// This many pairs of edges of a wall's shape cross, more than 2,000,000.
    Crossings(u64),
    /// The plan has this many extruding moves, more than 200,000.
    Moves(u64),
}

impl From<BoolFault> for PlanFault {
    ghost from_gives = { λ fault given. given ≡ fault_of fault };

    fn from(fault: BoolFault) -> PlanFault {
        match fault {
            BoolFault::Memory => PlanFault::Memory,
            BoolFault::Edges(count) => PlanFault::Edges(count),
            BoolFault::Crossings(count) => PlanFault::Crossings(count),
        }
    }
}

impl From<AllocError> for PlanFault {
    ghost from_gives = { λ _ given. given ≡ Memory };

    fn from(_error: AllocError) -> PlanFault {
        PlanFault::Memory
    }
}

//! Budgets: what a run keeps within a limit, and which one was passed where.
ghost use Rattle.std.specs.Prelude.{◌≡◌, ◌++◌, IfOk, OnOk};
ghost use Rattle.scad_fault.specs.Kinds.{budget_number, budget_name};
ghost use Rattle.scad_fault.specs.Line.{budget_line, passed_text};
ghost use Rattle.scad_fault.specs.Place.{no_place};

use crate::line;
use crate::place::Place;
use crate::text::Text;
use std::alloc::{AllocError, Global};

/// What a run keeps within a limit.
#[derive(Clone, Copy)]
pub enum BudgetKind {
    /// The bytes of the source.
    SourceLong = 1,
    /// The steps of evaluation.
    Steps = 2,
    /// The depth of evaluation, or the nesting of a value or of a tree of solids.
    Depth = 3,
    /// The leaves of the tree of solids.
    Leaves = 4,
    /// The triangles of all leaves.
    Triangles = 5,
    /// The layers.
    Layers = 6,
    /// The edges that one boolean of a layer works on.
    LayerEdges = 7,
    /// The crossings of edges in one boolean of a layer.
    LayerCrossings = 8,
    /// The extruding moves of a layer.
    LayerMoves = 9,
    /// The distinct points of a hull.
    HullPoints = 10,
    /// The stretches of support lines below higher layers, over all layers.
    SupportRuns = 11,
    /// The bytes of a file that is to be judged.
    FileLong = 12,
}

impl BudgetKind {
    fn number(self) -> u8
        ensures { result ≡ budget_number self }
    {
        self as u8
    }

    fn name(self) -> &'static str
        ensures { result.now ≡ budget_name self }
    {
        match self {
            BudgetKind::SourceLong => "SourceLong",
            BudgetKind::Steps => "Steps",
            BudgetKind::Depth => "Depth",
            BudgetKind::Leaves => "Leaves",
            BudgetKind::Triangles => "Triangles",
            BudgetKind::Layers => "Layers",
            BudgetKind::LayerEdges => "LayerEdges",
            BudgetKind::LayerCrossings => "LayerCrossings",
            BudgetKind::LayerMoves => "LayerMoves",
            BudgetKind::HullPoints => "HullPoints",
            BudgetKind::SupportRuns => "SupportRuns",
            BudgetKind::FileLong => "FileLong",
        }
    }
}

/// A budget that was passed: the place in the source for `Steps` to `Triangles` and `HullPoints`, the count for
/// `Layers` to `LayerMoves` and `SupportRuns`, the layer for `LayerEdges` to `LayerMoves`. The fields that a kind
/// does not use are 0.
#[derive(Clone, Copy)]
pub struct Budget {
    pub kind: BudgetKind,
    pub at: Place,
    pub layer: u32,
    pub count: u64,
}

impl Budget {
    /// A source with more bytes than the limit.
    pub fn source_long() -> Budget
        ensures { result ≡
            record { kind = BudgetKind.SourceLong; at = no_place; layer = 0; count = 0 } }
    {
        Budget {
            kind: BudgetKind::SourceLong,
            at: Place::NONE,
            layer: 0,
            count: 0,
        }
    }

    /// A file with more bytes than the limit.
    pub fn file_long() -> Budget
        ensures { result ≡
            record { kind = BudgetKind.FileLong; at = no_place; layer = 0; count = 0 } }
    {
        Budget {
            kind: BudgetKind::FileLong,
            at: Place::NONE,
            layer: 0,
            count: 0,
        }
    }

    /// A budget of evaluation, passed at a place in the source.
    pub fn placed(kind: BudgetKind, at: Place) -> Budget
        ensures { result ≡ record { kind = kind; at = at; layer = 0; count = 0 } }
    {
        Budget {
            kind,
            at,
            layer: 0,
            count: 0,
        }
    }

    /// More layers than the limit.
    pub fn layers(count: u64) -> Budget
        ensures { result ≡
            record { kind = BudgetKind.Layers; at = no_place; layer = 0; count = count } }
    {
        Budget {
            kind: BudgetKind::Layers,
            at: Place::NONE,
            layer: 0,
            count,
        }
    }

    /// More stretches below higher layers than the limit.
    pub fn support_runs(count: u64) -> Budget
        ensures { result ≡
            record { kind = BudgetKind.SupportRuns; at = no_place; layer = 0; count = count } }
    {
        Budget {
            kind: BudgetKind::SupportRuns,
            at: Place::NONE,
            layer: 0,
            count,
        }
    }

    /// A budget of one layer.
    pub fn of_layer(kind: BudgetKind, layer: u32, count: u64) -> Budget
        ensures { result ≡ record { kind = kind; at = no_place; layer = layer; count = count } }
    {
        Budget {
            kind,
            at: Place::NONE,
            layer,
            count,
        }
    }

    /// The report's line on the budget.
    #[tactic(auto, unfolding(crate::specs::Line::budget_line))]
    pub(crate) fn line(&self, alloc: Global) -> Result<Text, AllocError>
        ensures { IfOk result (λ t. t ≡ budget_line self.now) }
    {
        let mut text = Vec::from_slice(alloc, b"budget")?;
        line::push_kind(&mut text, self.kind.number(), self.kind.name())?;
        self.push_passed(&mut text)?;
        text.push(b'\n')?;
        Ok(Text::from_vec(text))
    }

    fn push_passed(&self, text: &mut Vec<u8>) -> Result<(), AllocError>
        ensures { OnOk result (text.new.items ≡ text.old.items
            ++ passed_text self.now.kind self.now.at self.now.layer self.now.count) }
    {
        match self.kind {
            BudgetKind::SourceLong | BudgetKind::FileLong => Ok(()),
            BudgetKind::Steps
            | BudgetKind::Depth
            | BudgetKind::Leaves
            | BudgetKind::Triangles
            | BudgetKind::HullPoints => line::push_place(text, self.at),
            BudgetKind::Layers | BudgetKind::SupportRuns => line::push_count(text, self.count),
            BudgetKind::LayerEdges | BudgetKind::LayerCrossings | BudgetKind::LayerMoves => {
                line::push_layer(text, self.layer)?;
                line::push_count(text, self.count)
            }
        }
    }
}

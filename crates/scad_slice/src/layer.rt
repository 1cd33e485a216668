//! The work on one layer of a tree.
ghost use Rattle.std.specs.Prelude.{◌≡◌, All, IfOk};
ghost use Rattle.std.specs.Option.{option_copied};
ghost use Rattle.scad_fault.specs.Place.{no_place};
ghost use Rattle.scad_geom.specs.Limits.{point_limit};
ghost use Rattle.scad_geom.specs.Within.{IsWithin};
ghost use Rattle.scad_tree.specs.View.{solid_of};
ghost use Rattle.scad_tree.specs.Solids.{AreSolids};
ghost use Rattle.slice_layer.specs.Outlines.{AreLayerOutlines};
ghost use Rattle.slice_work.specs.declared.layer.LayerEnd.TheVariants.{Over};
ghost use Rattle.slice_work.specs.declared.want.Want.TheVariants.{Plan};
ghost use Rattle.slice_work.specs.Part.{EndsWithin};
ghost use Rattle.scad_slice.specs.Covers.{CoversFit};
ghost use Rattle.scad_slice.specs.LayerEnd.{DrawsLayer, LaysOut};
ghost use Rattle.scad_slice.specs.Parts.{IsPart};
ghost use Rattle.scad_slice.specs.Supports.{AreSupportsOf};

use crate::tree_work::TreeWork;
use plan_layer::{PlanFault, plan};
use plan_support::supports;
use scad_fault::{Budget, BudgetKind};
use scad_geom::{Loop, Path};
use scad_io::Gate;
use slice_border::BoolFault;
use slice_layer::layer_outlines;
use slice_work::{LayerEnd, LayerPlan, LayerWork, Want};
use std::alloc::{AllocError, Global};

/// The most edges of a layer's section.
const EDGE_LIMIT: u32 = 20_000;

impl<G: Gate> LayerWork for TreeWork<'_, '_, G> {
    ghost draws = { λ work part.
        CoversFit work.print.want work.print.settings (solid_of work.tree.now) (option_copied work.covers)
        × IsPart work.print.want work.print.settings (solid_of work.tree.now) part };

    fn draw(&self, alloc: Global, layer: u32) -> Result<LayerEnd, AllocError> {
        self.tree.are_solids();
        self.gate.before(layer);
        let end = draw_layer(self, alloc, layer);
        self.gate.after(layer);
        end
    }
}

/// The outlines of a layer and, where it is wanted, the plan over them, or the first budget that the layer passes.
fn draw_layer<G>(
    work: &TreeWork<'_, '_, G>,
    alloc: Global,
    layer: u32,
) -> Result<LayerEnd, AllocError>
    requires solids { AreSolids (solid_of work.now.tree.now) }

    ensures end { IfOk result (λ end.
        CoversFit work.now.print.want work.now.print.settings (solid_of work.now.tree.now)
        (option_copied work.now.covers)
        → DrawsLayer work.now.print.want work.now.print.settings (solid_of work.now.tree.now) layer end) }
    ensures within { IfOk result EndsWithin }
{
    let height = work.print.settings.layer_height;
    match layer_outlines(alloc, work.tree, layer, height, EDGE_LIMIT) {
        Ok(loops) => lay_out(work, alloc, loops, layer),
        Err(BoolFault::Edges(count)) => Ok(over(BudgetKind::LayerEdges, layer, count)),
        Err(BoolFault::Crossings(count)) => Ok(over(BudgetKind::LayerCrossings, layer, count)),
        Err(BoolFault::Memory) => Err(AllocError),
    }
}

// What is wanted over the outlines of a layer.
fn lay_out<G>(
    work: &TreeWork<'_, '_, G>,
    alloc: Global,
    loops: Vec<Loop>,
    layer: u32,
) -> Result<LayerEnd, AllocError>
    requires solids { AreSolids (solid_of work.now.tree.now) }
    requires outlines { AreLayerOutlines layer work.now.print.settings.layer_height (solid_of work.now.tree.now)
        loops.items }
    requires within { All (λ l. All (IsWithin point_limit) l) loops.items }

    ensures end { IfOk result (λ end.
        CoversFit work.now.print.want work.now.print.settings (solid_of work.now.tree.now)
        (option_copied work.now.covers)
        → LaysOut work.now.print.want work.now.print.settings (solid_of work.now.tree.now) layer loops.items end) }
    ensures within { IfOk result EndsWithin }
{
    match work.print.want {
        Want::Outlines => Ok(LayerEnd::Made(
            loops,
            LayerPlan {
                paths: Vec::new(alloc),
                runs: 0,
                supports: Vec::new(alloc),
            },
        )),
        Want::Plan => plan_out(work, alloc, loops, layer),
    }
}

// The plan over the outlines of a layer, with its supports.
fn plan_out<G>(
    work: &TreeWork<'_, '_, G>,
    alloc: Global,
    loops: Vec<Loop>,
    layer: u32,
) -> Result<LayerEnd, AllocError>
    requires solids { AreSolids (solid_of work.now.tree.now) }
    requires outlines { AreLayerOutlines layer work.now.print.settings.layer_height (solid_of work.now.tree.now)
        loops.items }
    requires within { All (λ l. All (IsWithin point_limit) l) loops.items }

    ensures end { IfOk result (λ end.
        CoversFit Plan work.now.print.settings (solid_of work.now.tree.now) (option_copied work.now.covers)
        → LaysOut Plan work.now.print.settings (solid_of work.now.tree.now) layer loops.items end) }
    ensures within { IfOk result EndsWithin }
{
    let supports = supports_of(work, alloc, &loops, layer)?;
    match plan(alloc, &loops, layer, &work.print.settings, supports) {
        Ok(plan) => Ok(LayerEnd::Made(loops, plan)),
        Err(PlanFault::Edges(count)) => Ok(over(BudgetKind::LayerEdges, layer, count)),
        Err(PlanFault::Crossings(count)) => Ok(over(BudgetKind::LayerCrossings, layer, count)),
        Err(PlanFault::Moves(count)) => Ok(over(BudgetKind::LayerMoves, layer, count)),
        Err(PlanFault::Memory) => Err(AllocError),
    }
}

// The support runs of a layer: none without covers, and none above the tree's layers.
fn supports_of<G>(
    work: &TreeWork<'_, '_, G>,
    alloc: Global,
    outlines: &[Loop],
    layer: u32,
) -> Result<Vec<Path>, AllocError>
    requires solids { AreSolids (solid_of work.now.tree.now) }
    requires outlines { AreLayerOutlines layer work.now.print.settings.layer_height (solid_of work.now.tree.now)
        outlines.now }
    requires within { All (λ l. All (IsWithin point_limit) l) outlines.now }

    ensures { IfOk result (λ v.
        CoversFit Plan work.now.print.settings (solid_of work.now.tree.now) (option_copied work.now.covers)
        → AreSupportsOf work.now.print.settings (solid_of work.now.tree.now) layer outlines.now v.items) }
{
    let Some(covers) = work.covers else {
        return Ok(Vec::new(alloc));
    };
    if layer >= work.count {
        return Ok(Vec::new(alloc));
    }
    let settings = &work.print.settings;
    let cover = covers.at(layer);
    supports(
        alloc,
        outlines,
        cover,
        settings.support_gap,
        settings.line_width,
    )
}

fn over(kind: BudgetKind, layer: u32, count: u64) -> LayerEnd
    ensures { result ≡ Over (record { kind = kind; at = no_place; layer = layer; count = count }) }
{
    LayerEnd::Over(Budget::of_layer(kind, layer, count))
}

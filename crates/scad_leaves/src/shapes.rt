//! What calls of shapes make.

ghost use Rattle.std.specs.Prelude.{◌≡◌, OnOk, IfOk, true};
ghost use Rattle.std.specs.List.{list_all};
ghost use Rattle.scad_ast.specs.View.{arguments};
ghost use Rattle.scad_value.specs.View.{data_of};
ghost use Rattle.scad_modules.specs.FlatShapes.{outlines_of};
ghost use Rattle.scad_modules.specs.Outline.{is_outline};
ghost use Rattle.scad_modules.specs.Primitive.{is_primitive};
ghost use Rattle.scad_modules.specs.Shapes.{primitive_of};
ghost use Rattle.scad_modules.specs.View.{primitive, outlines};
ghost use Rattle.scad_tree.specs.View.{solid_of};
ghost use Rattle.scad_machine.specs.Answers.{Does};
ghost use Rattle.scad_machine.specs.Machine.{held, env_in, along_in, state_of};
ghost use Rattle.scad_leaves.specs.Fineness.{fineness};
ghost use Rattle.scad_leaves.specs.Products.{argued};
ghost use Rattle.scad_leaves.specs.Shapes.{primitive_made, first_without_others, flat_made};

use crate::arguments::argued;
use crate::call::Call;
use crate::dimensions::{judge_flat, judge_solid};
use crate::fineness::fineness;
use crate::flat::flat_leaves;
use crate::leaves::leaf;
use crate::operation::Operation;
use crate::space::Where;
use crate::trees::tree_of_operation;
use scad_machine::{EvalFault, Machine};
use scad_modules::{Flat, Outline, Primitive, Shape, outlines_of, primitive_of};
use scad_tree::Tree;
use scad_value::Value;
use std::alloc::Global;

/// The primitive that the arguments of a call say.
#[tactic(auto, using(crate::proofs::Readings::readings))]
fn called_primitive<'p>(
    alloc: Global,
    shape: Shape,
    call: Call<'p>,
    found: &[Value],
    m: &Machine<'p>,
) -> Result<Primitive, EvalFault>
    ensures does { Does primitive (argued call.entry.at call.entry.name.now (primitive_of shape (fineness (env_in
        (held m.now)) (along_in (held m.now))) (arguments call.entry.args.now.items) (data_of found.now)) (state_of
        m.now)) result (state_of m.now) }
    ensures primitive { IfOk result (λ p. is_primitive (primitive p) ≡ true) }
{
    let fine = fineness(alloc, m)?;
    let read = primitive_of(alloc, shape, &fine, call.args, found);
    argued(alloc, call.at, call.name, read)
}

/// `cube`, `sphere`, `cylinder` and `polyhedron` by the values of their arguments: a leaf. MixedDimensions inside an
/// extrusion, then the fault of the arguments, then the budgets of leaves and triangles, then the refusal of the
/// placed solid.
#[tactic(auto, unfolding(crate::specs::Shapes::primitive_made))]
pub fn primitive<'p>(
    alloc: Global,
    shape: Shape,
    call: Call<'p>,
    found: &[Value],
    w: &Where,
    m: &mut Machine<'p>,
) -> Result<Tree, EvalFault>
    ensures does { Does solid_of (primitive_made shape call.entry.at call.entry.name.now w.now
        (env_in (held m.old)) (along_in (held m.old)) (arguments call.entry.args.now.items) (data_of
        found.now) (state_of m.old)) result (state_of m.new) }
    ensures kept { OnOk result (held m.new ≡ held m.old) }
{
    judge_solid(alloc, call.at, w.space)?;
    let primitive = called_primitive(alloc, shape, call, found, m)?;
    leaf(alloc, call.at, &primitive, &w.whole, m)
}

/// The outlines that the arguments of a call say.
#[tactic(auto, using(crate::proofs::Readings::readings))]
fn called_outlines<'p>(
    alloc: Global,
    flat: Flat,
    call: Call<'p>,
    found: &[Value],
    m: &Machine<'p>,
) -> Result<Vec<Outline>, EvalFault>
    ensures does { Does (λ v. outlines v.items) (argued call.entry.at call.entry.name.now (outlines_of flat (fineness
        (env_in (held m.now)) (along_in (held m.now))) (arguments call.entry.args.now.items) (data_of found.now))
        (state_of m.now)) result (state_of m.now) }
    ensures outlines { IfOk result (λ v. list_all is_outline (outlines v.items) ≡ true) }
{
    let fine = fineness(alloc, m)?;
    let read = outlines_of(alloc, flat, &fine, call.args, found);
    argued(alloc, call.at, call.name, read)
}

/// The leaves of outlines, and the first without the others.
#[tactic(auto, unfolding(crate::specs::Shapes::first_without_others))]
fn first_without_others<'p>(
    alloc: Global,
    call: Call<'p>,
    w: &Where,
    shapes: &[Outline],
    m: &mut Machine<'p>,
) -> Result<Tree, EvalFault>
    requires { list_all is_outline (outlines shapes.now) ≡ true }
    ensures does { Does solid_of (first_without_others call.entry.at call.entry.name.now w.now (outlines shapes.now)
        (state_of m.old)) result (state_of m.new) }
    ensures kept { OnOk result (held m.new ≡ held m.old) }
{
    let leaves = flat_leaves(alloc, call.at, call.name, w, shapes, m)?;
    tree_of_operation(alloc, Operation::Subtract, call.at, leaves)
}

/// `square`, `circle` and `polygon` by the values of their arguments: a leaf for each outline, the first without the
/// others. MixedDimensions outside of every extrusion, then the fault of the arguments, then the first refusal of a
/// leaf.
#[tactic(auto, unfolding(crate::specs::Shapes::flat_made))]
pub fn flat_shape<'p>(
    alloc: Global,
    flat: Flat,
    call: Call<'p>,
    found: &[Value],
    w: &Where,
    m: &mut Machine<'p>,
) -> Result<Tree, EvalFault>
    ensures does { Does solid_of (flat_made flat call.entry.at call.entry.name.now w.now (env_in
        (held m.old)) (along_in (held m.old)) (arguments call.entry.args.now.items) (data_of
        found.now) (state_of m.old)) result (state_of m.new) }
    ensures kept { OnOk result (held m.new ≡ held m.old) }
{
    judge_flat(alloc, call.at, w.space)?;
    let outlines = called_outlines(alloc, flat, call, found, m)?;
    first_without_others(alloc, call, w, &outlines, m)
}

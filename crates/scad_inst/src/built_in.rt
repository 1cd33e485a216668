//! The modules of the language.

ghost use Rattle.std.specs.Prelude.{◌≡◌, List};
ghost use Rattle.scad_ast.specs.Scope.{items};
ghost use Rattle.scad_ast.specs.Tree.{Arguments};
ghost use Rattle.scad_ast.specs.View.{arguments};
ghost use Rattle.scad_tree.specs.Solid.{Solid};
ghost use Rattle.scad_value.specs.Datum.{Datum};
ghost use Rattle.scad_value.specs.View.{data_of};
ghost use Rattle.scad_expr.specs.Machine.{held, env_in, along_in, state_of};
ghost use Rattle.scad_expr.specs.State.{Outcome};
ghost use Rattle.scad_members.specs.Frames.{below_of};
ghost use Rattle.scad_leaves.specs.declared.operation.Operation.TheVariants.{Unite};
ghost use Rattle.scad_members.specs.Meaning.{built_in, combined};
ghost use Rattle.scad_members.specs.Stack.{Goes, onward};
ghost use Rattle.scad_modules.specs.declared.module.Module.TheVariants.{Extrusion as IsExtrusion, Transform as IsTransform, Hull as IsHull, Echo as IsEcho, Assert as IsAssert};
ghost use Rattle.scad_modules.specs.declared.module.Extrusion.TheVariants.{Linear as IsLinear, Rotate as IsRotate};

use scad_expr::{EvalFault, Machine, asserted};
use scad_leaves::{
    Call, Operation, Space, Where, argued, called_resolution, flat_shape, inside_linear,
    judge_solid, moved_by, primitive, profile_count, turned_at,
};
use scad_members::{Focus, Frame, Stack, at_work, children, combined};
use scad_modules::{Extrusion, Module, Transform, linear_by, matrix_of, taken};
use scad_value::Value;

/// A module of the language, inside its frames.
#[tactic(auto, using(crate::proofs::Onward::nodes), unfolding(scad_members::specs::Meaning::built_in, scad_members::specs::Stack::goes_on))]
pub(crate) fn built_in<'p>(
    known: Module,
    call: Call<'p>,
    found: &[Value],
    stack: &mut Stack<'p>,
    m: &mut Machine<'p>,
) -> Result<Focus<'p>, EvalFault>
    ensures { (o : Outcome Solid) → o ≡ onward (built_in (below_of (held m.old)) known call.entry.at
        call.entry.name.now stack.old.stands (env_in (held m.old)) (along_in (held m.old)) (arguments
        call.entry.args.now.items) (data_of found.now) (items call.entry.all.now.items) (state_of
        m.old)) stack.old m.old → Goes o result stack.new m.new }
{
    let alloc = stack.alloc;
    match known {
        Module::Shape(shape) => at_work(primitive(alloc, shape, call, found, &stack.stands, m)),
        Module::Flat(flat) => at_work(flat_shape(alloc, flat, call, found, &stack.stands, m)),
        Module::Extrusion(Extrusion::Linear) => linear_extrude(call, found, stack, m),
        Module::Extrusion(Extrusion::Rotate) => rotate_extrude(call, found, stack, m),
        Module::Transform(transform) => transformed(transform, call, found, stack, m),
        Module::Union => combined(Operation::Unite, call.at, call.all, stack, m),
        Module::Difference => combined(Operation::Subtract, call.at, call.all, stack, m),
        Module::Intersection => combined(Operation::Intersect, call.at, call.all, stack, m),
        Module::Hull => hull(call, stack, m),
        Module::Children => children(call.at, taken(Some(0), b"i", call.args, found), stack, m),
        Module::Echo => echo(call, found, stack, m),
        Module::Assert => assert(call, found, stack, m),
    }
}

/// The children of a call, united, where they stand at another place.
#[tactic(auto, using(crate::proofs::Onward::nodes))]
fn placed<'p>(
    inner: Where,
    call: Call<'p>,
    stack: &mut Stack<'p>,
    m: &mut Machine<'p>,
) -> Result<Focus<'p>, EvalFault>
    ensures { (o : Outcome Solid) → o ≡ onward (combined (below_of (held m.old)) Unite call.entry.at inner
        (items call.entry.all.now.items) (env_in (held m.old)) (along_in (held m.old)) (state_of m.old)) stack.old m.old
        → Goes o result stack.new m.new }
{
    stack.enter(inner)?;
    combined(Operation::Unite, call.at, call.all, stack, m)
}

/// `linear_extrude`.
#[tactic(auto, using(crate::proofs::Onward::nodes), unfolding(scad_members::specs::Meaning::built_in))]
fn linear_extrude<'p>(
    call: Call<'p>,
    found: &[Value],
    stack: &mut Stack<'p>,
    m: &mut Machine<'p>,
) -> Result<Focus<'p>, EvalFault>
    ensures { (o : Outcome Solid) → o ≡ onward (built_in (below_of (held m.old)) (IsExtrusion
        IsLinear) call.entry.at call.entry.name.now stack.old.stands (env_in (held m.old)) (along_in (held
        m.old)) (arguments call.entry.args.now.items) (data_of found.now) (items
        call.entry.all.now.items) (state_of m.old)) stack.old m.old → Goes o result stack.new m.new }
{
    judge_solid(stack.alloc, call.at, stack.stands.space)?;
    let height = argued(stack.alloc, call.at, call.name, linear_by(call.args, found))?;
    let inner = inside_linear(&stack.stands.whole, height);
    placed(inner, call, stack, m)
}

/// `rotate_extrude`.
#[tactic(auto, using(crate::proofs::Onward::nodes), unfolding(scad_members::specs::Meaning::built_in))]
fn rotate_extrude<'p>(
    call: Call<'p>,
    found: &[Value],
    stack: &mut Stack<'p>,
    m: &mut Machine<'p>,
) -> Result<Focus<'p>, EvalFault>
    ensures { (o : Outcome Solid) → o ≡ onward (built_in (below_of (held m.old)) (IsExtrusion
        IsRotate) call.entry.at call.entry.name.now stack.old.stands (env_in (held m.old)) (along_in (held
        m.old)) (arguments call.entry.args.now.items) (data_of found.now) (items
        call.entry.all.now.items) (state_of m.old)) stack.old m.old → Goes o result stack.new m.new }
{
    let alloc = stack.alloc;
    judge_solid(alloc, call.at, stack.stands.space)?;
    let resolution = called_resolution(alloc, call, found, m)?;
    let inner = Where {
        whole: stack.stands.whole,
        space: Space::Turned(turned_at(call.at, resolution)),
    };
    placed(inner, call, stack, m)
}

/// `translate`, `scale`, `rotate`, `mirror` and `multmatrix`.
#[tactic(auto, using(crate::proofs::Onward::nodes), unfolding(scad_members::specs::Meaning::built_in))]
fn transformed<'p>(
    transform: Transform,
    call: Call<'p>,
    found: &[Value],
    stack: &mut Stack<'p>,
    m: &mut Machine<'p>,
) -> Result<Focus<'p>, EvalFault>
    ensures { (o : Outcome Solid) → o ≡ onward (built_in (below_of (held m.old)) (IsTransform
        transform) call.entry.at call.entry.name.now stack.old.stands (env_in (held m.old)) (along_in (held
        m.old)) (arguments call.entry.args.now.items) (data_of found.now) (items
        call.entry.all.now.items) (state_of m.old)) stack.old m.old → Goes o result stack.new m.new }
{
    let read = matrix_of(transform, call.args, found);
    let by = argued(stack.alloc, call.at, call.name, read)?;
    let inner = moved_by(stack.alloc, call.at, &stack.stands, &by)?;
    placed(inner, call, stack, m)
}

/// `hull`: its children are united, and then it is made of their tree.
#[tactic(auto, using(crate::proofs::Onward::nodes), unfolding(scad_members::specs::Meaning::built_in))]
fn hull<'p>(
    call: Call<'p>,
    stack: &mut Stack<'p>,
    m: &mut Machine<'p>,
) -> Result<Focus<'p>, EvalFault>
    ensures { (args : Arguments) (found : List Datum) (o : Outcome Solid) → o ≡ onward (built_in (below_of
        (held m.old)) IsHull call.entry.at call.entry.name.now stack.old.stands (env_in (held m.old)) (along_in
        (held m.old)) args found (items call.entry.all.now.items) (state_of m.old)) stack.old m.old → Goes o result
        stack.new m.new }
{
    let from = profile_count(m);
    stack.push(Frame::Hull(call, from))?;
    combined(Operation::Unite, call.at, call.all, stack, m)
}

/// `echo`.
#[tactic(auto, using(crate::proofs::Onward::nodes), unfolding(scad_members::specs::Meaning::built_in))]
fn echo<'p>(
    call: Call<'p>,
    found: &[Value],
    stack: &mut Stack<'p>,
    m: &mut Machine<'p>,
) -> Result<Focus<'p>, EvalFault>
    ensures { (o : Outcome Solid) → o ≡ onward (built_in (below_of (held m.old)) IsEcho
        call.entry.at call.entry.name.now stack.old.stands (env_in (held m.old)) (along_in (held m.old))
        (arguments call.entry.args.now.items) (data_of found.now) (items call.entry.all.now.items)
        (state_of m.old)) stack.old m.old → Goes o result stack.new m.new }
{
    m.echo(stack.alloc, call.at, call.args, found)?;
    combined(Operation::Unite, call.at, call.all, stack, m)
}

/// `assert`.
#[tactic(auto, using(crate::proofs::Onward::nodes), unfolding(scad_members::specs::Meaning::built_in))]
fn assert<'p>(
    call: Call<'p>,
    found: &[Value],
    stack: &mut Stack<'p>,
    m: &mut Machine<'p>,
) -> Result<Focus<'p>, EvalFault>
    ensures { (o : Outcome Solid) → o ≡ onward (built_in (below_of (held m.old)) IsAssert
        call.entry.at call.entry.name.now stack.old.stands (env_in (held m.old)) (along_in (held m.old))
        (arguments call.entry.args.now.items) (data_of found.now) (items call.entry.all.now.items)
        (state_of m.old)) stack.old m.old → Goes o result stack.new m.new }
{
    asserted(stack.alloc, call.at, call.args, found)?;
    combined(Operation::Unite, call.at, call.all, stack, m)
}

//! Calls of modules.

ghost use Rattle.std.specs.Prelude.{◌≡◌, ◌≢◌, ◌<◌, Bool, length, None};
ghost use Rattle.scad_ast.specs.Scope.{items};
ghost use Rattle.scad_ast.specs.Tree.{call_of};
ghost use Rattle.scad_ast.specs.View.{arguments};
ghost use Rattle.scad_tree.specs.Solid.{Solid};
ghost use Rattle.scad_scope.specs.FrameStore.{envs};
ghost use Rattle.scad_modules.specs.declared.module.Name.TheVariants.{For, Let};
ghost use Rattle.scad_expr.specs.Machine.{held, env_in, along_in, state_of};
ghost use Rattle.scad_expr.specs.State.{Outcome};
ghost use Rattle.scad_members.specs.Frames.{below_of};
ghost use Rattle.scad_members.specs.Meaning.{node, called};
ghost use Rattle.scad_members.specs.Modules.{module_named};
ghost use Rattle.scad_members.specs.Stack.{Goes, onward};
ghost use Rattle.scad_inst.specs.Calls.{called_with, known_with, refused_with};
ghost use Rattle.scad_inst.specs.View.{found_at};

use crate::built_in::built_in;
use crate::call_frames::{open_known, open_own};
use crate::lookup::module_named;
use crate::modules::DefinedAt;
use scad_expr::{EvalFault, Machine, values};
use scad_fault::FaultKind;
use scad_leaves::{Call, Operation};
use scad_machine::named_fault;
use scad_members::{Focus, Frame, Stack, combined, let_in, looped};
use scad_modules::{Module, Name, meaning_of};

/// A call, by what its name means.
#[tactic(auto, using(crate::proofs::Calls::meanings, crate::proofs::Onward::nodes), unfolding(scad_members::specs::Meaning::node))]
pub(crate) fn call<'p>(
    call: Call<'p>,
    stack: &mut Stack<'p>,
    m: &mut Machine<'p>,
) -> Result<Focus<'p>, EvalFault>
    ensures { (percent hash : Bool) (o : Outcome Solid) → o ≡ onward (node (below_of (held m.old))
        stack.old.stands (env_in (held m.old)) (along_in (held m.old)) (call_of call.entry.at percent hash
        call.entry.name.now (arguments call.entry.args.now.items) (items call.entry.all.now.items))
        (state_of m.old)) stack.old m.old → Goes o result stack.new m.new }
{
    match meaning_of(call.name) {
        Name::For => looped(Operation::Unite, call, stack, m),
        Name::Let => let_in(call, stack, m),
        meaning => called(meaning, call, stack, m),
    }
}

/// The program's modules go before those of the language.
#[tactic(auto, using(crate::proofs::Calls::own))]
fn called<'p>(
    meaning: Name,
    call: Call<'p>,
    stack: &mut Stack<'p>,
    m: &mut Machine<'p>,
) -> Result<Focus<'p>, EvalFault>
    requires for_ { meaning ≢ For }
    requires let_ { meaning ≢ Let }
    ensures { (o : Outcome Solid) → o ≡ onward (called (below_of (held m.old)) meaning (module_named
        call.entry.name.now (env_in (held m.old))) call.entry.at call.entry.name.now stack.old.stands (env_in
        (held m.old)) (along_in (held m.old)) (arguments call.entry.args.now.items) (items
        call.entry.all.now.items) (state_of m.old)) stack.old m.old → Goes o result stack.new m.new }
{
    match module_named(m, call.name)? {
        Some(own) => called_own(own, call, stack, m),
        None => called_by(meaning, call, stack, m),
    }
}

/// A call of a module of the program.
#[tactic(auto, using(crate::proofs::Calls::own_frames, crate::proofs::Onward::nodes), unfolding(crate::specs::Calls::called_with))]
fn called_own<'p>(
    own: DefinedAt<'p>,
    call: Call<'p>,
    stack: &mut Stack<'p>,
    m: &mut Machine<'p>,
) -> Result<Focus<'p>, EvalFault>
    requires { own.home < length (held m.old).frames }
    ensures { (o : Outcome Solid) → o ≡ onward (called_with (below_of (held m.old)) call.entry.at
        stack.old.stands (env_in (held m.old)) (along_in (held m.old)) (found_at (envs (held m.old).frames)
        own.entry) (arguments call.entry.args.now.items) (items call.entry.all.now.items) (state_of
        m.old)) stack.old m.old → Goes o result stack.new m.new }
{
    let found = values(stack.alloc, call.args, m)?;
    let back = open_own(stack.alloc, own, call.args, found, call.all, m)?;
    stack.push(Frame::Leave(back))?;
    combined(Operation::Unite, call.at, own.module.body, stack, m)
}

/// A call of a name that the program doesn't define.
#[tactic(auto, unfolding(scad_members::specs::Meaning::called, crate::specs::Calls::known_with, crate::specs::Calls::refused_with))]
fn called_by<'p>(
    meaning: Name,
    call: Call<'p>,
    stack: &mut Stack<'p>,
    m: &mut Machine<'p>,
) -> Result<Focus<'p>, EvalFault>
    ensures { (o : Outcome Solid) → o ≡ onward (called (below_of (held m.old)) meaning None
        call.entry.at call.entry.name.now stack.old.stands (env_in (held m.old)) (along_in (held m.old))
        (arguments call.entry.args.now.items) (items call.entry.all.now.items) (state_of m.old))
        stack.old m.old → Goes o result stack.new m.new }
{
    match meaning {
        Name::For => looped(Operation::Unite, call, stack, m),
        Name::Let => let_in(call, stack, m),
        Name::IntersectionFor => looped(Operation::Intersect, call, stack, m),
        Name::Known(module) => called_known(module, call, stack, m),
        Name::LeftOut => refused(FaultKind::LeftOut, call, stack, m),
        Name::Unknown => refused(FaultKind::UnknownModule, call, stack, m),
    }
}

/// A name that is refused after the arguments were evaluated.
#[tactic(auto, using(scad_members::proofs::Levels::expressions), unfolding(crate::specs::Calls::refused_with, scad_machine::specs::State::fault_of))]
fn refused<'p>(
    kind: FaultKind,
    call: Call<'p>,
    stack: &mut Stack<'p>,
    m: &mut Machine<'p>,
) -> Result<Focus<'p>, EvalFault>
    ensures { (o : Outcome Solid) → o ≡ onward (refused_with (below_of (held m.old)) kind
        call.entry.at call.entry.name.now (env_in (held m.old)) (along_in (held m.old)) (arguments
        call.entry.args.now.items) (state_of m.old)) stack.old m.old → Goes o result stack.new m.new }
{
    let _found = values(stack.alloc, call.args, m)?;
    Err(named_fault(stack.alloc, kind, call.at, call.name))
}

/// A call of a module of the language: its `$` arguments are set in frames of its own.
#[tactic(auto, using(scad_members::proofs::Levels::expressions, crate::proofs::Onward::nodes), unfolding(crate::specs::Calls::known_with, scad_members::specs::Meaning::called_known, scad_members::specs::Stack::onto))]
fn called_known<'p>(
    known: Module,
    call: Call<'p>,
    stack: &mut Stack<'p>,
    m: &mut Machine<'p>,
) -> Result<Focus<'p>, EvalFault>
    ensures { (o : Outcome Solid) → o ≡ onward (known_with (below_of (held m.old)) known
        call.entry.at call.entry.name.now stack.old.stands (env_in (held m.old)) (along_in (held m.old))
        (arguments call.entry.args.now.items) (items call.entry.all.now.items) (state_of m.old))
        stack.old m.old → Goes o result stack.new m.new }
{
    let found = values(stack.alloc, call.args, m)?;
    let back = open_known(stack.alloc, call.args, &found, m)?;
    stack.push(Frame::Leave(back))?;
    built_in(known, call, &found, stack, m)
}

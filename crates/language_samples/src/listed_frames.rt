//! `f=2; function f(x)=x+1; module f(){cube(f(f));} f();`, read from its bytes and evaluated as far as the argument of `cube`,
//! over frames that are pushed with the names that they can hold.

use crate::cases::expect;
use crate::frames::{are_both, number};
use crate::machine::over_frames;
use scad_ast::{Expr, Item, Params, Scope, StmtBody};
use scad_bindings::bindings;
use scad_expr::{EvalFault, Machine, STEP_LIMIT, eval};
use scad_lex::lex;
use scad_parse::parse;
use scad_scope::{Frames, Names, resolve};
use scad_value::equal;
use std::alloc::{AllocError, Global};

/// What is evaluated of the program: the value of its variable, and of its module, which has one statement, the parameters,
/// the body, and the argument there.
#[derive(Clone, Copy)]
struct Parts<'p> {
    value: &'p Expr,
    parameters: &'p Params,
    body: &'p Scope,
    argument: &'p Expr,
}

fn parts_of<'p>(scope: &'p Scope) -> Option<Parts<'p>> {
    let [variable, _, module, ..] = scope.as_slice() else {
        return None;
    };
    let Item::Assign(_, value, _) = variable else {
        return None;
    };
    let Item::Module(_, parameters, body, _) = module else {
        return None;
    };
    let [only] = body.as_slice() else {
        return None;
    };
    let Item::Run(statement) = only else {
        return None;
    };
    let StmtBody::Call(_, args, _) = &statement.body else {
        return None;
    };
    let [arg] = args.as_slice() else {
        return None;
    };
    Some(Parts {
        value,
        parameters,
        body,
        argument: &arg.value,
    })
}

/// The names that a scope assigns.
fn assigned(alloc: Global, scope: &Scope) -> Result<Names, AllocError> {
    let mut names = Names::new(alloc);
    let all = bindings(alloc, scope)?;
    'names: for binding in all.as_slice() {
        names.add(binding.name.as_slice())?;
    }
    Ok(names)
}

/// The names of parameters.
fn named(alloc: Global, parameters: &Params) -> Result<Names, AllocError> {
    let mut names = Names::new(alloc);
    'parameters: for parameter in parameters {
        names.add(parameter.name.as_slice())?;
    }
    Ok(names)
}

/// The names from the module's body outwards: those of its scope, of its parameters, and of the program's scope.
fn listed(alloc: Global, scope: &Scope, parts: Parts) -> Result<[Names; 3], AllocError> {
    Ok([
        assigned(alloc, parts.body)?,
        named(alloc, parts.parameters)?,
        assigned(alloc, scope)?,
    ])
}

/// A machine where the body of the module is at work.
fn in_module<'p>(
    alloc: Global,
    scope: &'p Scope,
    parts: Parts<'p>,
    names: &'p [Names; 3],
) -> Result<Machine<'p>, EvalFault> {
    let mut frames = Frames::new(alloc);
    let program = frames.push_names(None, Some(scope), None, &names[2])?;
    let mut m = over_frames(alloc, frames, program, STEP_LIMIT)?;
    let value = eval(alloc, parts.value, &mut m)?;
    m.frames.set(b"f", value)?;
    let call = m.frames.push_names(Some(program), None, None, &names[1])?;
    m.here = m
        .frames
        .push_names(Some(call), Some(parts.body), None, &names[0])?;
    Ok(m)
}

/// How many items the scope of a frame has, where it has one.
fn items_in(frames: &Frames, at: u32) -> Option<usize> {
    match frames.scope(at) {
        Some(scope) => Some(scope.len()),
        None => None,
    }
}

/// Whether the frames of the program and of the module's body have their scopes, and that of its parameters has none.
fn have_scopes(frames: &Frames) -> bool {
    items_in(frames, 0) == Some(4)
        && items_in(frames, 1).is_none()
        && items_in(frames, 2) == Some(1)
}

/// Whether the variable is 2 there, by its slots and by its name, and the argument 3, over frames with these scopes.
fn is_found(alloc: Global, scope: &Scope, parts: Parts) -> Result<bool, EvalFault> {
    let names = listed(alloc, scope, parts)?;
    let mut m = in_module(alloc, scope, parts, &names)?;
    let slots = resolve(alloc, &names, b"f")?;
    let found = are_both(
        m.frames.at(m.here, &slots),
        m.frames.get(m.here, b"f"),
        Some(2_000_000),
    );
    let argument = eval(alloc, parts.argument, &mut m)?;
    Ok(found && equal(&argument, &number(3_000_000)) && have_scopes(&m.frames))
}

/// Whether it is so for a source of this form.
fn is_found_in(alloc: Global, source: &[u8; 52]) -> bool {
    let Ok(tokens) = lex(alloc, source) else {
        return false;
    };
    let Ok(program) = parse(alloc, &tokens) else {
        return false;
    };
    match parts_of(&program.scope) {
        Some(parts) => is_found(alloc, &program.scope, parts).unwrap_or(false),
        None => false,
    }
}

#[test]
fn one_name_is_a_variable_a_function_and_a_module_over_listed_frames(rt: HostRuntime) {
    expect(
        &rt,
        is_found_in(
            rt.alloc(),
            b"f=2; function f(x)=x+1; module f(){cube(f(f));} f();",
        ),
        "f is 2 by its slots, f(f) is 3, scopes of 4 items and 1",
    );
}

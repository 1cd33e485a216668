//! The frames of `f=2; function f(x)=x+1; module f(){cube(f(f));} f();` while the function is called, by names
//! and by slots.

use crate::cases::expect;
use scad_num::Num;
use scad_scope::{Frames, Names, resolve};
use scad_value::{Value, equal};
use std::alloc::{AllocError, Global};

/// The number of so many millionths.
pub(crate) fn number(millionths: i64) -> Value {
    match Num::of(millionths) {
        Ok(n) => Value::Number(n),
        Err(_) => Value::Undef,
    }
}

/// These names, each once.
fn names_of(alloc: Global, words: &[&[u8]]) -> Result<Names, AllocError> {
    let mut names = Names::new(alloc);
    'words: for word in words {
        names.add(word)?;
    }
    Ok(names)
}

/// The names of a call of the function, those of the program, where a further one is never set, and those of the
/// module.
fn listed(alloc: Global) -> Result<[Names; 3], AllocError> {
    let call: &[&[u8]] = &[b"x", b"x"];
    let program: &[&[u8]] = &[b"f", b"g"];
    Ok([
        names_of(alloc, call)?,
        names_of(alloc, program)?,
        names_of(alloc, &[])?,
    ])
}

/// The frame of the program, where f is 2, that of the module, and that of the call, where x is 2. Both stand in the
/// program's, where the module and the function are defined.
fn called<'p>(alloc: Global, names: &'p [Names; 3]) -> Result<Frames<'p>, AllocError> {
    let mut frames = Frames::new(alloc);
    let program = frames.push_names(None, None, None, &names[1])?;
    frames.set(b"f", number(2_000_000))?;
    frames.push_names(Some(program), None, None, &names[2])?;
    frames.push_names(Some(program), None, None, &names[0])?;
    frames.set(b"x", number(2_000_000))?;
    Ok(frames)
}

/// Whether both are this number, or both are nothing where none is given.
pub(crate) fn are_both(
    by_slots: Option<&Value>,
    by_name: Option<&Value>,
    wanted: Option<i64>,
) -> bool {
    match (by_slots, by_name, wanted) {
        (Some(a), Some(b), Some(z)) => equal(a, &number(z)) && equal(b, &number(z)),
        (None, None, None) => true,
        _ => false,
    }
}

/// Whether the name has this number from the call outwards, by its slots and by itself.
fn has(
    alloc: Global,
    frames: &Frames,
    names: &[Names; 3],
    name: &[u8],
    wanted: Option<i64>,
) -> bool {
    match resolve(alloc, &names[..2], name) {
        Ok(slots) => are_both(frames.at(2, &slots), frames.get(2, name), wanted),
        Err(_) => false,
    }
}

/// Whether the name has one slot from the call, so many frames outwards, at this place.
fn has_slot(alloc: Global, names: &[Names; 3], name: &[u8], up: usize, place: usize) -> bool {
    match resolve(alloc, &names[..2], name) {
        Ok(slots) => {
            let list = slots.as_slice();
            list.len() == 1 && list[0].up == up && list[0].place == place
        }
        Err(_) => false,
    }
}

/// Whether the frame tells names with this one at a place.
fn lists(frames: &Frames, at: u32, name: &[u8], place: usize) -> bool {
    match frames.names(at) {
        Some(names) => names.place(name) == Some(place),
        None => false,
    }
}

#[test]
fn a_variable_is_found_by_its_slot_in_a_call_from_a_module(rt: HostRuntime) {
    let alloc = rt.alloc();
    let names = listed(alloc).expect(&rt, "names");
    let mut frames = called(alloc, &names).expect(&rt, "frames");
    expect(
        &rt,
        has_slot(alloc, &names, b"f", 1, 0) && has_slot(alloc, &names, b"x", 0, 0),
        "the slots of f and x",
    );
    expect(
        &rt,
        has(alloc, &frames, &names, b"f", Some(2_000_000)),
        "f is 2",
    );
    expect(
        &rt,
        has(alloc, &frames, &names, b"x", Some(2_000_000)),
        "x is 2",
    );
    expect(&rt, has(alloc, &frames, &names, b"g", None), "g isn't set");
    expect(
        &rt,
        has(alloc, &frames, &names, b"h", None),
        "h isn't listed",
    );
    expect(
        &rt,
        lists(&frames, 0, b"g", 1) && lists(&frames, 2, b"x", 0),
        "the places of g and x",
    );
    frames.set(b"h", number(5_000_000)).expect(&rt, "a value");
    expect(
        &rt,
        frames.names(2).is_none() && frames.get(2, b"h").is_some() && lists(&frames, 0, b"f", 0),
        "h is set in the call, whose names are told no more",
    );
}

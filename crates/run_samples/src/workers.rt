//! Layers are really worked by as many workers as the words say: a gate holds layers until others come.
use crate::cases::holds;
use crate::desks::{ROOM, Setup, answered};
use crate::gate::Meeting;
use std::alloc::Global;
use std::process::Abort;
use std::thread::Threads;

/// The words of a run, its source, the layers that are held, from one up to another, and until how many are there. One layer
/// of five waits until the four others are done; of 70 layers, the last six of which are a round of their own, as many wait
/// for one another as there are workers.
const MEETINGS: [(&str, &[u8], u32, u32, u64); 10] = [
    ("slice m.scad o.cli --workers 2", FIVE, 0, 1, 5),
    ("slice m.scad o.cli --workers 2", FIVE, 1, 2, 5),
    ("slice m.scad o.cli --workers 2", FIVE, 2, 3, 5),
    ("slice m.scad o.cli --workers 2", FIVE, 3, 4, 5),
    ("slice m.scad o.cli --workers 2", FIVE, 4, 5, 5),
    ("plan m.scad o.cli o.gcode --workers 1", SEVENTY, 0, 70, 1),
    ("plan m.scad o.cli o.gcode --workers 2", SEVENTY, 0, 70, 2),
    ("plan m.scad o.cli o.gcode --workers 5", SEVENTY, 0, 70, 5),
    ("plan m.scad o.cli o.gcode --workers 2", SEVENTY, 64, 70, 66),
    ("plan m.scad o.cli o.gcode --workers 5", SEVENTY, 64, 70, 69),
];

const FIVE: &[u8] = b"cube(1);";

const SEVENTY: &[u8] = b"cube([1,1,14]);";

fn is_met<R: Threads + Sync + Abort>(
    rt: &R,
    alloc: Global,
    words: &str,
    source: &[u8],
    gate: &Meeting,
) -> bool {
    let setup = Setup {
        files: &[("m.scad", source)],
        fails: &[],
        room: ROOM,
    };
    answered(rt, alloc, words, &setup, gate).code == 0 && gate.is_met()
}

#[test]
fn workers_are_at_work_at_once(rt: HostRuntime) {
    for &(words, source, from, to, wanted) in &MEETINGS {
        let gate = Meeting::of(from, to, wanted);
        holds(&rt, is_met(&rt, rt.alloc(), words, source, &gate), words);
    }
}

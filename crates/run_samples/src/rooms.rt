//! Outputs that have room for a part of what is written.
use crate::cases::holds_at;
use crate::desks::{Answer, ROOM, Setup, answered};
use crate::gate::Meeting;
use std::alloc::Global;
use std::process::Abort;
use std::thread::Threads;

const COMMANDS: [&str; 4] = [
    "check m.scad",
    "tree m.scad",
    "slice m.scad o.cli",
    "plan m.scad o.cli o.gcode --workers 3",
];

const SOURCE: &[u8] = b"echo(1); cube([3,3,0.4]);";

/// The report where a file is cut, with its line of `echo` first.
const FAILED: &[u8] = b"ECHO: 1\nwrite fault\n";

const LINE: usize = 8;

fn answer_in<R: Threads + Sync + Abort>(rt: &R, alloc: Global, words: &str, room: usize) -> Answer {
    let setup = Setup {
        files: &[("m.scad", SOURCE)],
        fails: &[],
        room,
    };
    answered(rt, alloc, words, &setup, &Meeting::open())
}

/// Where a part of the line of `echo` has room no file is made. Behind it a file is cut, or else the last line.
fn is_cut(whole: &Answer, answer: &Answer, room: usize) -> bool {
    let longest = whole.cli.len().max(whole.gcode.len());
    let is_file_cut = LINE <= room && room < longest;
    let report = if room < longest {
        FAILED
    } else {
        whole.report.as_slice()
    };
    answer.code == 5
        && answer.report.len() == room.min(report.len())
        && report.starts_with(&answer.report)
        && answer.faults == u64::from(room < report.len()) + u64::from(is_file_cut)
        && are_cut(whole, answer, room, is_file_cut)
}

/// One of the files ends where its room does, or there is none.
fn are_cut(whole: &Answer, answer: &Answer, room: usize, is_file_cut: bool) -> bool {
    let is_full = answer.cli.len() == room || answer.gcode.len() == room;
    let are_none = answer.cli.is_empty() && answer.gcode.is_empty();
    whole.cli.starts_with(&answer.cli)
        && whole.gcode.starts_with(&answer.gcode)
        && if is_file_cut { is_full } else { are_none }
}

#[test]
fn room_for_each_part_of_the_outputs(rt: HostRuntime) {
    let alloc = rt.alloc();
    for &words in &COMMANDS {
        let whole = answer_in(&rt, alloc, words, ROOM);
        let most = whole
            .report
            .len()
            .max(whole.cli.len())
            .max(whole.gcode.len());
        for room in 0..most {
            let answer = answer_in(&rt, alloc, words, room);
            holds_at(&rt, is_cut(&whole, &answer, room), words, room as u64);
        }
        let all = answer_in(&rt, alloc, words, most);
        let is_whole = all.code == 0 && all.report == whole.report;
        holds_at(&rt, is_whole, words, most as u64);
    }
}

//! Runs in which calls of the desk fail. What is written of the files is a front of what is written where nothing fails, and
//! the report has its last line wherever it can.
use crate::cases::{holds, holds_at};
use crate::desks::{Answer, ROOM, Setup, answered};
use crate::gate::Meeting;
use std::alloc::{AllocError, Global};
use std::process::Abort;
use std::thread::Threads;

/// The words of a run, its status where no call fails, the number of the call that writes its line of `echo`, which is also
/// how many calls before it read, the first call that is to fail, and the one that writes the last line.
type Run = (&'static str, u8, u64, u64, u64);

/// `verify` and `sample` have no line of `echo`. A file that fails comes before the budget of a later layer, by however many
/// workers this was met.
const RUNS: [Run; 15] = [
    ("check m.scad", 0, 3, 0, 4),
    ("check m.scad --settings s.toml", 0, 6, 0, 7),
    ("tree m.scad", 0, 3, 0, 4),
    ("slice m.scad o.cli", 0, 3, 0, 10),
    (
        "slice --settings=s.toml m.scad o.cli --workers=2",
        0,
        6,
        0,
        11,
    ),
    ("plan m.scad o.cli o.gcode --workers 1", 0, 3, 0, 16),
    ("plan m.scad o.cli o.gcode --workers 2", 0, 3, 0, 16),
    ("plan m.scad o.cli o.gcode --workers 64", 0, 3, 0, 16),
    (
        "plan m.scad o.cli o.gcode --workers 3 --settings s.toml",
        0,
        6,
        0,
        15,
    ),
    ("sample 1 --settings s.toml", 0, 3, 0, 3),
    ("verify v.cli v.gcode", 0, 6, 0, 6),
    ("verify v.cli v.gcode --settings s.toml", 0, 9, 0, 9),
    ("slice m.scad o.cli --workers 2", 6, 3, 8, 10),
    ("plan m.scad o.cli o.gcode --workers 1", 6, 3, 14, 16),
    ("plan m.scad o.cli o.gcode --workers 64", 6, 3, 14, 16),
];

/// Three layers, or one by the settings.
const SHORT: &[u8] = b"echo(1); cube([3,3,0.6]);";

/// The section of the layer at 0.8 to 1 mm has too many edges.
const WIDE: &[u8] = b"echo(1); cube([1,1,3]); translate([0,0,0.8]) cylinder(h=0.2,r=50,$fn=10001);";

const SETTINGS: &[u8] = b"layer_height = 1000\nwalls = 1\ninfill_spacing = 0\n";

const NO_LAYERS: &[u8] =
    b"$$HEADERSTART\n$$ASCII\n$$UNITS/0.001\n$$VERSION/200\n$$LAYERS/0\n$$HEADEREND\n$$GEOMETRYSTART\n$$GEOMETRYEND\n";

const PROGRAM: &[u8] = b"G28\n";

/// Runs the words over the source of this status, where the calls of these numbers fail.
fn answer_to<R: Threads + Sync + Abort>(
    rt: &R,
    alloc: Global,
    words: &str,
    status: u8,
    fails: &[u64],
) -> Answer {
    let source = if status == 0 { SHORT } else { WIDE };
    let setup = Setup {
        files: &[
            ("m.scad", source),
            ("s.toml", SETTINGS),
            ("v.cli", NO_LAYERS),
            ("v.gcode", PROGRAM),
        ],
        fails,
        room: ROOM,
    };
    answered(rt, alloc, words, &setup, &Meeting::open())
}

/// The report of a run in which this call fails alone.
fn report_without(call: u64, echo: u64, last: u64) -> &'static str {
    if call < echo {
        "read fault\n"
    } else if call == echo {
        ""
    } else if call < last {
        "ECHO: 1\nwrite fault\n"
    } else {
        "ECHO: 1\n"
    }
}

/// This call and twenty from another one on.
fn fails_from(alloc: Global, call: u64, later: u64) -> Result<Vec<u64>, AllocError> {
    let mut fails = Vec::new(alloc);
    fails.push(call)?;
    for further in 0..20 {
        fails.push(later.saturating_add(further))?;
    }
    Ok(fails)
}

/// Whether the run ended so, with fronts of the whole files.
fn is_stopped(whole: &Answer, answer: &Answer, code: u8, report: &str) -> bool {
    answer.code == code
        && answer.report.as_slice() == report.as_bytes()
        && whole.cli.starts_with(&answer.cli)
        && whole.gcode.starts_with(&answer.gcode)
}

/// How many objects fail where these calls do, and how much both files have then. The report and the status are told.
fn left_by<R: Threads + Sync + Abort>(
    rt: &R,
    alloc: Global,
    run: Run,
    whole: &Answer,
    fails: &[u64],
    end: (u8, &str),
) -> (u64, usize, usize) {
    let (words, status, _, _, _) = run;
    let (code, report) = end;
    let answer = answer_to(rt, alloc, words, status, fails);
    holds(rt, is_stopped(whole, &answer, code, report), words);
    (answer.faults, answer.cli.len(), answer.gcode.len())
}

/// All files are whole only where the report alone failed, or the input of a run that writes none. After the call that failed
/// comes one at most, for the last line: that the calls behind it would fail changes nothing. Where that one fails too, the
/// report has nothing more.
fn expect_stop<R: Threads + Sync + Abort>(
    rt: &R,
    alloc: Global,
    run: Run,
    whole: &Answer,
    call: u64,
) {
    let (words, _, echo, _, last) = run;
    let code = if call < echo { 4 } else { 5 };
    let end = (code, report_without(call, echo, last));
    let alone = left_by(rt, alloc, run, whole, &[call], end);
    let (faults, cli, gcode) = alone;
    let is_short = cli < whole.cli.len() || gcode < whole.gcode.len();
    let is_cut = call < last && !whole.cli.is_empty();

    let but_the_next = fails_from(alloc, call, call.saturating_add(2)).expect(rt, "memory");
    let same = left_by(rt, alloc, run, whole, &but_the_next, end);

    let all = fails_from(alloc, call, call).expect(rt, "memory");
    let lines = if call <= echo { "" } else { "ECHO: 1\n" };
    let silent = left_by(rt, alloc, run, whole, &all, (5, lines));
    let failed = if call == echo || call == last { 1 } else { 2 };

    let is_one_fault = faults == 1 && is_short == is_cut && same == alone;
    holds_at(
        rt,
        is_one_fault && silent == (failed, cli, gcode),
        words,
        call,
    );
}

#[test]
fn each_call_fails_in_turn(rt: HostRuntime) {
    let alloc = rt.alloc();
    for &run in &RUNS {
        let (words, status, _, first, last) = run;
        let behind = last.saturating_add(1);
        let whole = answer_to(&rt, alloc, words, status, &[behind]);
        holds(&rt, whole.code == status && whole.faults == 0, words);
        for call in first..behind {
            expect_stop(&rt, alloc, run, &whole, call);
        }
    }
}

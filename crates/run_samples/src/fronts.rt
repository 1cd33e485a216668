//! Each front of outlines and of a printing program: what `verify` says of it. The answers come from an independent program.
use crate::cases::holds;
use crate::desks::{Answer, ROOM, Setup, answered};
use crate::gate::Meeting;
use cli_read::{Cli, read};
use cli_text::{write_end, write_head, write_layer};
use std::alloc::{AllocError, Global};
use std::process::Abort;
use std::thread::Threads;

/// Outlines of four layers, piece by piece: what is said of each front that ends in a piece, over a program of nothing.
const OUTLINES: [(&str, &str); 78] = [
    ("$$HEADERSTAR", "cli 1 BadLine 1\n"),
    ("T\n$$ASCI", "cli 1 BadLine 2\n"),
    ("I\n$$UNITS/0.00", "cli 1 BadLine 3\n"),
    ("1\n$$VERSION/20", "cli 1 BadLine 4\n"),
    ("0\n$$LAYERS/", "cli 1 BadLine 5\n"),
    ("4\n$$HEADEREN", "cli 1 BadLine 6\n"),
    ("D\n$$GEOMETRYSTAR", "cli 1 BadLine 7\n"),
    ("T\n$$LAYER/", "cli 1 BadLine 8\n"),
    ("200\n$$POLYLINE/1,1,", "cli 1 BadLine 9\n"),
    ("5", "cli 2 CountDiffers 5 0\n"),
    (",0,", "cli 1 BadLine 9\n"),
    ("0", "cli 2 CountDiffers 5 1\n"),
    (",3000,", "cli 1 BadLine 9\n"),
    ("0", "cli 2 CountDiffers 5 2\n"),
    (",3000,", "cli 1 BadLine 9\n"),
    ("3000", "cli 2 CountDiffers 5 3\n"),
    (",0,", "cli 1 BadLine 9\n"),
    ("3000", "cli 2 CountDiffers 5 4\n"),
    (",0,", "cli 1 BadLine 9\n"),
    ("0\n$$HATCHES/1,", "cli 1 BadLine 10\n"),
    ("2", "cli 2 CountDiffers 2 0\n"),
    (",900,2000,2100,", "cli 1 BadLine 10\n"),
    ("2000", "cli 2 CountDiffers 2 1\n"),
    (",-7,0,15,-", "cli 1 BadLine 10\n"),
    ("30\n$$LAYER/40", "cli 1 BadLine 11\n"),
    ("0\n$$HATCHES/1,", "cli 1 BadLine 12\n"),
    ("1", "cli 2 CountDiffers 1 0\n"),
    (",0,0,0,", "cli 1 BadLine 12\n"),
    ("0\n$$POLYLINE/1,0,", "cli 1 BadLine 13\n"),
    ("4", "cli 2 CountDiffers 4 0\n"),
    (",10,", "cli 1 BadLine 13\n"),
    ("10", "cli 2 CountDiffers 4 1\n"),
    (",20,", "cli 1 BadLine 13\n"),
    ("20", "cli 2 CountDiffers 4 2\n"),
    (",20,", "cli 1 BadLine 13\n"),
    ("10", "cli 2 CountDiffers 4 3\n"),
    (",10,", "cli 1 BadLine 13\n"),
    ("1", "cli 3 OpenLoop 13\n"),
    ("0\n$$HATCHES/1,", "cli 1 BadLine 14\n"),
    ("3", "cli 2 CountDiffers 3 0\n"),
    (",5,5,6,", "cli 1 BadLine 14\n"),
    ("6", "cli 2 CountDiffers 3 1\n"),
    (",7,7,8,", "cli 1 BadLine 14\n"),
    ("8", "cli 2 CountDiffers 3 2\n"),
    (",-9,9,10,-", "cli 1 BadLine 14\n"),
    ("10\n$$HATCHES/1,", "cli 1 BadLine 15\n"),
    ("1", "cli 2 CountDiffers 1 0\n"),
    (",-1100000,1100000,4,", "cli 1 BadLine 15\n"),
    ("4\n$$LAYER/60", "cli 1 BadLine 16\n"),
    ("0\n$$HATCHES/1,", "cli 1 BadLine 17\n"),
    ("1", "cli 2 CountDiffers 1 0\n"),
    (",1,2,3,", "cli 1 BadLine 17\n"),
    ("4\n$$LAYER/100", "cli 1 BadLine 18\n"),
    ("0\n$$POLYLINE/1,1,", "cli 1 BadLine 19\n"),
    ("5", "cli 2 CountDiffers 5 0\n"),
    (",0,", "cli 1 BadLine 19\n"),
    ("0", "cli 2 CountDiffers 5 1\n"),
    (",10000,", "cli 1 BadLine 19\n"),
    ("0", "cli 2 CountDiffers 5 2\n"),
    (",10000,", "cli 1 BadLine 19\n"),
    ("10000", "cli 2 CountDiffers 5 3\n"),
    (",0,", "cli 1 BadLine 19\n"),
    ("10000", "cli 2 CountDiffers 5 4\n"),
    (",0,", "cli 1 BadLine 19\n"),
    ("0\n$$POLYLINE/1,0,", "cli 1 BadLine 20\n"),
    ("5", "cli 2 CountDiffers 5 0\n"),
    (",2000,", "cli 1 BadLine 20\n"),
    ("2000", "cli 2 CountDiffers 5 1\n"),
    (",2000,", "cli 1 BadLine 20\n"),
    ("8000", "cli 2 CountDiffers 5 2\n"),
    (",8000,", "cli 1 BadLine 20\n"),
    ("8000", "cli 2 CountDiffers 5 3\n"),
    (",8000,", "cli 1 BadLine 20\n"),
    ("2000", "cli 2 CountDiffers 5 4\n"),
    (",2000,", "cli 1 BadLine 20\n"),
    ("200", "cli 3 OpenLoop 20\n"),
    ("0\n$$GEOMETRYEN", "cli 1 BadLine 21\n"),
    ("D\n", "inside: 4 layers, 0 moves\n"),
];

/// A printing program over these outlines, likewise.
const PROGRAM: [(&str, &str); 73] = [
    ("; scadslice\n", "inside: 4 layers, 0 moves\n"),
    ("G2", "gcode 1 UnknownWord 2\n"),
    ("1\n", "inside: 4 layers, 0 moves\n"),
    ("M8", "gcode 1 UnknownWord 3\n"),
    ("2\n", "inside: 4 layers, 0 moves\n"),
    ("M14", "gcode 1 UnknownWord 4\n"),
    ("0 ", "inside: 4 layers, 0 moves\n"),
    ("S", "gcode 2 BadNumber 4\n"),
    ("60\n", "inside: 4 layers, 0 moves\n"),
    ("M10", "gcode 1 UnknownWord 5\n"),
    ("9 ", "inside: 4 layers, 0 moves\n"),
    ("S", "gcode 2 BadNumber 5\n"),
    ("200\n", "inside: 4 layers, 0 moves\n"),
    ("G2", "gcode 1 UnknownWord 6\n"),
    ("8\n", "inside: 4 layers, 0 moves\n"),
    ("G9", "gcode 1 UnknownWord 7\n"),
    ("2 ", "inside: 4 layers, 0 moves\n"),
    ("E", "gcode 2 BadNumber 7\n"),
    ("0\n", "inside: 4 layers, 0 moves\n"),
    ("G", "gcode 1 UnknownWord 8\n"),
    ("1 ", "inside: 4 layers, 0 moves\n"),
    ("Z", "gcode 2 BadNumber 8\n"),
    ("0", "inside: 4 layers, 0 moves\n"),
    (".", "gcode 2 BadNumber 8\n"),
    ("200 ", "inside: 4 layers, 0 moves\n"),
    ("F", "gcode 2 BadNumber 8\n"),
    ("7200\n", "inside: 4 layers, 0 moves\n"),
    ("G", "gcode 1 UnknownWord 9\n"),
    ("1 ", "inside: 4 layers, 0 moves\n"),
    ("X", "gcode 2 BadNumber 9\n"),
    ("0", "inside: 4 layers, 0 moves\n"),
    (".", "gcode 2 BadNumber 9\n"),
    ("225 ", "inside: 4 layers, 0 moves\n"),
    ("Y", "gcode 2 BadNumber 9\n"),
    ("0", "inside: 4 layers, 0 moves\n"),
    (".", "gcode 2 BadNumber 9\n"),
    ("225 ", "inside: 4 layers, 0 moves\n"),
    ("F", "gcode 2 BadNumber 9\n"),
    ("7200\n", "inside: 4 layers, 0 moves\n"),
    ("G", "gcode 1 UnknownWord 10\n"),
    ("1 ", "inside: 4 layers, 0 moves\n"),
    ("X", "gcode 2 BadNumber 10\n"),
    ("2", "inside: 4 layers, 0 moves\n"),
    (".", "gcode 2 BadNumber 10\n"),
    ("775 ", "inside: 4 layers, 0 moves\n"),
    ("Y", "gcode 2 BadNumber 10\n"),
    ("0", "inside: 4 layers, 0 moves\n"),
    (".", "gcode 2 BadNumber 10\n"),
    ("225 ", "inside: 4 layers, 0 moves\n"),
    ("E", "gcode 2 BadNumber 10\n"),
    ("0", "inside: 4 layers, 1 moves\n"),
    (".", "gcode 2 BadNumber 10\n"),
    ("09541 ", "inside: 4 layers, 1 moves\n"),
    ("F", "gcode 2 BadNumber 10\n"),
    ("1800\n", "inside: 4 layers, 1 moves\n"),
    ("G", "gcode 1 UnknownWord 11\n"),
    ("1 ", "inside: 4 layers, 1 moves\n"),
    ("X", "gcode 2 BadNumber 11\n"),
    ("2", "inside: 4 layers, 1 moves\n"),
    (".", "gcode 2 BadNumber 11\n"),
    ("775 ", "inside: 4 layers, 1 moves\n"),
    ("Y", "gcode 2 BadNumber 11\n"),
    ("2", "inside: 4 layers, 1 moves\n"),
    (".", "gcode 2 BadNumber 11\n"),
    ("775 ", "inside: 4 layers, 1 moves\n"),
    ("E", "gcode 2 BadNumber 11\n"),
    ("0", "inside: 4 layers, 1 moves\n"),
    (".", "gcode 2 BadNumber 11\n"),
    ("19083 ", "inside: 4 layers, 2 moves\n"),
    ("F", "gcode 2 BadNumber 11\n"),
    ("1800\n", "inside: 4 layers, 2 moves\n"),
    ("M8", "gcode 1 UnknownWord 12\n"),
    ("4\n", "inside: 4 layers, 2 moves\n"),
];

/// The outlines as they are written: all hatches of a layer in one line, behind its other lines.
const WRITTEN: &str = "\
$$HEADERSTART\n\
$$ASCII\n\
$$UNITS/0.001\n\
$$VERSION/200\n\
$$LAYERS/4\n\
$$HEADEREND\n\
$$GEOMETRYSTART\n\
$$LAYER/200\n\
$$POLYLINE/1,1,5,0,0,3000,0,3000,3000,0,3000,0,0\n\
$$HATCHES/1,2,900,2000,2100,2000,-7,0,15,-30\n\
$$LAYER/400\n\
$$POLYLINE/1,0,4,10,10,20,20,20,10,10,10\n\
$$HATCHES/1,5,0,0,0,0,5,5,6,6,7,7,8,8,-9,9,10,-10,-1100000,1100000,4,4\n\
$$LAYER/600\n\
$$HATCHES/1,1,1,2,3,4\n\
$$LAYER/1000\n\
$$POLYLINE/1,1,5,0,0,10000,0,10000,10000,0,10000,0,0\n\
$$POLYLINE/1,0,5,2000,2000,2000,8000,8000,8000,8000,2000,2000,2000\n\
$$GEOMETRYEND\n";

fn verified<'x, R: Threads + Sync + Abort>(
    rt: &R,
    alloc: Global,
    outlines: &'x [u8],
    program: &'x [u8],
) -> Answer {
    let setup = Setup {
        files: &[("o.cli", outlines), ("o.gcode", program)],
        fails: &[],
        room: ROOM,
    };
    let words = "verify o.cli o.gcode";
    answered(rt, alloc, words, &setup, &Meeting::open())
}

/// Tells of each front of outlines, or of a program over such: the whole of it.
fn whole_by_fronts<R: Threads + Sync + Abort>(
    rt: &R,
    alloc: Global,
    pieces: &[(&str, &str)],
    outlines: Option<&[u8]>,
) -> Vec<u8> {
    let mut text = Vec::new(alloc);
    for &(piece, report) in pieces {
        for &byte in piece.as_bytes() {
            text.push(byte).expect(rt, "memory");
            let answer = match outlines {
                Some(outlines) => verified(rt, alloc, outlines, &text),
                None => verified(rt, alloc, &text, b""),
            };
            let is_told = answer.report.as_slice() == report.as_bytes();
            holds(rt, is_told && answer.faults == 0, piece);
        }
    }
    text
}

fn written(alloc: Global, cli: &Cli) -> Result<Vec<u8>, AllocError> {
    let mut text = Vec::new(alloc);
    write_head(&mut text, 4)?;
    for layer in cli.layers.as_slice() {
        write_layer(
            &mut text,
            layer.z,
            layer.loops.as_slice(),
            layer.hatches.as_slice(),
        )?;
    }
    write_end(&mut text)?;
    Ok(text)
}

#[test]
fn each_front_of_outlines_and_of_a_program(rt: HostRuntime) {
    let alloc = rt.alloc();
    let outlines = whole_by_fronts(&rt, alloc, &OUTLINES, None);
    whole_by_fronts(&rt, alloc, &PROGRAM, Some(outlines.as_slice()));
    let cli = read(alloc, &outlines).expect(&rt, "outlines");
    let text = written(alloc, &cli).expect(&rt, "memory");
    holds(
        &rt,
        text.as_slice() == WRITTEN.as_bytes(),
        "hatches are joined",
    );
}

//! Outlines of edges, of which the random ones were found by an independent program too.

use crate::cases::expect;
use plan_sides::sides;
use scad_geom::{Loop, Pt};
use slice_loops::join;
use std::alloc::{AllocError, Global};

// Outlines with a blank between two. Each two digits are a vertex: its x and its y.
fn outlines_of(alloc: Global, text: &str) -> Result<Vec<Loop>, AllocError> {
    let mut outlines = Vec::new(alloc);
    for part in text.split(' ') {
        let mut points = Vec::new(alloc);
        for vertex in part.as_bytes().chunks(2) {
            if let [x, y] = vertex {
                let (x, y) = (i32::from(*x) - 48, i32::from(*y) - 48);
                points.push(Pt { x, y })?;
            }
        }
        if !points.is_empty() {
            outlines.push(Loop::from_vec(points))?;
        }
    }
    Ok(outlines)
}

fn are_same(some: &[Loop], others: &[Loop]) -> bool {
    if some.len() != others.len() {
        return false;
    }
    for i in 0..some.len() {
        if some[i].as_slice() != others[i].as_slice() {
            return false;
        }
    }
    true
}

// Whether the second outlines are joined from the sides of the first.
fn are_joined(alloc: Global, text: &str, wanted: &str) -> Result<bool, AllocError> {
    let edges = sides(alloc, &outlines_of(alloc, text)?)?;
    let joined = join(alloc, &edges)?;
    Ok(are_same(&joined, &outlines_of(alloc, wanted)?))
}

// How loops start at their least vertices.
const STARTS: [(&str, &str); 4] = [
    // Two squares, the upper one first.
    ("55757757 00202202", "00202202 55757757"),
    // The other way round, and one inside the other.
    ("11133331 00404404", "00404404 11133331"),
    // The same outline twice.
    ("003033 003033", "003033 003033"),
    ("", ""),
];

// How loops part at vertices that they share.
const SHARED: [(&str, &str); 3] = [
    // A vertex shared by two loops: they are drawn as two.
    ("00202202 22424424", "00202202 22424424"),
    // An outline drawn in one go through a vertex that its middle touches again.
    ("002022424424220200", "00202202 22424424"),
    // An outline that touches itself at a point.
    ("402244040022", "002240224404"),
];

// Vertices on a line, which are dropped.
const STRAIGHT: [(&str, &str); 5] = [
    ("0011224404", "004404"),
    // A vertex on a level side before the first corner of the text, and one on the side to the start.
    ("2040440400", "00404404"),
    ("0040440402", "00404404"),
    // The tip of a spike stays.
    ("00402023", "00402023"),
    // A side of no length.
    ("00303033", "00303033"),
];

// Loops without three corners, which are dropped.
// A spike that vanishes, a loop of two edges, one of one edge.
const FLAT: [(&str, &str); 3] = [("00204020", ""), ("1131", ""), ("33", "")];

// Random outlines, and what the other program made of their sides.
const RANDOM: [(&str, &str); 30] = [
    ("02410330 1121", "30024103"),
    ("122111 4330 100122 21400211", "100122 40021121 111221"),
    ("120211 201000 0233 010342004002", "004002010342 111202"),
    (
        "21200002220002 12132030110214 2011000211",
        "000211 00022120 000222 203011 2002141213",
    ),
    ("12102200", "00121022"),
    ("2233 2100 40442012240001", "00014044201224"),
    ("022301333203 3211", "0133321132030223"),
    (
        "3102102003 120122 001210112221",
        "0012102003310210112221 012212",
    ),
    (
        "211120122010 10201231 231112040122",
        "1021112012201231 012223111204",
    ),
    ("01220120300333 01244313343111", "2030033301 012443133431"),
    ("330211221023 100230", "100230 102333021122"),
    ("333011034421 100332", "100332 301103442133"),
    ("140304022224 0200411103", "00411103 022224140304"),
    ("2012 0232203110 111200 1222", "001112 1002322031"),
    (
        "21200031112112 2110 0020 220203022332",
        "00311121102120 022332",
    ),
    (
        "20300302 22201201101202 0413 200012",
        "001220 101201 20300302 20120222",
    ),
    (
        "0030112012 432330240212 444101 20001121",
        "00301120 0011212012 302402124323 014441",
    ),
    ("1222 330111", "011133"),
    (
        "2134300131 403200430100 012021 221130",
        "004032 004301 202101 3001312134 302211",
    ),
    ("40413220043312 2000 0102", "20043312404132"),
    ("1130 1023033330", "1023033330"),
    ("441204010402 320112", "011232 02441204"),
    ("4202014344 013010 3311013303", "100130 013311 0143444202"),
    ("2002 002011", "002011"),
    (
        "213110423320 30031031 311201 22013300032130",
        "00031031104233 20213022013130032131120133",
    ),
    ("14304044 312122 13222112 1101", "30404414 21121322 212231"),
    (
        "421422 4012021302 1000211002 023300",
        "002110 00021002401202130233 224214",
    ),
    ("20220220112000 011020", "102001 202202"),
    (
        "430100103300 3110220233 42410012",
        "0010220233 00124241 004301 103331",
    ),
    ("322102", "210232"),
];

const TABLES: [&[(&str, &str)]; 5] = [&STARTS, &SHARED, &STRAIGHT, &FLAT, &RANDOM];

// What was joined from the sides of the first outlines of each row are the second ones.
#[test]
fn outlines_are_joined_from_sides(rt: HostRuntime) {
    for rows in &TABLES {
        for (text, wanted) in *rows {
            let are = are_joined(rt.alloc(), text, wanted).expect(&rt, "memory");
            expect(&rt, are, text);
        }
    }
}

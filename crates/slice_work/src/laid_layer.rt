//! A layer as it is written.

use scad_geom::{Loop, Path};

/// A layer as it is written: its number, its outlines, the paths of its moves, the last `runs` of which are runs of
/// infill, and its supports.
#[derive(Clone, Copy)]
pub struct LaidLayer<'a> {
    pub number: u32,
    pub loops: &'a [Loop],
    pub paths: &'a [Path],
    pub runs: u64,
    pub supports: &'a [Path],
}

//! Memory that heights and their groups use one after another.

use crate::ray::Ray;
use std::alloc::Global;

/// What is gathered of the edges that start at a height and then of one group, kept for the next so that it takes no
/// memory anew.
#[derive(Drop)]
pub(crate) struct Room {
    pub(crate) numbers: Vec<u32>,
    pub(crate) rays: Vec<Ray>,
}

impl Room {
    pub(crate) fn new(alloc: Global) -> Room {
        Room {
            numbers: Vec::new(alloc),
            rays: Vec::new(alloc),
        }
    }
}

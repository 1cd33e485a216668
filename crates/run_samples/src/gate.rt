//! The gate of all runs here: one type, so that the generic program is built once.
use scad_io::Gate;
use std::sync::atomic::{AtomicU64, Ordering};
use std::thread;

/// How often a held layer looks before it goes on all the same.
const TURNS: u32 = 50_000_000;

/// Holds the layers from one number up to another until so many are there at once: those that are held, and the others that
/// are done.
#[derive(Drop)]
pub struct Meeting {
    from: u32,
    to: u32,
    wanted: u64,
    there: AtomicU64,
    met: AtomicU64,
}

impl Meeting {
    /// No layers are there yet.
    pub fn of(from: u32, to: u32, wanted: u64) -> Meeting {
        Meeting {
            from,
            to,
            wanted,
            there: AtomicU64::new(0),
            met: AtomicU64::new(0),
        }
    }

    /// A gate that holds no layer.
    pub fn open() -> Meeting {
        Meeting::of(0, 0, 0)
    }

    /// Whether so many layers were there at once.
    pub fn is_met(&self) -> bool {
        self.met.load(Ordering::SeqCst) == 1
    }

    fn holds(&self, layer: u32) -> bool {
        self.from <= layer && layer < self.to
    }

    fn come(&self) {
        if self.there.fetch_add(1, Ordering::SeqCst).wrapping_add(1) == self.wanted {
            self.met.store(1, Ordering::SeqCst);
        }
    }
}

impl Gate for Meeting {
    fn before(&self, layer: u32) {
        if !self.holds(layer) {
            return;
        }
        self.come();
        for _ in 0..TURNS {
            if self.is_met() {
                return;
            }
            thread::yield_now();
        }
    }

    fn after(&self, layer: u32) {
        if self.holds(layer) {
            self.there.fetch_sub(1, Ordering::SeqCst);
        } else {
            self.come();
        }
    }
}

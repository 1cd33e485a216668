//! The front of a sweep: the bundles of edges at a height, mended where something happens to them as the height rises.
//!
//! The contracts promise between each two neighbouring heights the bundles of the definition, as they are made from all
//! edges at once.
#![tactic(auto, using(scad_geom::proofs::Casts::casts))]

mod apart;
mod asleep;
mod change;
mod coinciding;
mod front;
mod group;
mod key;
mod leave;
mod lifting;
mod lower_end;
mod lower_ends;
mod lows;
mod mend;
mod place;
mod ray;
mod replace;
mod room;
mod slope;
mod spot;
mod start;
mod step;
mod strand;
mod wake;

pub use change::Change;
pub use front::Front;

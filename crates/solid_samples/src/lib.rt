//! Hulls of rolled points, against those of an independent program, and points that lie in solids and shapes. It promises
//! nothing: it is a crate of tests, so that the crates that it tries are proved once.
#![tactic(auto, using(scad_geom::proofs::Casts::casts))]

#[cfg(test)]
mod cases;
#[cfg(test)]
mod hull_rings;
#[cfg(test)]
mod hulls;
#[cfg(test)]
mod inside;

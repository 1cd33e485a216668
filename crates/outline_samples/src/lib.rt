//! Worked examples of outlines: heights, slabs, fronts of sweeps, pieces of borders, loops, and the toolpaths of such as cross.
//! It promises nothing: it is a crate of tests, so that the crates that it tries are proved once.
#![tactic(auto, using(scad_geom::proofs::Casts::casts))]

#[cfg(test)]
mod cases;
#[cfg(test)]
mod grid;
#[cfg(test)]
mod levels;
#[cfg(test)]
mod loops;
#[cfg(test)]
mod meetings;
#[cfg(test)]
mod numbers;
#[cfg(test)]
mod pieces;
#[cfg(test)]
mod random_fronts;
#[cfg(test)]
mod random_outlines;
#[cfg(test)]
mod random_toolpaths;

//! Whole runs over a desk in memory: calls that fail, outputs that are cut short, files that end anywhere, and workers that
//! are at work at once. It promises nothing: it is a crate of tests, so that what it tries is proved once.
#![tactic(auto)]

#[cfg(test)]
mod boards;
#[cfg(test)]
mod cases;
#[cfg(test)]
mod desks;
#[cfg(test)]
mod failures;
#[cfg(test)]
mod fronts;
#[cfg(test)]
mod gate;
#[cfg(test)]
mod rooms;
#[cfg(test)]
mod workers;

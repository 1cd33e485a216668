//! Short sources, read from their bytes to programs and values, against the answers of an independent program: what no run
//! tells of them, the steps that were taken and the printed text; and the frames of a program's names. It promises nothing:
//! it is a crate of tests, so that the crates that it tries are proved once.
#![tactic(auto)]

#[cfg(test)]
mod budgets;
#[cfg(test)]
mod cases;
#[cfg(test)]
mod comprehensions;
#[cfg(test)]
mod each_step;
#[cfg(test)]
mod expressions;
#[cfg(test)]
mod frames;
#[cfg(test)]
mod listed_frames;
#[cfg(test)]
mod machine;
#[cfg(test)]
mod operators;
#[cfg(test)]
mod program_texts;
#[cfg(test)]
mod scopes;
#[cfg(test)]
mod stand;
#[cfg(test)]
mod step_limits;
#[cfg(test)]
mod value_answer;

//! What a program gives.
use scad_expr::EvalFault;
use scad_fault::Text;
use scad_tree::Tree;

/// What a program makes.
#[derive(Drop)]
pub struct Model {
    /// The union of its statements.
    pub tree: Tree,
    /// The lines of `echo`.
    pub echoes: Vec<Text>,
}

/// Why a program makes nothing.
#[derive(Drop)]
pub struct ModelEnd {
    /// The first fault or budget, or want of memory.
    pub fault: EvalFault,
    /// The lines of `echo` before it.
    pub echoes: Vec<Text>,
}

//! What is at work, and what waits for it.

ghost use Rattle.scad_members.specs.Stack.{GoesOn};

use crate::variable::Variable;
use scad_ast::{Item, Scope};
use scad_expr::EvalFault;
use scad_fault::Place;
use scad_leaves::{Call, Operation, Where};
use scad_operations::Remainder;
use scad_tree::Tree;

/// What is at work.
#[derive(Drop)]
pub enum Focus<'p> {
    /// A statement.
    Statement(&'p Item),
    /// The items of a scope from a number on; the trees of its statements are members.
    Members(&'p Scope, usize),
    /// The children that values name; their trees are members.
    Children(&'p Scope, Remainder),
    /// The variables of a `for` from that of a number on, the first of them the outermost; the tree of each
    /// turn of all of them is a member.
    Variables(Call<'p>, usize),
    /// The turns of a variable that are left.
    Turns(Variable<'p>, Remainder),
    /// A tree, for the frame on the top.
    Given(Tree),
}

/// What waits for a tree.
#[derive(Drop)]
pub enum Frame<'p> {
    /// The statement has its tree: whether it is marked `%`, how many levels of depth were left outside of it, and how
    /// many points of profiles there were before it.
    Mark(bool, u32, usize),
    /// The tree is a member, unless its statement is marked `%`.
    Member(bool),
    /// Members were added, and more comes.
    Then(Focus<'p>),
    /// The members have their operation, made by the statement at a place; those of the operation round it.
    Combine(Operation, Place, Vec<Tree>),
    /// The children of a `hull` have their tree: the hull, and how many points of profiles there were before them.
    Hull(Call<'p>, usize),
    /// The statements behind it stand where they did before.
    Stand(Box<Where>),
    /// The last frames of the machine are left, and names are sought from another one.
    Leave(u32),
}

/// A tree that was made is at work.
#[tactic(auto, unfolding(crate::specs::Stack::goes_on))]
pub fn at_work<'p>(tree: Result<Tree, EvalFault>) -> Result<Focus<'p>, EvalFault>
    ensures { GoesOn tree result }
{
    match tree {
        Ok(tree) => Ok(Focus::Given(tree)),
        Err(why) => Err(why),
    }
}

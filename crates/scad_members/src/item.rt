//! Items of a scope.

ghost use Rattle.std.specs.Prelude.{◌≡◌, List, drop, None, option_map};
ghost use Rattle.scad_ast.specs.Scope.{item_of, items};
ghost use Rattle.scad_tree.specs.Solid.{Solid};
ghost use Rattle.scad_scope.specs.Env.{Env};
ghost use Rattle.scad_expr.specs.Arguments.{is_statement, statements};
ghost use Rattle.scad_expr.specs.State.{State};
ghost use Rattle.scad_leaves.specs.declared.space.Where.{Where};
ghost use Rattle.scad_members.specs.Meaning.{Below, members_from};
ghost use Rattle.scad_members.specs.Scopes.{item_place, is_marked, child_at};

use scad_ast::{Item, Scope};
use scad_fault::Place;
use scad_machine::is_statement;

/// The place of an item.
#[tactic(auto, using(crate::proofs::Items::kinds))]
pub fn item_place(item: &Item) -> Place
    ensures { result ≡ item_place (item_of item.now) }
{
    match item {
        Item::Assign(_, _, at) => *at,
        Item::Module(_, _, _, at) => *at,
        Item::Function(_, _, _, at) => *at,
        Item::Run(stmt) => stmt.at,
    }
}

/// Whether it is a statement that is marked `%`.
#[tactic(auto, using(crate::proofs::Items::kinds))]
pub fn is_marked(item: &Item) -> bool
    ensures { result ≡ is_marked (item_of item.now) }
{
    match item {
        Item::Run(stmt) => stmt.percent,
        Item::Assign(_, _, _) => false,
        Item::Module(_, _, _, _) => false,
        Item::Function(_, _, _, _) => false,
    }
}

/// How many statements a scope has.
#[tactic(auto, using(scad_machine::proofs::Homes::left))]
pub(crate) fn statements(scope: &Scope) -> usize
    ensures { result ≡ statements (items scope.now.items) }
{
    let mut count = 0;
    'items: for item in scope {
        if is_statement(item) {
            count += 1;
        }
    }
    count
}

/// The statement of a number, from 0.
#[tactic(auto, using(scad_machine::proofs::Homes::left))]
pub(crate) fn child_at<'p>(scope: &'p Scope, n: usize) -> Option<&'p Item>
    ensures { option_map (λ i. item_of i.now) result ≡ child_at (items scope.now.items) n }
{
    let mut left = n;
    'items: for item in scope {
        if is_statement(item) {
            if left == 0 {
                return Some(item);
            }
            left -= 1;
        }
    }
    None
}

/// The number of the first statement from a number on, or of none. What is passed over, definitions and assignments,
/// gives nothing, whatever is meant by a statement.
pub(crate) fn next_statement(scope: &Scope, from: usize) -> usize
    ensures { (below : Below) (w : Where) (env along : Env) (so_far : List Solid) (s : State)
        → members_from below w env along (items (drop from scope.now.items)) so_far s
        ≡ members_from below w env along (items (drop result scope.now.items)) so_far s }
{
    let mut number = from;
    'items: while number < scope.len() && !is_statement(&scope[number]) {
        number += 1;
    }
    number
}

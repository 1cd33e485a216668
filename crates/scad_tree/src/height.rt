//! The height that a tree reaches, and its layers.
ghost use Rattle.std.specs.Prelude.{◌≡◌, ◌≤◌, is_none};
ghost use Rattle.scad_solid.specs.Height.{higher_of};
ghost use Rattle.scad_tree.specs.Height.{lower_of, top_of, greatest, least, layers_below, layers};
ghost use Rattle.scad_tree.specs.Normal.{is_nothing};
ghost use Rattle.scad_tree.specs.Solid.{members};
ghost use Rattle.scad_tree.specs.View.{solid_of, solids};

use crate::node::Node;
use crate::tree::Tree;

impl Tree {
    /// The height in micrometres that no point of the tree passes: of a leaf its highest corner, of a union
    /// the greatest of its members, of an intersection the least, of a difference that of the first. None
    /// exactly where the tree is empty.
    pub fn top(&self) -> Option<i32>
        ensures top { result ≡ top_of (solid_of self.now) }
        ensures none { is_none result ≡ is_nothing (solid_of self.now) }
    {
        top(self.as_node())
    }

    /// How many layers of the height `h` in micrometres have their plane, which stands at
    /// `layer * h + h / 2`, by whole division, plus one half, below the top. The empty tree has none.
    pub fn layers(&self, h: u32) -> u32
        requires { 1 ≤ h }
        ensures { result ≡ layers (solid_of self.now) h }
    {
        match self.top() {
            Some(top) => layers_below(top, h),
            None => 0,
        }
    }
}

fn layers_below(top: i32, h: u32) -> u32
    requires { 1 ≤ h }
    ensures { result ≡ layers_below top h }
{
    if top < 0 {
        return 0;
    }
    top.unsigned_abs().saturating_sub(h / 2).div_ceil(h)
}

#[cycle(top)]
#[tactic(auto, using(crate::proofs::Rows::at_operation))]
fn top(node: &Node) -> Option<i32>
    ensures { result ≡ top_of (solid_of node.now) }
{
    match node {
        Node::Empty => None,
        Node::Leaf(triangles) => triangles.highest(),
        Node::Union(members) => greatest(members),
        Node::Inter(members) => least(members),
        Node::Diff(first, _) => top(first),
    }
}

#[cycle(top)]
#[tactic(auto, using(crate::proofs::Rows::left))]
fn greatest(nodes: &[Node]) -> Option<i32>
    ensures { result ≡ greatest (members (solids nodes.now)) }
{
    let mut height = None;
    for node in nodes {
        height = higher(height, top(node));
    }
    height
}

#[cycle(top)]
#[tactic(auto, using(crate::proofs::Rows::left))]
fn least(nodes: &[Node]) -> Option<i32>
    ensures { result ≡ least (members (solids nodes.now)) }
{
    let mut height = None;
    for node in nodes {
        height = lower(height, top(node));
    }
    height
}

fn higher(a: Option<i32>, b: Option<i32>) -> Option<i32>
    ensures { result ≡ higher_of a b }
{
    match a {
        None => b,
        Some(z) => match b {
            None => Some(z),
            Some(w) => Some(z.max(w)),
        },
    }
}

fn lower(a: Option<i32>, b: Option<i32>) -> Option<i32>
    ensures { result ≡ lower_of a b }
{
    match a {
        None => b,
        Some(z) => match b {
            None => Some(z),
            Some(w) => Some(z.min(w)),
        },
    }
}

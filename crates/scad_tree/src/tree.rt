//! Trees in normal form.
ghost use Rattle.std.specs.Prelude.{◌≡◌, ◌<◌, length, IsTrue};
ghost use Rattle.scad_tree.specs.Solid.{nothing, surface};
ghost use Rattle.scad_tree.specs.View.{solid_of};
ghost use Rattle.scad_tree.specs.Normal.{is_normal};

use crate::node::Node;
use scad_solid::Triangles;
use std::marker::Model;

/// A tree of set operations in normal form.
pub struct Tree {
    node: Node,
}

// Let go by one call wherever it is owned; what is derived is done in place there.
impl Drop for Tree {
    fn drop(self) {
        let Tree { node: _node } = self;
    }
}

impl Model for Tree {
    ghost use Rattle.std.specs.Prelude.{IsTrue};
    ghost use Rattle.scad_tree.specs.declared.node.Node.{Node};
    ghost use Rattle.scad_tree.specs.View.{solid_of};
    ghost use Rattle.scad_tree.specs.Normal.{is_normal};

    ghost Value = { Node };

    ghost use Rattle.scad_tree.specs.contracts.node.Node as e;
    ghost use Rattle.std.specs.Coded.{codes};

    ghost coded = { Prim.hlevel (codes, e.the_row.coded) };

    ghost view = { λ t. t.node };

    ghost invariant = { λ t. IsTrue (is_normal (solid_of t.node)) };
}

impl Tree {
    /// The tree that holds no point.
    pub fn empty() -> Self
        ensures { solid_of result ≡ nothing }
    {
        Tree { node: Node::Empty }
    }

    /// The tree of one surface.
    pub fn leaf(triangles: Triangles) -> Self
        requires { 0 < length triangles }
        ensures { solid_of result ≡ surface triangles }
    {
        Tree {
            node: Node::Leaf(triangles),
        }
    }

    pub(crate) fn from_normal(node: Node) -> Self
        requires { IsTrue (is_normal (solid_of node)) }
        ensures { result ≡ node }
    {
        Tree { node }
    }

    /// The tree's node, lent.
    pub fn as_node(&self) -> &Node
        ensures same { result.now ≡ self.now }
        ensures normal { IsTrue (is_normal (solid_of self.now)) }
    {
        &self.node
    }

    /// The tree's node.
    pub fn into_node(self) -> Node
        ensures same { result ≡ self }
        ensures normal { IsTrue (is_normal (solid_of self)) }
    {
        let Tree { node } = self;
        node
    }
}

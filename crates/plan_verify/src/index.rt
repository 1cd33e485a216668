//! The sides of a layer in an index: a tree of rectangles round ever fewer sides, in which a search passes over the rectangles that
//! it doesn't come to.
ghost use Rattle.std.specs.Prelude.{◌≡◌, ◌<◌, ◌≤◌, ◌^◌, ◌++◌, length, All, IfOk, true, false, unsigned_abs};
ghost use Rattle.std.specs.List.{Any};
ghost use Rattle.scad_geom.specs.declared.half.Half.TheVariants.{Whole};
ghost use Rattle.scad_geom.specs.Limits.{coordinate_limit};
ghost use Rattle.scad_geom.specs.Within.{IsWithin, IsEdgeWithin};
ghost use Rattle.scad_geom.specs.Half.{meant};
ghost use Rattle.scad_geom.specs.Segment.{segments};
ghost use Rattle.scad_geom.specs.Winding.{wind};
ghost use Rattle.plan_verify.specs.Extent.{IsIn};
ghost use Rattle.plan_verify.specs.Index.{sides_in, extent_in, IsBoxed};
ghost use Rattle.plan_verify.specs.Trial.{IsTrial, IsApart, ComesNear};

use crate::extent::Extent;
use crate::trial::Trial;
use scad_geom::whole::plus;
use scad_geom::{Edge, Half, Pt, winding};
use std::alloc::{AllocError, Global};

/// Sides in their order, with a rectangle round them: a few, or the sides of two trees.
#[derive(Drop)]
pub enum Tree {
    Few(Extent, Vec<Edge>),
    Many(Extent, Box<Tree>, Box<Tree>),
}

/// The index of sides.
pub fn index_of(alloc: Global, sides: &[Edge]) -> Result<Tree, AllocError>
    ensures sides { IfOk result (λ t. sides_in t ≡ sides.now) }
    ensures boxed { IfOk result (λ t. IsBoxed t) }
{
    if sides.len() <= 8 {
        return few(alloc, sides);
    }
    let half = sides.len() / 2;
    let first = index_of(alloc, &sides[..half])?;
    let second = index_of(alloc, &sides[half..])?;
    many(alloc, first, second)
}

fn few(alloc: Global, sides: &[Edge]) -> Result<Tree, AllocError>
    requires { length sides.now ≤ 8 }
    ensures sides { IfOk result (λ t. sides_in t ≡ sides.now) }
    ensures boxed { IfOk result (λ t. IsBoxed t) }
{
    Ok(Tree::Few(extent_round(sides), Vec::from_slice(alloc, sides)?))
}

fn extent_round(sides: &[Edge]) -> Extent
    ensures { All (IsIn result) sides.now }
{
    let mut extent = match sides.first() {
        Some(side) => Extent::around(side),
        None => Extent {
            left: 0,
            right: 0,
            bottom: 0,
            top: 0,
        },
    };
    'sides: for side in sides {
        extent = Extent::round(extent, Extent::around(side));
    }
    extent
}

fn many(alloc: Global, first: Tree, second: Tree) -> Result<Tree, AllocError>
    requires first { IsBoxed first }
    requires second { IsBoxed second }
    ensures sides { IfOk result (λ t. sides_in t ≡ sides_in first ++ sides_in second) }
    ensures boxed { IfOk result (λ t. IsBoxed t) }
{
    let extent = Extent::round(extent_in(&first), extent_in(&second));
    let first = Box::new(alloc, first)?;
    let second = Box::new(alloc, second)?;
    Ok(Tree::Many(extent, first, second))
}

fn extent_in(tree: &Tree) -> Extent
    ensures { result ≡ extent_in tree.now }
{
    match tree {
        Tree::Few(extent, _) => *extent,
        Tree::Many(extent, _, _) => *extent,
    }
}

/// The winding number of the sides round a point.
pub fn turns(tree: &Tree, p: Pt) -> i64
    requires boxed { IsBoxed tree.now }
    requires sides { All (IsEdgeWithin coordinate_limit) (sides_in tree.now) }
    requires point { IsWithin coordinate_limit p }
    requires few { length (sides_in tree.now) < 2 ^ 63 }
    ensures value { result ≡ wind (meant Whole p) (segments (sides_in tree.now)) }
    ensures size { unsigned_abs result ≤ length (sides_in tree.now) }
{
    if extent_in(tree).is_off(p) {
        return 0;
    }
    match tree {
        Tree::Few(_, sides) => winding(sides, p, Half::Whole),
        Tree::Many(_, first, second) => plus(turns(first, p), turns(second, p)),
    }
}

/// Whether no side is near to any point of a move.
pub fn is_clear(tree: &Tree, trial: &Trial) -> bool
    requires boxed { IsBoxed tree.now }
    requires sides { All (IsEdgeWithin coordinate_limit) (sides_in tree.now) }
    requires trial { IsTrial trial.now }
    ensures clear { result ≡ true → All (IsApart trial.now) (sides_in tree.now) }
    ensures near { result ≡ false → Any (ComesNear trial.now) (sides_in tree.now) }
{
    if extent_in(tree).is_beyond(trial.reach) {
        return true;
    }
    match tree {
        Tree::Few(_, sides) => trial.is_clear_of(sides),
        Tree::Many(_, first, second) => {
            if is_clear(first, trial) {
                is_clear(second, trial)
            } else {
                false
            }
        }
    }
}

//! A shape made ready, its leaves put in and out, and its value.
ghost use Rattle.std.specs.Prelude.{◌≡◌, ◌<◌, ◌+◌, [], ◌∷◌, ℕ, Bool, false, not, length, OnOk, IfOk};
ghost use Rattle.scad_geom.specs.declared.shape.Shape.{Shape};
ghost use Rattle.scad_geom.specs.Shape.{shape_holds, has_items};
ghost use Rattle.slice_held.specs.Cells.{HasPlaceUnder};
ghost use Rattle.slice_held.specs.Layout.{blank, cells_of, cells_of_all};
ghost use Rattle.slice_held.specs.Held.{leaf_count, IsReady, IsBlank, Shows, SetsLeaf, Adds};

use crate::cell::Cell;
use crate::chain::{enter, set_leaf};
use crate::counts::{cell_at, holds};
use crate::kept_shape::Held;
use crate::leaf_cells::push_cell;
use scad_geom::Shape;
use std::alloc::{AllocError, Global};

impl Held {
    /// A shape with all leaves out. Those from a number on can't be put in.
    pub fn new(alloc: Global, shape: &Shape, leaves: usize) -> Result<Held, AllocError>
        ensures ready { IfOk result IsReady }
        ensures leaves { IfOk result (λ h. leaf_count h ≡ leaves) }
        ensures shows { IfOk result (Shows shape.now (λ leaf. false)) }
    {
        let mut held = Held {
            cells: Vec::new(alloc),
            lasts: vec![in alloc; 0; leaves]?,
            earlier: Vec::new(alloc),
        };
        held.add(shape, 0, true)?;
        Ok(held)
    }

    /// Puts a leaf in or out.
    pub fn set(&mut self, leaf: u32, inside: bool)
        requires ready { IsReady self.old }
        requires there { leaf < leaf_count self.old }
        ensures ready { IsReady self.new }
        ensures leaves { leaf_count self.new ≡ leaf_count self.old }
        ensures shows { SetsLeaf leaf inside self.old self.new }
    {
        set_leaf(
            &mut self.cells,
            &self.lasts,
            &self.earlier,
            leaf as usize,
            inside,
        );
    }

    /// Whether the shape holds a point that is inside the leaves that are in.
    pub fn value(&self) -> bool
        requires ready { IsReady self.now }
        ensures { (shape : Shape) (inside : ℕ → Bool) → Shows shape inside self.now
            → result ≡ shape_holds inside shape }
    {
        holds(&cell_at(&self.cells, 0))
    }

    // Adds the cells of a shape under the operation of a number, less one.
    #[cycle(add)]
    fn add(&mut self, shape: &Shape, parent: usize, raises: bool) -> Result<(), AllocError>
        requires blank { IsBlank self.old }
        requires place { HasPlaceUnder self.old.cells.items parent }
        ensures { OnOk result
            (Adds (cells_of parent raises (length self.old.cells.items) shape.now) self.old self.new) }
    {
        match shape {
            Shape::Empty => {
                self.push(blank(parent, raises, true, 0))?;
                Ok(())
            }
            Shape::Leaf(leaf) => {
                self.push(blank(parent, raises, true, *leaf as usize + 1))?;
                Ok(())
            }
            Shape::Union(members) => {
                let number = self.push(blank(parent, raises, true, 0))?;
                self.add_all(members, number, true)
            }
            Shape::Inter(members) => {
                let number = self.push(blank(parent, raises, has_none(members), 0))?;
                self.add_all(members, number, false)
            }
            Shape::Diff(first, rest) => {
                let number = self.push(blank(parent, raises, false, 0))?;
                self.add(first, number, false)?;
                self.add_all(rest, number, true)
            }
        }
    }

    #[cycle(add)]
    fn add_all(&mut self, members: &[Shape], parent: usize, raises: bool) -> Result<(), AllocError>
        requires blank { IsBlank self.old }
        requires place { HasPlaceUnder self.old.cells.items parent }
        ensures { OnOk result
            (Adds (cells_of_all parent raises (length self.old.cells.items) members.now) self.old self.new) }
    {
        'members: for member in members {
            self.add(member, parent, raises)?;
        }
        Ok(())
    }

    // Adds a cell that counts nothing yet, and returns its number, plus one.
    fn push(&mut self, cell: Cell) -> Result<usize, AllocError>
        requires blank { IsBlank self.old }
        requires place { HasPlaceUnder self.old.cells.items cell.parent }
        requires none { cell.count ≡ 0 }
        ensures number { IfOk result (λ n. n ≡ length self.old.cells.items + 1) }
        ensures adds { OnOk result (Adds (cell ∷ []) self.old self.new) }
    {
        let number = self.cells.len() + 1;
        let before = enter(&mut self.lasts, cell.leaf, number);
        self.earlier.push(before)?;
        push_cell(&mut self.cells, cell)?;
        Ok(number)
    }
}

fn blank(parent: usize, raises: bool, any: bool, leaf: usize) -> Cell
    ensures { result ≡ blank parent raises any leaf }
{
    Cell {
        parent,
        leaf,
        raises,
        any,
        count: 0,
    }
}

fn has_none(members: &[Shape]) -> bool
    ensures { result ≡ not (has_items members.now) }
{
    members.is_empty()
}

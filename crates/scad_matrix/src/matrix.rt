//! Matrices, and why a product may be none.

use scad_num::Num;

/// A row: what it takes of each coordinate, and what it adds.
#[derive(Clone, Copy)]
pub struct Row {
    pub x: Num,
    pub y: Num,
    pub z: Num,
    pub shift: Num,
}

/// A matrix: the rows that give the placed x, y and z, twelve numbers together.
#[derive(Clone, Copy)]
pub struct Matrix {
    pub x: Row,
    pub y: Row,
    pub z: Row,
}

/// Why there is no product.
#[derive(Clone, Copy)]
pub enum MatrixFault {
    /// An entry passes 10^15 millionths in size, or a placed coordinate 1,000,000 micrometres.
    Range = 1,
}

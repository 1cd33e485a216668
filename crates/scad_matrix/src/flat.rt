//! Matrices inside extrusions, and the points of profiles.
ghost use Rattle.std.specs.Prelude.{◌≡◌};
ghost use Rattle.scad_matrix.specs.Matrix.{flattened, placed_profile};

use crate::matrix::{Matrix, MatrixFault, Row};
use crate::products::entry;
use scad_num::{Num, ONE};

impl Matrix {
    /// The matrix as it acts inside an extrusion: by its x and y rows and columns alone, z left as it is.
    pub fn flat(&self) -> Matrix
        ensures { result ≡ flattened self.now }
    {
        let (o, i) = (Num::within(0), Num::within(ONE));
        Matrix {
            x: Row { z: o, ..self.x },
            y: Row { z: o, ..self.y },
            z: Row {
                x: o,
                y: o,
                z: i,
                shift: o,
            },
        }
    }

    /// The placed point of a profile, whose z is 0: each number the exact sum of products, rounded once.
    /// Range exactly where one passes 10^15 millionths in size.
    pub fn profile(&self, x: Num, y: Num) -> Result<(Num, Num), MatrixFault>
        ensures { result ≡ placed_profile self.now x y }
    {
        let o = Num::within(0);
        let across = entry(&self.x, x, y, o, ONE)?;
        let along = entry(&self.y, x, y, o, ONE)?;
        Ok((across, along))
    }
}

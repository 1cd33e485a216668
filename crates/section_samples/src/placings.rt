//! Matrices of the samples.

use scad_matrix::{Axis, Matrix, mirror, of_rows, scale, translate, turn};
use scad_num::Num;

/// The number of so many thousandths.
pub(crate) fn number(thousandths: i32) -> Num {
    Num::within(i64::from(thousandths) * 1_000)
}

/// A reflection, a shear, a scaling that turns solids inside out, a rotation about two axes, and the identity.
pub(crate) fn placing(i: u32) -> Option<Matrix> {
    let [o, i1] = [number(0), number(1_000)];
    match i {
        0 => translate(number(2_500), o, number(6_000))
            .compose(&mirror(i1, number(2_000), number(3_000)))
            .ok(),
        1 => Some(sheared()),
        2 => translate(o, number(-1_750), number(1_234))
            .compose(&scale(number(1_500), number(-750), number(2_000)))
            .ok(),
        3 => turn(Axis::X, 33_000).compose(&turn(Axis::Z, 17_500)).ok(),
        _ => Some(translate(o, o, o)),
    }
}

fn sheared() -> Matrix {
    let [o, i, s, t] = [number(0), number(1_000), number(300), number(-2_000)];
    of_rows(&[
        i,
        s,
        number(100),
        o,
        o,
        i,
        number(250),
        t,
        number(200),
        o,
        i,
        number(3_000),
    ])
}

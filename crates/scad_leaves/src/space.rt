//! Where a statement's shapes stand.

ghost use Rattle.std.specs.Prelude.{◌≡◌};
ghost use Rattle.scad_leaves.specs.Where.{unmoved, at_first, inside_linear, moved, turned_at};

use scad_fault::Place;
use scad_matrix::{Matrix, MatrixFault, translate};
use scad_modules::Resolution;
use scad_num::Num;

/// How a profile is turned round the z axis.
#[derive(Clone, Copy)]
pub struct Turning {
    /// Places the profile.
    pub profile: Matrix,
    /// Where the word `rotate_extrude` stands.
    pub word: Place,
    /// Of the call of `rotate_extrude`.
    pub resolution: Resolution,
}

/// Solids stand outside of every extrusion, flat shapes inside one.
#[derive(Clone, Copy)]
pub enum Space {
    Solid,
    /// Inside `linear_extrude`: the height, centred or not.
    Linear(Num, bool),
    /// Inside `rotate_extrude`.
    Turned(Turning),
}

/// Where a statement's shapes stand.
#[derive(Clone, Copy)]
pub struct Where {
    /// The whole matrix, which places leaves.
    pub whole: Matrix,
    pub space: Space,
}

fn unmoved() -> Matrix
    ensures { result ≡ unmoved }
{
    let zero = Num::within(0);
    translate(zero, zero, zero)
}

/// Where the statements of a program stand: solids, which nothing moves.
pub fn at_first() -> Where
    ensures { result ≡ at_first }
{
    Where {
        whole: unmoved(),
        space: Space::Solid,
    }
}

/// Inside a `linear_extrude` of this height in millimetres, centred or not.
#[tactic(auto, unfolding(crate::specs::Where::inside_linear))]
pub fn inside_linear(whole: &Matrix, height: (Num, bool)) -> Where
    ensures { result ≡ inside_linear whole.now height }
{
    Where {
        whole: *whole,
        space: Space::Linear(height.0, height.1),
    }
}

/// Inside a `rotate_extrude` at a place, whose profile isn't moved yet.
pub fn turned_at(word: Place, resolution: Resolution) -> Turning
    ensures { result ≡ turned_at word resolution }
{
    Turning {
        profile: unmoved(),
        word,
        resolution,
    }
}

/// A transformation by a matrix. Inside an extrusion it acts by its x and y rows and columns alone, and
/// inside `rotate_extrude` apart from the whole matrix.
#[tactic(auto, unfolding(crate::specs::Where::moved))]
pub(crate) fn moved(w: &Where, m: &Matrix) -> Result<Where, MatrixFault>
    ensures { result ≡ moved w.now m.now }
{
    let whole = &w.whole;
    match w.space {
        Space::Solid => Ok(Where {
            whole: whole.compose(m)?,
            space: Space::Solid,
        }),
        Space::Linear(height, center) => Ok(Where {
            whole: whole.compose(&m.flat())?,
            space: Space::Linear(height, center),
        }),
        Space::Turned(turning) => Ok(Where {
            whole: *whole,
            space: Space::Turned(Turning {
                profile: turning.profile.compose(&m.flat())?,
                ..turning
            }),
        }),
    }
}

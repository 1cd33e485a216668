//! The layers from the height of a move on.
ghost use Rattle.std.specs.Prelude.{◌≡◌, ◌≤◌, All, true, false};
ghost use Rattle.gcode_text.specs.Limits.{width_limit};
ghost use Rattle.plan_verify.specs.Fields.{IsSound, StaysInFields};
ghost use Rattle.plan_verify.specs.Limits.{IsMoveWithin};

use crate::field::{Field, stays};
use gcode_text::Move;

/// As `stays`. Where the layers ascend, as in each file that is read, the layer at the move's height is found by halves; all
/// of them are looked at only where the move doesn't stay inside.
#[tactic(auto, using(crate::proofs::Layers::stays_behind))]
pub fn stays_by_height(fields: &[Field], m: &Move, line_width: u32) -> bool
    requires fields { All IsSound fields.now }
    requires least { 100 ≤ line_width }
    requires most { line_width ≤ width_limit }
    requires within { IsMoveWithin m.now }
    ensures stays { result ≡ true → StaysInFields fields.now line_width m.now }
    ensures fails { result ≡ false → StaysInFields fields.now line_width m.now → ⊥ }
{
    let at = fields.partition_point(|field| i64::from(field.z) < i64::from(m.from.z));
    if stays(&fields[at..], m, line_width) {
        return true;
    }
    stays(fields, m, line_width)
}

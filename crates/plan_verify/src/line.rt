//! The lines of a program.
ghost use Rattle.std.specs.Prelude.{◌≡◌, ◌<◌, ◌∷◌, [], length, MatchOption, IfSome};
ghost use Rattle.gcode_text.specs.Reading.{lines};

use text_scan::first_at;

/// The first line, without its line feed, and what stands behind the line feed, where there is one.
#[tactic(auto, using(text_scan::proofs::Pieces::one_piece))]
pub fn first_line(text: &[u8]) -> (&[u8], Option<&[u8]>)
    ensures line { MatchOption result.1 (lines text.now ≡ result.0.now ∷ [])
        (λ rest. lines text.now ≡ result.0.now ∷ lines rest.now) }
    ensures shorter { IfSome result.1 (λ rest. length rest.now < length text.now) }
{
    let at = first_at(text, b'\n');
    if at < text.len() {
        (&text[..at], Some(&text[at + 1..]))
    } else {
        (text, None)
    }
}

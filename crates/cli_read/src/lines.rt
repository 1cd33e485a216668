//! The lines of a text.
ghost use Rattle.std.specs.Prelude.{◌≡◌, ◌<◌, ◌∷◌, ◌==◌, [], length, MatchOption};
ghost use Rattle.std.specs.Str.Lines.{lines, strip_carriage_return};
ghost use Rattle.cli_read.specs.Reading.{Gives, fixed_at};

use crate::fault::CliFault;
use text_scan::first_at;

/// The first line, without its end (LF or CRLF; the last line may have neither), and the text behind it.
pub fn first_line(text: &[u8]) -> Option<(&[u8], &[u8])>
    ensures line { MatchOption result (lines text.now ≡ []) (λ r. lines text.now ≡ r.0.now ∷ lines r.1.now) }
    ensures shorter { MatchOption result (text.now ≡ []) (λ r. length r.1.now < length text.now) }
{
    if text.is_empty() {
        return None;
    }
    let at = first_at(text, b'\n');
    if at < text.len() {
        Some((without_return(&text[..at]), &text[at + 1..]))
    } else {
        Some((text, &text[at..]))
    }
}

fn without_return(line: &[u8]) -> &[u8]
    ensures { result.now ≡ strip_carriage_return line.now }
{
    match line {
        [front @ .., b'\r'] => front,
        _ => line,
    }
}

/// The text behind its first line, which is this one, and has number `n`.
pub fn fixed_line<'a>(n: u64, wanted: &[u8], text: &'a [u8]) -> Result<&'a [u8], CliFault>
    ensures { Gives (fixed_at n wanted.now (lines text.now)) (λ rest. lines rest.now) result }
{
    match first_line(text) {
        Some((line, rest)) => {
            if line == wanted {
                Ok(rest)
            } else {
                Err(CliFault::BadLine(n))
            }
        }
        None => Err(CliFault::BadLine(n)),
    }
}

//! The lines in front of the layers.
ghost use Rattle.std.specs.Str.Lines.{lines};
ghost use Rattle.cli_read.specs.Reading.{Gives, behind, count_in, count_at, head_at};
ghost use Rattle.cli_read.specs.Form.{count_start};

use crate::fault::CliFault;
use crate::lines::{first_line, fixed_line};
use crate::number::count_at;
use crate::words::behind_count_start;

/// The number of layers that the head of a text says, and the text behind the head.
#[tactic(auto, unfolding(crate::specs::Reading::head_at))]
pub fn head_of(text: &[u8]) -> Result<(u32, &[u8]), CliFault>
    ensures { Gives (head_at (lines text.now)) (λ h. (h.0, lines h.1.now)) result }
{
    let rest = fixed_line(1, b"$$HEADERSTART", text)?;
    let rest = fixed_line(2, b"$$ASCII", rest)?;
    let rest = fixed_line(3, b"$$UNITS/0.001", rest)?;
    let rest = fixed_line(4, b"$$VERSION/200", rest)?;
    let (count, rest) = count_line(5, rest)?;
    let rest = fixed_line(6, b"$$HEADEREND", rest)?;
    let rest = fixed_line(7, b"$$GEOMETRYSTART", rest)?;
    Ok((count, rest))
}

fn count_line(n: u64, text: &[u8]) -> Result<(u32, &[u8]), CliFault>
    ensures { Gives (count_at n (lines text.now)) (λ c. (c.0, lines c.1.now)) result }
{
    match first_line(text) {
        Some((line, rest)) => Ok((count_in(n, line)?, rest)),
        None => Err(CliFault::BadLine(n)),
    }
}

fn count_in(n: u64, line: &[u8]) -> Result<u32, CliFault>
    ensures { Gives (count_in n (behind count_start line.now)) (λ c. c) result }
{
    match behind_count_start(line) {
        Some(text) => count_at(n, text),
        None => Err(CliFault::BadLine(n)),
    }
}

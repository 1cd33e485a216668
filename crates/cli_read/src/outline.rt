//! The line of an outline.
ghost use Rattle.cli_read.specs.Reading.{Gives, words, outline_at};

use crate::fault::CliFault;
use crate::number::{count_at, direction_at};
use crate::points::{closed_at, points_at};
use crate::words::{first_word, next_word};
use scad_geom::Loop;
use std::alloc::Global;

// dir,n,x1,y1,..
/// The outline that the words of a polyline in line `n` give, or the fault of that line.
#[tactic(auto, unfolding(crate::specs::Reading::outline_at))]
pub fn outline_at(alloc: Global, n: u64, text: &[u8]) -> Result<Loop, CliFault>
    ensures { Gives (outline_at n (words text.now)) (λ l. l) result }
{
    let (direction, rest) = first_word(text);
    match next_word(rest) {
        Some((said, rest)) => {
            direction_at(n, direction)?;
            let said = count_at(n, said)?;
            let points = points_at(alloc, n, rest)?;
            closed_at(n, said, points)
        }
        None => Err(CliFault::BadLine(n)),
    }
}

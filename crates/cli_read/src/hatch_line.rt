//! The line of hatches.
ghost use Rattle.cli_read.specs.Reading.{Gives, words, some_at, paired_at, hatched, hatches_at};

use crate::fault::CliFault;
use crate::layers::Hatches;
use crate::number::some_at;
use crate::points::points_at;
use crate::words::first_word;
use scad_geom::{Edge, Pt};
use std::alloc::Global;

// n,sx,sy,ex,ey,..
/// The hatches that the words of line `n` give, or the fault of that line.
#[tactic(auto, unfolding(crate::specs::Reading::hatches_at))]
pub fn hatches_at(alloc: Global, n: u64, text: &[u8]) -> Result<Hatches, CliFault>
    ensures { Gives (hatches_at n (words text.now)) (λ h. h) result }
{
    let (said, rest) = first_word(text);
    let said = some_at(n, said)?;
    let points = points_at(alloc, n, rest)?;
    let hatches = paired_at(alloc, n, &points)?;
    hatched(said, hatches)
}

// Each hatch goes from one point to the next.
fn paired_at(alloc: Global, n: u64, points: &[Pt]) -> Result<Vec<Edge>, CliFault>
    ensures { Gives (paired_at n points.now) (λ v. v.items) result }
{
    let mut hatches = Vec::new(alloc);
    let mut rest = points;
    'pairs: while let Some((a, behind)) = rest.split_first() {
        let Some((b, behind)) = behind.split_first() else {
            return Err(CliFault::BadLine(n));
        };
        hatches.push(Edge { a: *a, b: *b })?;
        rest = behind;
    }
    Ok(hatches)
}

// As many hatches as are said.
fn hatched(said: u32, hatches: Vec<Edge>) -> Result<Hatches, CliFault>
    ensures { Gives (hatched said hatches.items) (λ h. h) result }
{
    if u64::from(said) == hatches.len() as u64 {
        Ok(Hatches::from_vec(hatches))
    } else {
        Err(CliFault::CountDiffers(u64::from(said), hatches.len() as u64))
    }
}

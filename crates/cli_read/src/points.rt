//! The points of an outline.
ghost use Rattle.std.specs.Prelude.{◌≡◌, ◌<◌, length};
ghost use Rattle.cli_read.specs.Reading.{Gives, words_behind, point_at, points_at, ends_meet, joined_at, closed_at};

use crate::fault::CliFault;
use crate::number::coordinate_at;
use crate::words::next_word;
use scad_geom::{Loop, Pt};
use std::alloc::Global;

/// The points of the words behind the first comma of `text`, in line `n`.
pub fn points_at(alloc: Global, n: u64, text: &[u8]) -> Result<Vec<Pt>, CliFault>
    ensures { Gives (points_at n (words_behind text.now)) (λ v. v.items) result }
{
    let mut points = Vec::new(alloc);
    let mut rest = text;
    'points: while let Some((x, behind)) = next_word(rest) {
        let Some((y, behind)) = next_word(behind) else {
            return Err(CliFault::BadLine(n));
        };
        points.push(point_at(n, x, y)?)?;
        rest = behind;
    }
    Ok(points)
}

#[tactic(auto, unfolding(crate::specs::Reading::point_at))]
fn point_at(n: u64, x: &[u8], y: &[u8]) -> Result<Pt, CliFault>
    ensures { Gives (point_at n x.now y.now) (λ p. p) result }
{
    Ok(Pt {
        x: coordinate_at(n, x)?,
        y: coordinate_at(n, y)?,
    })
}

/// The outline of line `n`, of which so many points are said.
#[tactic(auto, unfolding(crate::specs::Reading::closed_at))]
pub fn closed_at(n: u64, said: u32, points: Vec<Pt>) -> Result<Loop, CliFault>
    ensures { Gives (closed_at n said points.items) (λ l. l) result }
{
    if u64::from(said) == points.len() as u64 {
        joined_at(n, points)
    } else {
        Err(CliFault::CountDiffers(u64::from(said), points.len() as u64))
    }
}

fn joined_at(n: u64, points: Vec<Pt>) -> Result<Loop, CliFault>
    ensures { Gives (joined_at n points.items) (λ l. l) result }
{
    let mut points = points;
    let count = points.len();
    if count >= 4 && ends_meet(&points) {
        points.truncate(count - 1);
        Ok(Loop::from_vec(points))
    } else {
        Err(CliFault::OpenLoop(n))
    }
}

fn ends_meet(points: &[Pt]) -> bool
    requires { 0 < length points.now }
    ensures { result ≡ ends_meet points.now }
{
    let first = points[0];
    let last = points[points.len() - 1];
    first.x == last.x && first.y == last.y
}

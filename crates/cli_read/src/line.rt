//! A line of a layer.
ghost use Rattle.std.specs.Prelude.{◌≡◌};
ghost use Rattle.std.specs.Option.{option_map};
ghost use Rattle.cli_read.specs.Reading.{Gives, is_above, height_at, drawn_by, drawn_at, said_by, said_at};

use crate::fault::CliFault;
use crate::hatch_line::hatches_at;
use crate::layers::Hatches;
use crate::number::count_at;
use crate::outline::outline_at;
use crate::words::{behind_hatches_start, behind_layer_start, behind_polyline_start};
use scad_geom::Loop;
use std::alloc::Global;

/// What a line says.
#[derive(Drop)]
pub enum Said {
    /// A layer begins, with this height.
    Height(u32),
    /// An outline of the layer at hand.
    Outline(Loop),
    /// Hatches of the layer at hand.
    Hatches(Hatches),
}

/// What line `n` says behind a layer of the last height.
#[tactic(auto, unfolding(crate::specs::Reading::said_at))]
pub fn said_at(alloc: Global, n: u64, last: Option<u32>, line: &[u8]) -> Result<Said, CliFault>
    ensures { Gives (said_at n last line.now) (λ s. s) result }
{
    said_by(alloc, n, last, behind_layer_start(line), line)
}

fn said_by(
    alloc: Global,
    n: u64,
    last: Option<u32>,
    height: Option<&[u8]>,
    line: &[u8],
) -> Result<Said, CliFault>
    ensures { Gives (said_by n last (option_map (λ t. t.now) height.entry) line.now) (λ s. s) result }
{
    match (height, last) {
        (Some(text), _) => Ok(Said::Height(height_at(n, last, text)?)),
        (None, Some(_)) => drawn_at(alloc, n, line),
        (None, None) => Err(CliFault::BadLine(n)),
    }
}

#[tactic(auto, unfolding(crate::specs::Reading::drawn_at))]
fn drawn_at(alloc: Global, n: u64, line: &[u8]) -> Result<Said, CliFault>
    ensures { Gives (drawn_at n line.now) (λ s. s) result }
{
    drawn_by(
        alloc,
        n,
        behind_polyline_start(line),
        behind_hatches_start(line),
    )
}

fn drawn_by(
    alloc: Global,
    n: u64,
    outline: Option<&[u8]>,
    hatches: Option<&[u8]>,
) -> Result<Said, CliFault>
    ensures { Gives (drawn_by n (option_map (λ t. t.now) outline.entry) (option_map (λ t. t.now) hatches.entry)) (λ s. s) result }
{
    match (outline, hatches) {
        (Some(text), _) => Ok(Said::Outline(outline_at(alloc, n, text)?)),
        (None, Some(text)) => Ok(Said::Hatches(hatches_at(alloc, n, text)?)),
        (None, None) => Err(CliFault::BadLine(n)),
    }
}

#[tactic(auto, unfolding(crate::specs::Reading::height_at))]
fn height_at(n: u64, last: Option<u32>, text: &[u8]) -> Result<u32, CliFault>
    ensures { Gives (height_at n last text.now) (λ z. z) result }
{
    let z = count_at(n, text)?;
    if is_above(last, z) {
        Ok(z)
    } else {
        Err(CliFault::BadLine(n))
    }
}

fn is_above(last: Option<u32>, z: u32) -> bool
    ensures { result ≡ is_above last z }
{
    match last {
        Some(last) => last < z,
        None => true,
    }
}

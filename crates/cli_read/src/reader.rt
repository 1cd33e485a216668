//! A whole text.
ghost use Rattle.std.specs.Prelude.{List, Ok, IfOk};
ghost use Rattle.cli_text.specs.Cli.{Layer};
ghost use Rattle.cli_read.specs.Form.{Reads};
ghost use Rattle.cli_read.specs.Reading.{Gives, counted, reading};
ghost use Rattle.cli_read.specs.View.{seen, layers_of};

use crate::fault::CliFault;
use crate::geometry::geometry_of;
use crate::head::head_of;
use crate::layers::{Cli, CliLayer, CliLayers};
use std::alloc::Global;

/// The layers that a text says, in the ASCII form of the Common Layer Interface 2.0. Lines end with LF or CRLF, the last
/// perhaps with neither. The unit is 0.001 mm; all numbers are whole, coordinates of at most 1,100,000 in size, heights
/// strictly ascending, and other numbers below 2^32. An outline ends with its first point and has four points at least.
/// Otherwise the first line with a fault is answered; the number of layers is judged at the end.
pub fn read(alloc: Global, bytes: &[u8]) -> Result<Cli, CliFault>
    // What is read is what the text says.
    ensures said { IfOk result (λ cli. Reads bytes.now (layers_of cli)) }
    // What the text says is read, unless memory runs out.
    ensures whole { (layers : List Layer) → Reads bytes.now layers → Gives (Ok layers) layers_of result }
    // Which fault it is.
    ensures exact { Gives (reading bytes.now) layers_of result }
{
    all_of(alloc, bytes)
}

#[tactic(auto, unfolding(crate::specs::Reading::reading))]
fn all_of(alloc: Global, bytes: &[u8]) -> Result<Cli, CliFault>
    ensures { Gives (reading bytes.now) layers_of result }
{
    let (said, rest) = head_of(bytes)?;
    let layers = geometry_of(alloc, rest)?;
    counted(said, layers)
}

fn counted(said: u32, layers: Vec<CliLayer>) -> Result<Cli, CliFault>
    ensures { Gives (counted said (seen layers.items)) layers_of result }
{
    if u64::from(said) == layers.len() as u64 {
        Ok(Cli {
            layers: CliLayers::from_vec(layers),
        })
    } else {
        Err(CliFault::CountDiffers(u64::from(said), layers.len() as u64))
    }
}

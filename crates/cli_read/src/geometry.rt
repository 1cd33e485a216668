//! The lines of all layers.
ghost use Rattle.std.specs.Prelude.{◌≡◌, ◌<◌, ◌+◌, ◌^◌, [], IfOk, bytes_eq};
ghost use Rattle.std.specs.Str.Lines.{lines};
ghost use Rattle.cli_read.specs.Form.{end_line};
ghost use Rattle.scad_base.specs.Results.{and_then};
ghost use Rattle.cli_read.specs.View.{seen, built};
ghost use Rattle.cli_read.specs.Reading.{Gives, Geometry, nothing, layers_at, ended_at, onto, last_height};

use crate::fault::CliFault;
use crate::layers::{CliLayer, Hatches, Loops};
use crate::line::{Said, said_at};
use crate::lines::first_line;
use scad_geom::{Edge, Loop};
use std::alloc::{AllocError, Global};

/// Layers that are read: those that are whole, the height of the one at hand, and its outlines and hatches so far.
#[derive(Drop)]
struct Building {
    whole: Vec<CliLayer>,
    last: Option<u32>,
    outlines: Vec<Loop>,
    hatches: Vec<Edge>,
}

/// The layers of the lines of a text, the first of which has number 8.
pub fn geometry_of(alloc: Global, text: &[u8]) -> Result<Vec<CliLayer>, CliFault>
    ensures { Gives (layers_at (lines text.now)) (λ v. seen v.items) result }
{
    let mut building = begun(alloc);
    let mut rest = text;
    let mut n: u64 = 7;
    'lines: while let Some((line, behind)) = first_line(rest) {
        n += 1;
        if is_end(line) {
            return ended(building, n, behind);
        }
        let said = said_at(alloc, n, building.last, line)?;
        building = taken(alloc, building, said)?;
        rest = behind;
    }
    Err(CliFault::BadLine(n + 1))
}

fn begun(alloc: Global) -> Building
    ensures built { (more : Geometry) → built result more ≡ more.layers }
    ensures last { result.last ≡ None }
{
    Building {
        whole: Vec::new(alloc),
        last: None,
        outlines: Vec::new(alloc),
        hatches: Vec::new(alloc),
    }
}

#[tactic(auto, unfolding(crate::specs::Form::end_line))]
fn is_end(line: &[u8]) -> bool
    ensures { result ≡ bytes_eq line.now end_line }
{
    line == b"$$GEOMETRYEND".as_slice()
}

fn taken(alloc: Global, building: Building, said: Said) -> Result<Building, AllocError>
    ensures built { IfOk result (λ b. (more : Geometry) → built b more ≡ built building (onto said more)) }
    ensures last { IfOk result (λ b. b.last ≡ last_height said building.last) }
{
    match said {
        Said::Height(z) => Ok(Building {
            whole: closed(building)?,
            last: Some(z),
            outlines: Vec::new(alloc),
            hatches: Vec::new(alloc),
        }),
        Said::Outline(outline) => {
            let mut building = building;
            building.outlines.push(outline)?;
            Ok(building)
        }
        Said::Hatches(hatches) => {
            let mut building = building;
            building.hatches.extend_from_slice(hatches.as_slice())?;
            Ok(building)
        }
    }
}

// The layers with the one at hand.
fn closed(building: Building) -> Result<Vec<CliLayer>, AllocError>
    ensures { IfOk result (λ v. seen v.items ≡ built building nothing) }
{
    let Building {
        whole,
        last,
        outlines,
        hatches,
    } = building;
    let mut layers = whole;
    if let Some(z) = last {
        layers.push(CliLayer {
            z,
            loops: Loops::from_vec(outlines),
            hatches: Hatches::from_vec(hatches),
        })?;
    }
    Ok(layers)
}

// The end is line `n`.
fn ended(building: Building, n: u64, behind: &[u8]) -> Result<Vec<CliLayer>, CliFault>
    requires { n + 1 < 2 ^ 64 }
    ensures { Gives (and_then (ended_at n (lines behind.now)) (λ more. Ok (built building more))) (λ v. seen v.items) result }
{
    match first_line(behind) {
        None => Ok(closed(building)?),
        Some(_) => Err(CliFault::BadLine(n + 1)),
    }
}

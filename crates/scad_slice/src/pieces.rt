//! The heads and the ends of the files.
ghost use Rattle.std.specs.Prelude.{◌≡◌, ◌<◌, ◌∷◌, [], true, length, IfOk};
ghost use Rattle.scad_io.specs.declared.desk.Out.TheVariants.{Cli, Gcode};
ghost use Rattle.scad_script.specs.Steps.{Sends};
ghost use Rattle.scad_script.specs.Script.{first};
ghost use Rattle.scad_script.specs.Play.{Carries, IsThere};
ghost use Rattle.scad_script.specs.Run.{Sound};
ghost use Rattle.scad_script.specs.Departure.{Keeps};
ghost use Rattle.cli_text.specs.Cli as outline;
ghost use Rattle.gcode_text.specs.Gcode as program;
ghost use Rattle.slice_work.specs.Script.{AreThere};
ghost use Rattle.scad_slice.specs.Script.{heads, tails, HaveSizes};

use crate::summary::Sizes;
use scad_io::{Desk, Out};
use scad_script::{Stop, send};
use scad_words::Settings;
use slice_work::Want;
use std::alloc::Global;

/// Writes the head of each file, that of the outlines first: how long they are.
pub fn send_heads<D: Desk>(
    alloc: Global,
    settings: &Settings,
    want: Want,
    count: u32,
    desk: &mut D,
) -> Result<Sizes, Stop>
    requires sound { Sound (D.view desk.old) }
    requires there { AreThere want (D.view desk.old) }

    ensures carries { Carries (first (heads want settings.now count)) result (D.view desk.old) (D.view desk.new) }
    ensures sizes { IfOk result (HaveSizes (heads want settings.now count)) }
    ensures kept { Keeps D.files D.view D.faults desk.old desk.new result }
{
    let cli = send_outline_head(alloc, count, desk)?;
    match want {
        Want::Outlines => Ok(Sizes { cli, gcode: 0 }),
        Want::Plan => {
            let gcode = send_program_head(alloc, settings, desk)?;
            Ok(Sizes { cli, gcode })
        }
    }
}

/// Writes the end of each file, that of the outlines first: how long they are.
pub fn send_tails<D: Desk>(alloc: Global, want: Want, desk: &mut D) -> Result<Sizes, Stop>
    requires sound { Sound (D.view desk.old) }
    requires there { AreThere want (D.view desk.old) }

    ensures carries { Carries (first (tails want)) result (D.view desk.old) (D.view desk.new) }
    ensures sizes { IfOk result (HaveSizes (tails want)) }
    ensures kept { Keeps D.files D.view D.faults desk.old desk.new result }
{
    let cli = send_outline_end(alloc, desk)?;
    match want {
        Want::Outlines => Ok(Sizes { cli, gcode: 0 }),
        Want::Plan => {
            let gcode = send_program_end(alloc, desk)?;
            Ok(Sizes { cli, gcode })
        }
    }
}

fn send_outline_head<D: Desk>(alloc: Global, count: u32, desk: &mut D) -> Result<u64, Stop>
    requires sound { Sound (D.view desk.old) }
    requires made { (D.view desk.old).cli.created ≡ true }

    ensures carries { Carries (first (Sends Cli (outline.head count) ∷ [])) result (D.view desk.old) (D.view desk.new) }
    ensures size { IfOk result (λ n. n ≡ length (outline.head count)) }
    ensures kept { Keeps D.files D.view D.faults desk.old desk.new result }
{
    let mut text = Vec::new(alloc);
    cli_text::write_head(&mut text, count)?;
    send_text(desk, Out::Cli, &text)
}

fn send_program_head<D: Desk>(alloc: Global, settings: &Settings, desk: &mut D) -> Result<u64, Stop>
    requires sound { Sound (D.view desk.old) }
    requires made { (D.view desk.old).gcode.created ≡ true }

    ensures carries { Carries (first (Sends Gcode (program.head settings.now.hot_end settings.now.bed) ∷ []))
        result (D.view desk.old) (D.view desk.new) }
    ensures size { IfOk result (λ n. n ≡ length (program.head settings.now.hot_end settings.now.bed)) }
    ensures kept { Keeps D.files D.view D.faults desk.old desk.new result }
{
    let mut text = Vec::new(alloc);
    gcode_text::write_head(&mut text, settings.hot_end, settings.bed)?;
    send_text(desk, Out::Gcode, &text)
}

fn send_outline_end<D: Desk>(alloc: Global, desk: &mut D) -> Result<u64, Stop>
    requires sound { Sound (D.view desk.old) }
    requires made { (D.view desk.old).cli.created ≡ true }

    ensures carries { Carries (first (Sends Cli outline.geometry_end ∷ [])) result (D.view desk.old) (D.view desk.new) }
    ensures size { IfOk result (λ n. n ≡ length outline.geometry_end) }
    ensures kept { Keeps D.files D.view D.faults desk.old desk.new result }
{
    let mut text = Vec::new(alloc);
    cli_text::write_end(&mut text)?;
    send_text(desk, Out::Cli, &text)
}

fn send_program_end<D: Desk>(alloc: Global, desk: &mut D) -> Result<u64, Stop>
    requires sound { Sound (D.view desk.old) }
    requires made { (D.view desk.old).gcode.created ≡ true }

    ensures carries { Carries (first (Sends Gcode program.end ∷ [])) result (D.view desk.old) (D.view desk.new) }
    ensures size { IfOk result (λ n. n ≡ length program.end) }
    ensures kept { Keeps D.files D.view D.faults desk.old desk.new result }
{
    let mut text = Vec::new(alloc);
    gcode_text::write_end(&mut text)?;
    send_text(desk, Out::Gcode, &text)
}

// Writes a text to an output: how long it is.
fn send_text<D: Desk>(desk: &mut D, out: Out, text: &[u8]) -> Result<u64, Stop>
    requires sound { Sound (D.view desk.old) }
    requires made { IsThere out (D.view desk.old) }

    ensures carries { Carries (first (Sends out text.now ∷ [])) result (D.view desk.old) (D.view desk.new) }
    ensures size { IfOk result (λ n. n ≡ length text.now) }
    ensures kept { Keeps D.files D.view D.faults desk.old desk.new result }
{
    send(desk, out, text)?;
    Ok(text.len() as u64)
}

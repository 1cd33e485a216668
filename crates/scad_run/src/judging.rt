//! The work of `verify`: outlines and a printing program are read, and the program is judged by the outlines.
ghost use Rattle.std.specs.Prelude.{◌≡◌, Ok, IfOk};
ghost use Rattle.scad_script.specs.Script.{ends};
ghost use Rattle.scad_script.specs.Run.{Sound};
ghost use Rattle.scad_script.specs.Departure.{Keeps, Leaves};
ghost use Rattle.cli_read.specs.View.{layers_of};
ghost use Rattle.plan_verify.specs.Stays.{AreWithin};
ghost use Rattle.verdict_laws.specs.Opinion.{Opinion, Opinions, AreRight, IsWidth, Answers};
ghost use Rattle.scad_run.specs.Judging.{opinion_end, judgement, judged_end, inside_line};
ghost use Rattle.scad_run.specs.Playing.{IsEnd, Judges, LoadsWhole, IsRefusedBy};

use cli_read::{Cli, CliFault, read};
use plan_verify::laws::files_are_within;
use plan_verify::{Verdict, VerifyFault, check};
use scad_fault::{BadKind, Budget, Text};
use scad_io::Desk;
use scad_script::{Input, Refusal, Stop, load};
use std::alloc::{AllocError, Global};
use text_scan::push_number;

/// The most bytes that a file may have that is judged.
const FILE_LIMIT: usize = 268_435_456;

/// Reads the outlines and then the program, and judges this by those: the last line, or why it stopped.
pub fn judge<D: Desk>(
    alloc: Global,
    outlines: &str,
    program: &str,
    line_width: u32,
    desk: &mut D,
) -> Result<Text, Stop>
    requires sound { Sound (D.view desk.old) }
    requires width { IsWidth line_width }

    ensures judges { Judges (record { outlines = outlines.now; program = program.now }) line_width (D.files desk.old)
        result (D.view desk.old) (D.view desk.new) }
    ensures leaves { Leaves D.files D.faults desk.old desk.new result }
{
    let outlines = load_whole(alloc, outlines, desk)?;
    let program = load_whole(alloc, program, desk)?;
    judged(alloc, outlines.as_slice(), program.as_slice(), line_width)
}

/// Reads a file that is to be judged, or says that it is too long.
fn load_whole<D: Desk>(alloc: Global, name: &str, desk: &mut D) -> Result<Text, Stop>
    requires sound { Sound (D.view desk.old) }

    ensures loads { LoadsWhole name.now (D.files desk.old) result (D.view desk.old) (D.view desk.new) }
    ensures kept { Keeps D.files D.view D.faults desk.old desk.new result }
{
    match load(alloc, name, Some(FILE_LIMIT), desk)? {
        Input::Whole(text) => Ok(text),
        Input::Long => Err(Stop::Ends(Refusal::Over(Budget::file_long()))),
    }
}

/// Reads the layers of the outlines, and judges the program by them.
fn judged(alloc: Global, outlines: &[u8], program: &[u8], line_width: u32) -> Result<Text, Stop>
    requires width { IsWidth line_width }
    ensures { (opinions : Opinions) → AreRight opinions
        → IsEnd (ends (judgement opinions line_width outlines.now program.now)) result }
{
    files_are_within();
    match read(alloc, outlines) {
        Ok(cli) => judged_by(alloc, &cli, program, line_width),
        Err(fault) => Err(unread(fault)),
    }
}

/// Why outlines aren't read.
fn unread(fault: CliFault) -> Stop
    ensures { IsRefusedBy fault result }
{
    match fault {
        CliFault::Memory => Stop::Memory,
        CliFault::BadLine(line) => bad_file(BadKind::CliLine, line, 0),
        CliFault::CountDiffers(said, there) => bad_file(BadKind::CliCount, said, there),
        CliFault::OpenLoop(line) => bad_file(BadKind::CliOpen, line, 0),
    }
}

/// Judges a program by the layers of outlines.
fn judged_by(alloc: Global, cli: &Cli, program: &[u8], line_width: u32) -> Result<Text, Stop>
    requires width { IsWidth line_width }
    requires within { AreWithin (layers_of cli.now) }
    ensures { (opinions : Opinions) → AreRight opinions
        → IsEnd (ends (judged_end opinions line_width program.now (Ok (layers_of cli.now)))) result }
{
    let verdict = check(alloc, cli, program, line_width);
    said(alloc, cli.layers.as_slice().len() as u64, verdict)
}

/// The last line for a verdict over so many layers, or for a program that is refused.
fn said(alloc: Global, layers: u64, verdict: Result<Verdict, VerifyFault>) -> Result<Text, Stop>
    ensures { (opinion : Opinion) → Answers verdict opinion → IsEnd (ends (opinion_end layers opinion)) result }
{
    match verdict {
        Ok(Verdict::Inside { moves }) => Ok(Text::from_vec(inside_line(alloc, layers, moves)?)),
        Ok(Verdict::Outside { number, line }) => {
            Err(Stop::Ends(Refusal::Outside { number, line }))
        }
        Err(VerifyFault::UnknownWord(line)) => Err(bad_file(BadKind::GWord, u64::from(line), 0)),
        Err(VerifyFault::BadNumber(line)) => Err(bad_file(BadKind::GNumber, u64::from(line), 0)),
        Err(VerifyFault::Memory) => Err(Stop::Memory),
    }
}

fn bad_file(kind: BadKind, first: u64, second: u64) -> Stop
    ensures { result ≡ Stop.Ends (Refusal.BadFile kind first second) }
{
    Stop::Ends(Refusal::BadFile {
        kind,
        first,
        second,
    })
}

/// `inside: N layers, M moves`
#[tactic(auto, unfolding(crate::specs::Judging::inside_line))]
fn inside_line(alloc: Global, layers: u64, moves: u64) -> Result<Vec<u8>, AllocError>
    ensures { IfOk result (λ line. line.items ≡ inside_line layers moves) }
{
    let mut line = Vec::from_slice(alloc, b"inside: ")?;
    push_number(&mut line, layers)?;
    line.extend_from_slice(b" layers, ")?;
    push_number(&mut line, moves)?;
    line.extend_from_slice(b" moves\n")?;
    Ok(line)
}

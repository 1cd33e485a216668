//! What is said of an outlines' file and a printing program that are judged together, where not all is well.
ghost use Rattle.std.specs.Prelude.{◌≡◌, ◌++◌, IfOk, OnOk};
ghost use Rattle.scad_fault.specs.Kinds.{bad_file, bad_number, bad_name};
ghost use Rattle.scad_fault.specs.Line.{outside_line, bad_line, second_text};

use crate::line;
use crate::text::Text;
use std::alloc::{AllocError, Global};
use text_scan::push_number;

/// Why a file is not of the form.
#[derive(Clone, Copy)]
pub enum BadKind {
    /// A line of the outlines is no line of the form; its number is told.
    CliLine,
    /// The outlines say another number of layers than they have; both are told, the one that is said first.
    CliCount,
    /// An outline doesn't end where it begins; the number of its line is told.
    CliOpen,
    /// A line of the program is no command of the form; its number is told.
    GWord,
    /// A line of the program has a number that is none or is out of range; the line's number is told.
    GNumber,
}

impl BadKind {
    fn file(self) -> &'static str
        ensures { result.now ≡ bad_file self }
    {
        match self {
            BadKind::CliLine | BadKind::CliCount | BadKind::CliOpen => "cli",
            BadKind::GWord | BadKind::GNumber => "gcode",
        }
    }

    fn number(self) -> u8
        ensures { result ≡ bad_number self }
    {
        match self {
            BadKind::CliLine | BadKind::GWord => 1,
            BadKind::CliCount | BadKind::GNumber => 2,
            BadKind::CliOpen => 3,
        }
    }

    fn name(self) -> &'static str
        ensures { result.now ≡ bad_name self }
    {
        match self {
            BadKind::CliLine => "BadLine",
            BadKind::CliCount => "CountDiffers",
            BadKind::CliOpen => "OpenLoop",
            BadKind::GWord => "UnknownWord",
            BadKind::GNumber => "BadNumber",
        }
    }

    /// The report's line on the file.
    #[tactic(auto, unfolding(crate::specs::Line::bad_line))]
    pub(crate) fn line(self, alloc: Global, first: u64, second: u64) -> Result<Text, AllocError>
        ensures { IfOk result (λ t. t ≡ bad_line self first second) }
    {
        let mut text = Vec::from_slice(alloc, self.file().as_bytes())?;
        line::push_kind(&mut text, self.number(), self.name())?;
        line::push_whole(&mut text, first)?;
        self.push_second(&mut text, second)?;
        text.push(b'\n')?;
        Ok(Text::from_vec(text))
    }

    fn push_second(self, text: &mut Vec<u8>, second: u64) -> Result<(), AllocError>
        ensures { OnOk result (text.new.items ≡ text.old.items ++ second_text self second) }
    {
        match self {
            BadKind::CliCount => line::push_whole(text, second),
            BadKind::CliLine | BadKind::CliOpen | BadKind::GWord | BadKind::GNumber => Ok(()),
        }
    }
}

/// The report's line on the first move that leaves its outlines.
#[tactic(auto, unfolding(crate::specs::Line::outside_line))]
pub(crate) fn outside_line(alloc: Global, number: u64, line: u32) -> Result<Text, AllocError>
    ensures { IfOk result (λ t. t ≡ outside_line number line) }
{
    let mut text = Vec::from_slice(alloc, b"outside: move ")?;
    push_number(&mut text, number)?;
    text.extend_from_slice(b" line ")?;
    push_number(&mut text, line)?;
    text.push(b'\n')?;
    Ok(Text::from_vec(text))
}

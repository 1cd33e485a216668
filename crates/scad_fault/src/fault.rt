//! Faults of a source, with their place and name.
ghost use Rattle.std.specs.Prelude.{◌≡◌, [], IfOk, OnOk, ◌++◌};
ghost use Rattle.scad_fault.specs.Kinds.{fault_number, fault_name};
ghost use Rattle.scad_fault.specs.Line.{fault_line, name_text};

use crate::line;
use crate::place::Place;
use crate::text::Text;
use std::alloc::{AllocError, Global};

/// Why a source is refused: its text, its names, or what its evaluation gave.
#[derive(Clone, Copy)]
pub enum FaultKind {
    /// Bytes that begin no token.
    BadText = 1,
    /// A token where the grammar takes none of its kind.
    Syntax = 2,
    /// More constructs open at one token than the limit.
    Nesting = 3,
    /// A form of the language that the profile leaves out, by its name.
    LeftOut = 4,
    /// A call of a module that is not defined, by its name.
    UnknownModule = 5,
    /// A call of a function that is not defined, by its name.
    UnknownFunction = 6,
    /// An argument that is missing or that the called name does not take.
    BadArgument = 7,
    /// A quotient or remainder by zero.
    ZeroDivisor = 8,
    /// A number past the greatest size.
    NumberRange = 9,
    /// An assertion that is false.
    AssertFailed = 10,
    /// A flat shape outside every extrusion, or a solid inside one.
    MixedDimensions = 11,
    /// Faces of a polyhedron that do not close.
    NotClosed = 12,
    /// A placed coordinate past the greatest size.
    CoordinateRange = 13,
    /// A range that steps by zero.
    ZeroStep = 14,
}

impl FaultKind {
    fn number(self) -> u8
        ensures { result ≡ fault_number self }
    {
        self as u8
    }

    fn name(self) -> &'static str
        ensures { result.now ≡ fault_name self }
    {
        match self {
            FaultKind::BadText => "BadText",
            FaultKind::Syntax => "Syntax",
            FaultKind::Nesting => "Nesting",
            FaultKind::LeftOut => "LeftOut",
            FaultKind::UnknownModule => "UnknownModule",
            FaultKind::UnknownFunction => "UnknownFunction",
            FaultKind::BadArgument => "BadArgument",
            FaultKind::ZeroDivisor => "ZeroDivisor",
            FaultKind::NumberRange => "NumberRange",
            FaultKind::AssertFailed => "AssertFailed",
            FaultKind::MixedDimensions => "MixedDimensions",
            FaultKind::NotClosed => "NotClosed",
            FaultKind::CoordinateRange => "CoordinateRange",
            FaultKind::ZeroStep => "ZeroStep",
        }
    }
}

/// A fault of the source: its kind, its place, and the name that it is about, which is empty where
/// the kind has none.
#[derive(Drop)]
pub struct Fault {
    pub kind: FaultKind,
    pub at: Place,
    pub name: Text,
}

impl Fault {
    /// A fault that is about no name. It takes no memory.
    pub fn unnamed(alloc: Global, kind: FaultKind, at: Place) -> Fault
        ensures { result ≡ record { kind = kind; at = at; name = [] } }
    {
        Fault {
            kind,
            at,
            name: Text::empty(alloc),
        }
    }

    /// The report's line on the fault.
    #[tactic(auto, unfolding(crate::specs::Line::fault_line))]
    pub(crate) fn line(&self, alloc: Global) -> Result<Text, AllocError>
        ensures { IfOk result (λ t. t ≡ fault_line self.now) }
    {
        let mut text = Vec::from_slice(alloc, b"fault")?;
        line::push_kind(&mut text, self.kind.number(), self.kind.name())?;
        line::push_place(&mut text, self.at)?;
        push_name(&mut text, self.kind, self.name.as_slice())?;
        text.push(b'\n')?;
        Ok(Text::from_vec(text))
    }
}

fn push_name(text: &mut Vec<u8>, kind: FaultKind, name: &[u8]) -> Result<(), AllocError>
    ensures { OnOk result (text.new.items ≡ text.old.items ++ name_text kind name.now) }
{
    match kind {
        FaultKind::LeftOut
        | FaultKind::UnknownModule
        | FaultKind::UnknownFunction
        | FaultKind::BadArgument => line::push_word(text, name),
        _ => Ok(()),
    }
}

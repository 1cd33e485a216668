//! Faults of the settings.
ghost use Rattle.std.specs.Prelude.{◌≡◌, ◌++◌, IfOk, OnOk};
ghost use Rattle.scad_fault.specs.Kinds.{set_number, set_name};
ghost use Rattle.scad_fault.specs.Line.{settings_line, setting_text};

use crate::line;
use crate::text::Text;
use std::alloc::{AllocError, Global};

/// Why settings are refused.
#[derive(Clone, Copy, Debug)]
pub enum SetKind {
    /// The text is no TOML document.
    NotToml = 1,
    /// A key that no setting has.
    UnknownKey = 2,
    /// A value that is no whole number.
    NotWhole = 3,
    /// A whole number outside the setting's range.
    OutOfRange = 4,
}

impl SetKind {
    fn number(self) -> u8
        ensures { result ≡ set_number self }
    {
        self as u8
    }

    fn name(self) -> &'static str
        ensures { result.now ≡ set_name self }
    {
        match self {
            SetKind::NotToml => "NotToml",
            SetKind::UnknownKey => "UnknownKey",
            SetKind::NotWhole => "NotWhole",
            SetKind::OutOfRange => "OutOfRange",
        }
    }
}

/// A fault of the settings: its kind, the key, which is empty for `NotToml`, and the value, which is
/// 0 for all but `OutOfRange`.
#[derive(Debug, Drop)]
pub struct SetFault {
    pub kind: SetKind,
    pub key: Text,
    pub value: i64,
}

impl SetFault {
    /// The report's line on the fault.
    #[tactic(auto, unfolding(crate::specs::Line::settings_line))]
    pub(crate) fn line(&self, alloc: Global) -> Result<Text, AllocError>
        ensures { IfOk result (λ t. t ≡ settings_line self.now) }
    {
        let mut text = Vec::from_slice(alloc, b"settings")?;
        line::push_kind(&mut text, self.kind.number(), self.kind.name())?;
        self.push_setting(&mut text)?;
        text.push(b'\n')?;
        Ok(Text::from_vec(text))
    }

    fn push_setting(&self, text: &mut Vec<u8>) -> Result<(), AllocError>
        ensures { OnOk result (text.new.items ≡ text.old.items
            ++ setting_text self.now.kind self.now.key self.now.value) }
    {
        match self.kind {
            SetKind::NotToml => Ok(()),
            SetKind::UnknownKey | SetKind::NotWhole => line::push_word(text, self.key.as_slice()),
            SetKind::OutOfRange => {
                line::push_word(text, self.key.as_slice())?;
                line::push_value(text, self.value)
            }
        }
    }
}

//! The settings of a print, read from TOML.
ghost use Rattle.std.specs.Prelude.{◌≡◌, Some, None, IfOk, option_map, ◌⊎◌};
ghost use Rattle.toml.specs.Data.{as_integer};
ghost use Rattle.toml.specs.View.{view, table_view};
ghost use Rattle.scad_words.specs.Settings as spec;

use crate::rows::{self, Row, row_of};
use scad_fault::{SetFault, SetKind, Text};
use std::alloc::{AllocError, Global};
use thiserror::Error;
use toml::{Table, Value};

/// How a part is sliced and printed.
#[derive(Clone, Copy)]
pub struct Settings {
    /// The bed's temperature in degrees Celsius.
    pub bed: u32,
    /// The filament's cross section in square micrometres.
    pub filament_area: u32,
    /// The hot end's temperature in degrees Celsius.
    pub hot_end: u32,
    /// The distance between lines of infill in micrometres; 0 for none.
    pub infill_spacing: u32,
    /// The height of a layer in micrometres.
    pub layer_height: u32,
    /// The width of an extruded line in micrometres.
    pub line_width: u32,
    /// The feed while extruding, in millimetres a minute.
    pub print_feed: u32,
    /// How far supports keep from the outlines of their layer along both axes, in micrometres.
    pub support_gap: u32,
    /// The distance between lines of support in micrometres; 0 for none.
    pub support_spacing: u32,
    /// The feed of moves that don't extrude, in millimetres a minute.
    pub travel_feed: u32,
    /// The number of walls.
    pub walls: u32,
}

impl Settings {
    /// The settings where no text is given.
    pub fn defaults() -> Settings
        ensures value { result ≡ spec.default_settings }
        ensures in_range { spec.AreInRange result }
    {
        Settings {
            bed: rows::BED.default,
            filament_area: rows::FILAMENT_AREA.default,
            hot_end: rows::HOT_END.default,
            infill_spacing: rows::INFILL_SPACING.default,
            layer_height: rows::LAYER_HEIGHT.default,
            line_width: rows::LINE_WIDTH.default,
            print_feed: rows::PRINT_FEED.default,
            support_gap: rows::SUPPORT_GAP.default,
            support_spacing: rows::SUPPORT_SPACING.default,
            travel_feed: rows::TRAVEL_FEED.default,
            walls: rows::WALLS.default,
        }
    }
}

/// Why a text gives no settings.
#[derive(Debug, Drop, Error)]
pub enum SetError {
    #[error("the settings are refused")]
    Refused(SetFault),
    #[error("memory ran out")]
    Memory,
}

/// The settings that a TOML text gives. Each key has a whole number in its range; a key that isn't there has its default. The
/// fault of the first key in byte order that has one is answered: a key that no setting has, a value that is no whole number
/// (so no float, as 5.0), a number out of range.
pub fn read_settings(alloc: Global, bytes: &[u8]) -> Result<Settings, SetError>
    ensures answers { spec.Answers (spec.settings_of bytes.now) result }
    ensures in_range { IfOk result spec.AreInRange }
{
    match toml::table_from_slice(alloc, bytes) {
        Ok(table) => judged(alloc, &table),
        Err(error) if error.is_memory() => Err(SetError::Memory),
        Err(_) => Err(SetError::Refused(SetFault {
            kind: SetKind::NotToml,
            key: Text::empty(alloc),
            value: 0,
        })),
    }
}

// The settings of a table, or the fault of its first key that has one.
fn judged(alloc: Global, table: &Table) -> Result<Settings, SetError>
    ensures { spec.Answers (spec.settings_unless (spec.first_fault (table_view table.now)) (table_view table.now)) result }
{
    match first_fault(table) {
        Some(fault) => Err(refusal(alloc, &fault)),
        None => Ok(settings_in(table)),
    }
}

// A fault over a key that is lent.
#[derive(Clone, Copy)]
struct KeyFault<'a> {
    kind: SetKind,
    key: &'a str,
    value: i64,
}

fn refusal(alloc: Global, fault: &KeyFault<'_>) -> SetError
    ensures { (result ≡ SetError.Memory) ⊎ (result ≡ SetError.Refused (spec.set_fault fault.now.kind fault.now.key.now fault.now.value)) }
{
    match Text::of(alloc, fault.key.as_bytes()) {
        Ok(key) => SetError::Refused(SetFault {
            kind: fault.kind,
            key,
            value: fault.value,
        }),
        Err(AllocError) => SetError::Memory,
    }
}

fn first_fault(table: &Table) -> Option<KeyFault<'_>>
    ensures { option_map (λ f. spec.set_fault f.kind f.key.now f.value) result ≡ spec.first_fault (table_view table.now) }
{
    'members: for (key, value) in table.iter() {
        match key_fault(key.as_str(), value) {
            Some(fault) => return Some(fault),
            None => {}
        }
    }
    None
}

fn key_fault<'a>(key: &'a str, value: &Value) -> Option<KeyFault<'a>>
    ensures { option_map (λ f. spec.set_fault f.kind f.key.now f.value) result ≡ spec.key_fault key.now (view value.now) }
{
    match row_of(key) {
        Some(row) => number_fault(key, row, value),
        None => Some(KeyFault {
            kind: SetKind::UnknownKey,
            key,
            value: 0,
        }),
    }
}

fn number_fault<'a>(key: &'a str, row: Row, value: &Value) -> Option<KeyFault<'a>>
    ensures { option_map (λ f. spec.set_fault f.kind f.key.now f.value) result ≡ spec.number_fault key.now row (as_integer (view value.now)) }
{
    match value.as_integer() {
        Some(number) if row.holds(number) => None,
        Some(number) => Some(KeyFault {
            kind: SetKind::OutOfRange,
            key,
            value: number,
        }),
        None => Some(KeyFault {
            kind: SetKind::NotWhole,
            key,
            value: 0,
        }),
    }
}

fn settings_in(table: &Table) -> Settings
    ensures { result ≡ spec.settings_in (table_view table.now) }
{
    Settings {
        bed: setting(table, "bed", rows::BED),
        filament_area: setting(table, "filament_area", rows::FILAMENT_AREA),
        hot_end: setting(table, "hot_end", rows::HOT_END),
        infill_spacing: setting(table, "infill_spacing", rows::INFILL_SPACING),
        layer_height: setting(table, "layer_height", rows::LAYER_HEIGHT),
        line_width: setting(table, "line_width", rows::LINE_WIDTH),
        print_feed: setting(table, "print_feed", rows::PRINT_FEED),
        support_gap: setting(table, "support_gap", rows::SUPPORT_GAP),
        support_spacing: setting(table, "support_spacing", rows::SUPPORT_SPACING),
        travel_feed: setting(table, "travel_feed", rows::TRAVEL_FEED),
        walls: setting(table, "walls", rows::WALLS),
    }
}

// The value of a key where it has one in range, else the row's own.
fn setting(table: &Table, key: &str, row: Row) -> u32
    ensures { result ≡ spec.setting (table_view table.now) key.now row }
{
    match table.get(key) {
        Some(value) => value_or(row, value.as_integer()),
        None => row.default,
    }
}

fn value_or(row: Row, number: Option<i64>) -> u32
    ensures { result ≡ spec.value_or row number }
{
    match number {
        Some(number) if row.holds(number) => number as u32,
        _ => row.default,
    }
}

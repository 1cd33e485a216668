//! The settings' table: the range of each key, and its value where a text has none.
ghost use Rattle.std.specs.Prelude.{◌≡◌, ◌&&◌, ◌||◌, Some, None};
ghost use Rattle.scad_words.specs.Rows as spec;

/// The least and the greatest value of a setting, whether 0, for none, is one besides, and its value where none is given.
#[derive(Clone, Copy)]
pub struct Row {
    pub least: u32,
    pub most: u32,
    pub or_none: bool,
    pub default: u32,
}

impl Row {
    pub(crate) fn holds(&self, value: i64) -> bool
        ensures { result ≡ spec.is_in_range self.now value }
    {
        self.least as i64 <= value && value <= self.most as i64 || self.or_none && value == 0
    }
}

pub(crate) const BED: Row = Row {
    least: 0,
    most: 200,
    or_none: false,
    default: 60,
};

pub(crate) const FILAMENT_AREA: Row = Row {
    least: 100_000,
    most: 20_000_000,
    or_none: false,
    default: 2_405_282,
};

pub(crate) const HOT_END: Row = Row {
    least: 0,
    most: 500,
    or_none: false,
    default: 200,
};

pub(crate) const INFILL_SPACING: Row = Row {
    least: 0,
    most: 100_000,
    or_none: false,
    default: 2000,
};

pub(crate) const LAYER_HEIGHT: Row = Row {
    least: 20,
    most: 1000,
    or_none: false,
    default: 200,
};

pub(crate) const LINE_WIDTH: Row = Row {
    least: 100,
    most: 2000,
    or_none: false,
    default: 450,
};

pub(crate) const PRINT_FEED: Row = Row {
    least: 1,
    most: 60_000,
    or_none: false,
    default: 1800,
};

pub(crate) const SUPPORT_GAP: Row = Row {
    least: 0,
    most: 10_000,
    or_none: false,
    default: 300,
};

pub(crate) const SUPPORT_SPACING: Row = Row {
    least: 500,
    most: 100_000,
    or_none: true,
    default: 0,
};

pub(crate) const TRAVEL_FEED: Row = Row {
    least: 1,
    most: 60_000,
    or_none: false,
    default: 7200,
};

pub(crate) const WALLS: Row = Row {
    least: 1,
    most: 10,
    or_none: false,
    default: 2,
};

/// A key with its row.
#[derive(Clone, Copy)]
pub struct Key {
    pub name: &'static str,
    pub row: Row,
}

const KEYS: [Key; 11] = [
    Key {
        name: "bed",
        row: BED,
    },
    Key {
        name: "filament_area",
        row: FILAMENT_AREA,
    },
    Key {
        name: "hot_end",
        row: HOT_END,
    },
    Key {
        name: "infill_spacing",
        row: INFILL_SPACING,
    },
    Key {
        name: "layer_height",
        row: LAYER_HEIGHT,
    },
    Key {
        name: "line_width",
        row: LINE_WIDTH,
    },
    Key {
        name: "print_feed",
        row: PRINT_FEED,
    },
    Key {
        name: "support_gap",
        row: SUPPORT_GAP,
    },
    Key {
        name: "support_spacing",
        row: SUPPORT_SPACING,
    },
    Key {
        name: "travel_feed",
        row: TRAVEL_FEED,
    },
    Key {
        name: "walls",
        row: WALLS,
    },
];

// The keys in byte order.
fn keys() -> &'static [Key]
    ensures { spec.rows_in result.now ≡ spec.rows }
{
    &KEYS
}

/// The row of a key.
pub(crate) fn row_of(key: &str) -> Option<Row>
    ensures { result ≡ spec.row_of key.now }
{
    row_among(keys(), key)
}

// The row of a key among these.
fn row_among(keys: &[Key], key: &str) -> Option<Row>
    ensures { result ≡ spec.row_among (spec.rows_in keys.now) key.now }
{
    'keys: for known in keys {
        if key == known.name {
            return Some(known.row);
        }
    }
    None
}

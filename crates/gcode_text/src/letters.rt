//! The letters of a line.
ghost use Rattle.std.specs.Prelude.{◌≡◌, IsTrue};
ghost use Rattle.gcode_text.specs.Machine.{nothing_given, was_given, with_number, limited, names_none};

use scad_geom::COORDINATE_LIMIT;

/// The greatest size of an amount, in hundred-thousandths of a millimetre.
const AMOUNT_LIMIT: u64 = 2_000_000_000_000_000_000;

/// The numbers that the words of a line name. Those of `F` and `S` change nothing.
#[derive(Clone, Copy)]
pub(crate) struct Given {
    pub x: Option<i32>,
    pub y: Option<i32>,
    pub z: Option<i32>,
    pub e: Option<i64>,
    pub feed: bool,
    pub setting: bool,
}

impl Given {
    /// No letter was given.
    pub fn nothing() -> Given
        ensures { result ≡ nothing_given }
    {
        Given {
            x: None,
            y: None,
            z: None,
            e: None,
            feed: false,
            setting: false,
        }
    }

    /// Whether the letter was given a number.
    #[tactic(auto, unfolding(crate::specs::Machine::was_given))]
    pub fn has(&self, letter: u8) -> bool
        ensures { result ≡ was_given letter self.now }
    {
        match letter {
            b'X' => self.x.is_some(),
            b'Y' => self.y.is_some(),
            b'Z' => self.z.is_some(),
            b'E' => self.e.is_some(),
            b'F' => self.feed,
            _ => self.setting,
        }
    }

    /// With the number of one letter more.
    #[tactic(auto, unfolding(crate::specs::Machine::with_number, crate::specs::Machine::limited))]
    pub fn with(self, letter: u8, number: i64) -> Given
        requires { IsTrue (limited letter number) }
        ensures { result ≡ with_number letter number self }
    {
        if letter == b'X' {
            Given {
                x: Some(number as i32),
                ..self
            }
        } else if letter == b'Y' {
            Given {
                y: Some(number as i32),
                ..self
            }
        } else if letter == b'Z' {
            Given {
                z: Some(number as i32),
                ..self
            }
        } else if letter == b'E' {
            Given {
                e: Some(number),
                ..self
            }
        } else if letter == b'F' {
            Given { feed: true, ..self }
        } else {
            Given {
                setting: true,
                ..self
            }
        }
    }

    /// Whether no axis was given.
    pub fn names_none(&self) -> bool
        ensures { result ≡ names_none self.now }
    {
        !(self.x.is_some() || self.y.is_some() || self.z.is_some() || self.e.is_some())
    }
}

#[tactic(auto, unfolding(crate::specs::Machine::limited))]
pub(crate) fn is_limited(letter: u8, number: i64) -> bool
    ensures { result ≡ limited letter number }
{
    if letter == b'X' || letter == b'Y' || letter == b'Z' {
        number.unsigned_abs() <= u64::from(COORDINATE_LIMIT)
    } else if letter == b'E' {
        number.unsigned_abs() <= AMOUNT_LIMIT
    } else {
        true
    }
}

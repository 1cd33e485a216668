//! The rule of the table of two words, which each step keeps, and the names of the steps.
ghost use Rattle.layer_board.specs.Pass.{opened, spent, gives, given, joins};
ghost use Rattle.layer_board.specs.Rule.{IsBoard, Claimed, Looked, Failed, Finished, Counted};

use crate::view::{Size, View};
use atomic_table::{Join, Play, Split, TableRule};

/// The word of the next number to draw.
pub const NEXT: usize = 0;

/// The word of the least failed layer, or else the number of layers.
pub const LEAST: usize = 1;

/// The rule of the board's table: between any two steps it is a board.
pub struct Sharing;

impl TableRule<(), View, Size> for Sharing {
    ghost holds = { IsBoard };

    ghost first = { λ size. opened size.count };
}

/// A pass parted from the first one.
pub struct Gives;

impl Split<View> for Gives {
    ghost left = { gives };

    ghost right = { given };
}

/// Two passes taken together.
pub struct Joins;

impl Join<View> for Joins {
    ghost both = { joins };

    ghost spent = { spent };
}

/// The step of `claim`.
pub struct Claims;

impl Play<(), View> for Claims {
    ghost then = { Claimed };
}

/// The step of `look`.
pub struct Looks;

impl Play<(), View> for Looks {
    ghost then = { Looked };
}

/// The step of `fail`.
pub struct Fails;

impl Play<(), View> for Fails {
    ghost then = { Failed };
}

/// The step of `finish`.
pub struct Finishes;

impl Play<(), View> for Finishes {
    ghost then = { Finished };
}

/// It tells how many members a pass has at most, and changes nothing.
pub struct Counts;

impl Play<(), View> for Counts {
    ghost then = { Counted };
}

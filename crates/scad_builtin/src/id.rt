//! The ids of the names in the table of names: one for each function, and one for all that are left out.

pub(crate) const ABS: u16 = 0;

pub(crate) const SIGN: u16 = 1;

pub(crate) const FLOOR: u16 = 2;

pub(crate) const CEIL: u16 = 3;

pub(crate) const ROUND: u16 = 4;

pub(crate) const SQRT: u16 = 5;

pub(crate) const SIN: u16 = 6;

pub(crate) const COS: u16 = 7;

pub(crate) const TAN: u16 = 8;

pub(crate) const MIN: u16 = 9;

pub(crate) const MAX: u16 = 10;

pub(crate) const LEN: u16 = 11;

pub(crate) const CONCAT: u16 = 12;

pub(crate) const STR: u16 = 13;

pub(crate) const CHR: u16 = 14;

pub(crate) const ORD: u16 = 15;

pub(crate) const NORM: u16 = 16;

pub(crate) const CROSS: u16 = 17;

pub(crate) const IS_UNDEF: u16 = 18;

pub(crate) const IS_BOOL: u16 = 19;

pub(crate) const IS_NUM: u16 = 20;

pub(crate) const IS_STRING: u16 = 21;

pub(crate) const IS_LIST: u16 = 22;

/// The id of each name that the language leaves out.
pub(crate) const LEFT_OUT: u16 = 23;

//! Look-up of a name in a constant table of names and ids.
//! The contract of `find` gives exactly the id that the table has for the name, or none.
//!
//! A table is a constant array of rows in byte order of the names. A clause cannot name such a
//! constant, so one function beside the table lends it, and its contract shows that the names ascend
//! and says what the rows hold, as a list of names and ids that the definitions share:
//!
//! ```text
//! const KEYS: [Row; 2] = [Row { name: "each", id: 7 }, Row { name: "if", id: 1 }];
//!
//! pub fn keys() -> &'static [Row]
//!     ensures ascends { IsTrue (ascends (entries result.now)) }
//!     ensures entries { entries result.now ≡ key_table }
//! {
//!     &KEYS
//! }
//! ```
//!
//! with `key_table = (codes "each", 7) ∷ (codes "if", 1) ∷ []` in `specs/`. Both clauses are computed.
#![tactic(auto)]

mod row;

pub use row::{Row, find};

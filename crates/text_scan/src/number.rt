//! Numbers in decimal.
ghost use Rattle.std.specs.Prelude.{◌≡◌, ◌++◌, OnOk, OnErr};

use itoa::{Buffer, Integer};
use std::alloc::AllocError;

/// Appends a number in decimal, with `-` before a negative one. Where memory runs out the text is as it was.
pub fn push_number<I: Integer>(out: &mut Vec<u8>, n: I) -> Result<(), AllocError>
    ensures ok { OnOk result (out.new.items ≡ out.old.items ++ I.text n) }
    ensures err { OnErr result (out.new.items ≡ out.old.items) }
{
    out.extend_from_slice(Buffer::new().format(n).as_bytes())
}

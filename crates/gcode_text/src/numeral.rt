//! Numbers as text.
ghost use Rattle.std.specs.Prelude.{◌≡◌, ◌++◌, ◌+◌, ◌%◌, OnOk, OnErr};
ghost use Rattle.scad_base.specs.Appends.{BeginsWith};
ghost use Rattle.scad_base.specs.Characters.{digit_zero};
ghost use Rattle.text_scan.specs.Printing.{Adds};
ghost use Rattle.gcode_text.specs.Numeral.{last_digits, fixed, millimetres};

use std::alloc::AllocError;
use text_scan::Printer;

fn last_digit(n: u32) -> u8
    ensures { result ≡ digit_zero + n % 10 }
{
    b'0' + (n % 10) as u8
}

#[tactic(auto, unfolding(crate::specs::Numeral::last_digits))]
fn push_last_digits(out: &mut Printer, places: u32, n: u32)
    ensures { Adds (last_digits places n) out.old out.new }
{
    if places > 0 {
        push_last_digits(out, places - 1, n / 10);
        out.byte(last_digit(n));
    }
}

/// Appends thousandths as a decimal number of three places.
#[tactic(auto, unfolding(crate::specs::Numeral::fixed))]
pub fn push_thousandths(out: &mut Printer, n: u64)
    ensures { Adds (fixed 3 n) out.old out.new }
{
    out.number(n / 1000);
    out.byte(b'.');
    push_last_digits(out, 3, (n % 1000) as u32);
}

/// Appends an amount in hundred-thousandths as a decimal number of five places.
#[tactic(auto, unfolding(crate::specs::Numeral::fixed))]
pub fn push_amount(out: &mut Printer, n: u128)
    ensures { Adds (fixed 5 n) out.old out.new }
{
    out.number(n / 100_000);
    out.byte(b'.');
    push_last_digits(out, 5, (n % 100_000) as u32);
}

/// Appends hundred-thousandths as a decimal number of five places.
pub fn push_hundred_thousandths(out: &mut Vec<u8>, n: u128) -> Result<(), AllocError>
    ensures ok { OnOk result (out.new.items ≡ out.old.items ++ fixed 5 n) }
    ensures err { OnErr result (BeginsWith out.old.items out.new.items) }
{
    let kept = out.len();
    let mut printer = Printer::behind(out);
    push_amount(&mut printer, n);
    printer.hand_back(out, kept)
}

/// Appends micrometres as millimetres of three places, with `-` before negative ones.
#[tactic(auto, unfolding(crate::specs::Numeral::millimetres))]
pub fn push_millimetres(out: &mut Printer, z: i32)
    ensures { Adds (millimetres z) out.old out.new }
{
    if z < 0 {
        out.byte(b'-');
    }
    push_thousandths(out, u64::from(z.unsigned_abs()));
}

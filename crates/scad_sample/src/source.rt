//! The text of a sample.
ghost use Rattle.std.specs.Prelude.{◌≡◌, [], ◌∷◌, ◌++◌, ◌+◌, ◌%◌, ◌<◌, ◌≤◌, length, IfOk, OnOk};
ghost use Rattle.scad_base.specs.Characters.{digit_zero};
ghost use Rattle.gcode_text.specs.Numeral.{last_digits, fixed};
ghost use Rattle.scad_sample.specs.Sample.{plate_start, hole_start, hole_middle, hole_end, plate_end, hole_text, holes, sample_text};

use crate::radius::{next, radius};
use scad_fault::Text;
use std::alloc::{AllocError, Global};
use text_scan::push_number;

/// The sample of this number, as the text of a source: a plate of 100 by 100 by 2 millimetres with 36 holes in six
/// rows, of radii from 2 to 6 millimetres. It has at most 8,192 bytes.
#[tactic(auto, using(crate::proofs::Length::sample_is_short))]
pub fn sample_source(alloc: Global, n: u32) -> Result<Text, AllocError>
    ensures text { IfOk result (λ text. text ≡ sample_text n) }
    ensures short { IfOk result (λ text. length text ≤ 8192) }
{
    let mut out = Vec::new(alloc);
    push_plate_start(&mut out)?;
    push_holes(&mut out, n)?;
    push_plate_end(&mut out)?;
    Ok(Text::from_vec(out))
}

#[tactic(auto, unfolding(crate::specs::Sample::plate_start))]
fn push_plate_start(out: &mut Vec<u8>) -> Result<(), AllocError>
    ensures { OnOk result (out.new.items ≡ out.old.items ++ plate_start) }
{
    out.extend_from_slice(b"difference(){cube([100,100,2]);\n")
}

#[tactic(auto, unfolding(crate::specs::Sample::plate_end))]
fn push_plate_end(out: &mut Vec<u8>) -> Result<(), AllocError>
    ensures { OnOk result (out.new.items ≡ out.old.items ++ plate_end) }
{
    out.extend_from_slice(b"}\n")
}

#[tactic(auto, using(crate::proofs::Holes::no_holes, crate::proofs::Holes::holes_more))]
fn push_holes(out: &mut Vec<u8>, n: u32) -> Result<(), AllocError>
    ensures { OnOk result (out.new.items ≡ out.old.items ++ holes n 36) }
{
    let mut s = n;
    'holes: for k in 0..36 {
        s = next(s);
        push_hole(out, k, radius(s))?;
    }
    Ok(())
}

// `translate([X,Y,-1])cylinder(h=4,r=R,$fn=24);`
fn push_hole(out: &mut Vec<u8>, k: u32, radius: u32) -> Result<(), AllocError>
    requires { k < 36 }
    ensures { OnOk result (out.new.items ≡ out.old.items ++ hole_text k radius) }
{
    push_hole_start(out)?;
    push_number(out, 10 + 16 * (k % 6))?;
    out.push(b',')?;
    push_number(out, 10 + 16 * (k / 6))?;
    push_hole_middle(out)?;
    push_millimetres(out, radius)?;
    push_hole_end(out)
}

#[tactic(auto, unfolding(crate::specs::Sample::hole_start))]
fn push_hole_start(out: &mut Vec<u8>) -> Result<(), AllocError>
    ensures { OnOk result (out.new.items ≡ out.old.items ++ hole_start) }
{
    out.extend_from_slice(b"translate([")
}

#[tactic(auto, unfolding(crate::specs::Sample::hole_middle))]
fn push_hole_middle(out: &mut Vec<u8>) -> Result<(), AllocError>
    ensures { OnOk result (out.new.items ≡ out.old.items ++ hole_middle) }
{
    out.extend_from_slice(b",-1])cylinder(h=4,r=")
}

#[tactic(auto, unfolding(crate::specs::Sample::hole_end))]
fn push_hole_end(out: &mut Vec<u8>) -> Result<(), AllocError>
    ensures { OnOk result (out.new.items ≡ out.old.items ++ hole_end) }
{
    out.extend_from_slice(b",$fn=24);\n")
}

// Micrometres in millimetres.
#[tactic(auto, unfolding(gcode_text::specs::Numeral::fixed))]
fn push_millimetres(out: &mut Vec<u8>, n: u32) -> Result<(), AllocError>
    ensures { OnOk result (out.new.items ≡ out.old.items ++ fixed 3 n) }
{
    push_number(out, n / 1000)?;
    out.push(b'.')?;
    push_three_digits(out, n % 1000)
}

#[tactic(auto, unfolding(gcode_text::specs::Numeral::last_digits))]
fn push_three_digits(out: &mut Vec<u8>, n: u32) -> Result<(), AllocError>
    ensures { OnOk result (out.new.items ≡ out.old.items ++ last_digits 3 n) }
{
    push_digit(out, n / 100)?;
    push_digit(out, n / 10)?;
    push_digit(out, n)
}

fn push_digit(out: &mut Vec<u8>, n: u32) -> Result<(), AllocError>
    ensures { OnOk result (out.new.items ≡ out.old.items ++ (digit_zero + n % 10) ∷ []) }
{
    out.push(b'0' + (n % 10) as u8)?;
    Ok(())
}

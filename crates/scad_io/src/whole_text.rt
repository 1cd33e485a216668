//! Reading an input to its end, or to one byte past a limit.
ghost use Rattle.std.specs.Prelude.{◌≡◌, ◌≢◌, ◌++◌, ◌+◌, ◌-◌, ◌<◌, ◌≤◌, false, true, length, take, min, Option, IsSomeAnd, IfSome, IfNone, IfOk, IsErrOf};
ghost use Rattle.scad_io.specs.Desk.{Gives, taken};
ghost use Rattle.scad_io.specs.Reading.{ReadsAll, ReadsPast, ReadsPart};

use crate::Desk;
use scad_fault::Text;
use std::alloc::Global;

/// How many bytes are asked for at once.
const PIECE: usize = 4096;

/// Why the input wasn't read to its end.
#[derive(Clone, Copy)]
pub enum ReadEnd {
    /// A call failed.
    Fault,
    /// More bytes than the limit were there.
    Long,
    /// There was no memory for the bytes.
    Memory,
}

/// How many bytes to ask for after so many were read: in pieces, to one byte past the limit.
/// None where more than the limit was read.
fn next_piece(limit: Option<usize>, len: usize) -> Option<usize>
    ensures past { IfNone result (IsSomeAnd limit (λ most. most < len)) }
    ensures piece { IfSome result (λ n. (0 < n) × (n ≤ PIECE)) }
    ensures within { IfSome result (λ n. IfSome limit (λ most. len + n ≤ most + 1)) }
{
    let Some(most) = limit else {
        return Some(PIECE);
    };
    if most < len {
        return None;
    }
    Some((most - len).min(PIECE - 1) + 1)
}

/// Reads the next bytes and adds them to the text.
fn pull<D: Desk>(desk: &mut D, piece: &mut [u8], text: &mut Vec<u8>) -> Result<usize, ReadEnd>
    requires sound { (D.view desk.old).input.failed ≡ false }
    requires piece { 0 < length piece.old }

    ensures bound { IfOk result (λ n. n ≤ length piece.new) }
    ensures bytes { IfOk result (λ n.
        IfSome (D.view desk.old).input.bytes (λ rest. Gives rest n piece.new)) }
    ensures text { IfOk result (λ n. text.new.items ≡ text.old.items ++ take n piece.new) }
    ensures view { IfOk result (λ n. D.view desk.new ≡ taken n false (D.view desk.old)) }
    ensures fault { IsErrOf result ReadEnd.Fault
        → ReadsPart true (D.view desk.old) (D.view desk.new) }
    ensures memory { IsErrOf result ReadEnd.Memory
        → ReadsPart false (D.view desk.old) (D.view desk.new) }
    ensures short { result ≢ Err ReadEnd.Long }
    ensures files { D.files desk.new ≡ D.files desk.old }
    ensures later { D.faults desk.old ≤ D.faults desk.new }
    ensures cause { IsErrOf result ReadEnd.Fault → D.faults desk.old < D.faults desk.new }
{
    let Ok(n) = desk.read(piece) else {
        return Err(ReadEnd::Fault);
    };
    if text.extend_from_slice(&piece[..n]).is_err() {
        return Err(ReadEnd::Memory);
    }
    Ok(n)
}

/// Reads the input to its end, or to one byte past the limit.
///
/// `Fault` comes only where the desk counted a fault of the input, and `Long` exactly where a limit
/// was given and more bytes than it were left.
pub fn read_all<D: Desk>(alloc: Global, desk: &mut D, limit: Option<usize>) -> Result<Text, ReadEnd>
    requires sound { (D.view desk.old).input.failed ≡ false }

    ensures text { IfOk result (λ text. ReadsAll limit text (D.view desk.old) (D.view desk.new)) }
    ensures long { IsErrOf result ReadEnd.Long
        → IsSomeAnd limit (λ most. ReadsPast most (D.view desk.old) (D.view desk.new)) }
    ensures fault { IsErrOf result ReadEnd.Fault
        → ReadsPart true (D.view desk.old) (D.view desk.new) }
    ensures memory { IsErrOf result ReadEnd.Memory
        → ReadsPart false (D.view desk.old) (D.view desk.new) }
    ensures files { D.files desk.new ≡ D.files desk.old }
    ensures later { D.faults desk.old ≤ D.faults desk.new }
    ensures cause { IsErrOf result ReadEnd.Fault → D.faults desk.old < D.faults desk.new }
{
    let mut text = Vec::new(alloc);
    let mut piece = [0; PIECE];
    'pieces: loop {
        let Some(most) = next_piece(limit, text.len()) else {
            return Err(ReadEnd::Long);
        };
        let n = pull(desk, &mut piece[..most], &mut text)?;
        if n == 0 {
            return Ok(Text::from_vec(text));
        }
    }
}

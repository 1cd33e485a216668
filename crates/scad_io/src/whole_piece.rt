//! Writing a whole piece.
ghost use Rattle.std.specs.Prelude.{◌≡◌, ◌≢◌, true, false, [], OnOk, OnErr};
ghost use Rattle.scad_io.specs.Desk.{side, sent, HasCause};
ghost use Rattle.scad_io.specs.Output.{SentPartly};

use crate::{Desk, Failed, Out};

/// Writes all of a piece, in as many writes as the desk wants. An empty piece makes no call.
///
/// `Failed` comes only where the desk counted a fault. Then a front of the piece went out, and not
/// all of it.
pub fn write_all<D: Desk>(desk: &mut D, out: Out, bytes: &[u8]) -> Result<(), Failed>
    requires sound { (side out (D.view desk.old)).failed ≡ false }
    requires made { out ≢ Out.Report → (side out (D.view desk.old)).created ≡ true }

    ensures ok { OnOk result (D.view desk.new ≡ sent out bytes.now false (D.view desk.old)) }
    ensures err { OnErr result (SentPartly out bytes.now (D.view desk.old) (D.view desk.new)) }
    ensures empty { bytes.now ≡ [] → desk.new ≡ desk.old }
    ensures files { D.files desk.new ≡ D.files desk.old }
    ensures cause { HasCause (D.faults desk.old) (D.faults desk.new) result }
{
    let mut rest = bytes;
    'pieces: while !rest.is_empty() {
        let n = desk.write(out, rest)?;
        if n == 0 {
            return Err(Failed);
        }
        rest = &rest[n..];
    }
    Ok(())
}

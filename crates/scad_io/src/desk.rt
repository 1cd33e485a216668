//! The desk: everything outside the process as one input and three outputs.
ghost use Rattle.std.specs.Prelude.{◌≡◌, ◌≢◌, ◌<◌, ◌≤◌, ℕ, true, false, length, IfOk, IfSome};
ghost use Rattle.scad_io.specs.Desk.{Files, View, side, Gives, Opens, Creates, after_read, after_write, HasCause, WriteHasCause};

/// An output of a desk. The report has no name and needs no `create`.
#[derive(Clone, Copy)]
pub enum Out {
    Report,
    Cli,
    Gcode,
}

/// A call on an object of a desk failed: from then on no call is made on that object.
#[derive(Clone, Copy)]
pub struct Failed;

/// What a run reads and writes: one input and three outputs.
///
/// An object that has failed is called no more. A call changes its own object alone.
pub trait Desk {
    /// What each name contains, where told.
    ghost files: { Self → Files };

    /// The input and the outputs.
    ghost view: { Self → View };

    /// How many faults there were. It never falls.
    ghost faults: { Self → ℕ };

    /// Opens the file of this name as the input, which is then read from its beginning.
    fn open(&mut self, name: &str) -> Result<(), Failed>
        requires sound { (view self.old).input.failed ≡ false }
        ensures view { Opens (files self.old) name.now result (view self.old) (view self.new) }
        ensures files { files self.new ≡ files self.old }
        ensures cause { HasCause (faults self.old) (faults self.new) result };

    /// Reads the next bytes of the input, as many as fit or fewer, and says how many. 0 comes at
    /// its end alone.
    fn read(&mut self, into: &mut [u8]) -> Result<usize, Failed>
        requires sound { (view self.old).input.failed ≡ false }
        requires piece { 0 < length into.old }
        ensures bound { IfOk result (λ n. n ≤ length into.new) }
        ensures bytes { IfOk result (λ n.
            IfSome (view self.old).input.bytes (λ rest. Gives rest n into.new)) }
        ensures view { view self.new ≡ after_read result (view self.old) }
        ensures files { files self.new ≡ files self.old }
        ensures cause { HasCause (faults self.old) (faults self.new) result };

    /// Creates an output by this name.
    fn create(&mut self, out: Out, name: &str) -> Result<(), Failed>
        requires named { out ≢ Out.Report }
        requires sound { (side out (view self.old)).failed ≡ false }
        requires absent { (side out (view self.old)).created ≡ false }
        ensures view { Creates out name.now result (view self.old) (view self.new) }
        ensures files { files self.new ≡ files self.old }
        ensures cause { HasCause (faults self.old) (faults self.new) result };

    /// Writes a front of the piece and says how long it is. An answer of 0 is a fault.
    fn write(&mut self, out: Out, bytes: &[u8]) -> Result<usize, Failed>
        requires sound { (side out (view self.old)).failed ≡ false }
        requires made { out ≢ Out.Report → (side out (view self.old)).created ≡ true }
        requires piece { 0 < length bytes.now }
        ensures bound { IfOk result (λ n. n ≤ length bytes.now) }
        ensures view { view self.new ≡ after_write out bytes.now result (view self.old) }
        ensures files { files self.new ≡ files self.old }
        ensures cause { WriteHasCause (faults self.old) (faults self.new) result };
}

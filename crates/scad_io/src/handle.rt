//! A file of the real desk, with the mark of its failure.
ghost use Rattle.std.specs.Prelude.{◌≡◌, ◌≤◌, true, false, length, Some, is_some, is_ok, is_err, IfOk, MatchOption, MatchResult};
ghost use Rattle.std.specs.Option.{option_and_then};
ghost use Rattle.std.specs.Io.KnownBytes.{ReadConsumes, WriteAppends};
ghost use Rattle.scad_io.specs.Desk.{write_failed};

use crate::Failed;
use std::io;
use std::io::{Read, Write};

/// A file, once it is open, and whether a call on it has failed.
#[derive(Drop)]
pub struct Handle<F> {
    pub file: Option<F>,
    pub failed: bool,
}

/// Takes the answer of a write, and marks where it failed, as it did too where nothing went out.
pub fn note_write(written: io::Result<usize>, failed: &mut bool) -> Result<usize, Failed>
    ensures same { MatchResult written (λ n. result ≡ Ok n) (λ _. is_err result ≡ true) }
    ensures mark { failed.new ≡ write_failed result }
{
    match written {
        Ok(n) => {
            *failed = n == 0;
            Ok(n)
        }
        Err(_) => {
            *failed = true;
            Err(Failed)
        }
    }
}

impl<F> Handle<F> {
    /// No file yet.
    pub fn new() -> Handle<F>
        ensures file { is_some result.file ≡ false }
        ensures mark { result.failed ≡ false }
    {
        Handle {
            file: None,
            failed: false,
        }
    }
}

impl<F: Drop> Handle<F> {
    /// Keeps a file that was opened, or the mark that it wasn't.
    pub fn keep(&mut self, opened: io::Result<F>) -> Result<(), Failed>
        ensures mark { self.new.failed ≡ is_err result }
        ensures opened { MatchResult opened
            (λ file. self.new.file ≡ Some file) (λ _. self.new.file ≡ self.old.file) }
        ensures answer { is_ok result ≡ is_ok opened }
    {
        match opened {
            Ok(file) => {
                self.failed = false;
                self.file = Some(file);
                Ok(())
            }
            Err(_) => {
                self.failed = true;
                Err(Failed)
            }
        }
    }
}

impl<F: Read> Handle<F> {
    /// Reads the next bytes: none where no file is open.
    pub fn read(&mut self, into: &mut [u8]) -> Result<usize, Failed>
        requires { self.old.failed ≡ false }
        ensures bound { IfOk result (λ n. n ≤ length into.new) }
        ensures mark { self.new.failed ≡ is_err result }
        ensures bytes { let left = option_and_then F.remaining self.new.file in
            MatchOption self.old.file (result ≡ Ok 0) (λ file.
            ReadConsumes (F.remaining file) left result into.new) }
    {
        let Some(file) = &mut self.file else {
            return Ok(0);
        };
        match file.read(into) {
            Ok(n) => Ok(n),
            Err(_) => {
                self.failed = true;
                Err(Failed)
            }
        }
    }
}

impl<F: Write> Handle<F> {
    /// Writes a front of the piece.
    pub fn write(&mut self, bytes: &[u8]) -> Result<usize, Failed>
        requires { is_some self.old.file ≡ true }
        ensures bound { IfOk result (λ n. n ≤ length bytes.now) }
        ensures mark { self.new.failed ≡ write_failed result }
        ensures open { is_some self.new.file ≡ true }
        ensures bytes { let before = option_and_then F.contents self.old.file in
            WriteAppends before (option_and_then F.contents self.new.file) result bytes.now }
    {
        let Some(file) = &mut self.file else {
            unreachable!()
        };
        note_write(file.write(bytes), &mut self.failed)
    }
}

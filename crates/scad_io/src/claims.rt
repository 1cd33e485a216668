//! The files that a desk has to do with, by what the system tells of them and not by their names.
ghost use Rattle.std.specs.Prelude.{◌≡◌, ◌∷◌, ◌↔◌, Some, take, true};
ghost use Rattle.std.specs.List.{Contains};

use std::fs::{OpenFile, OpenOptions};
use std::io::ErrorKind;
use std::os::unix::fs::MetadataExt;
use std::rt::Files;
use std::{fs, io};

/// How many files are held at once: a run opens two at most, and creates two.
const HELD: usize = 4;

/// Which regular file something is: its device, and its number there. All names and links of one
/// file lead to the same.
#[derive(Clone, Copy, PartialEq, Eq)]
pub struct FileId {
    device: u64,
    number: u64,
}

/// Which regular file this is, or None: devices and pipes hold no bytes to lose.
fn id_of<F: OpenFile>(file: &F) -> io::Result<Option<FileId>> {
    let metadata = file.metadata()?;
    Ok(
        metadata.is_file().then_some(FileId {
            device: metadata.dev(),
            number: metadata.ino(),
        }),
    )
}

/// The regular files that were opened or created last.
#[derive(Drop)]
pub struct Claims {
    held: [Option<FileId>; HELD],
}

impl Claims {
    /// No file is claimed.
    pub fn none() -> Claims {
        Claims { held: [None; HELD] }
    }

    fn has(&self, file: FileId) -> bool
        ensures { (result ≡ true) ↔ Contains self.now.held (Some file) }
    {
        self.held.contains(&Some(file))
    }

    fn add(&mut self, file: FileId)
        ensures { self.new.held ≡ take HELD (Some file ∷ self.old.held) }
    {
        let [a, b, c, _] = self.held;
        self.held = [Some(file), a, b, c];
    }

    /// Opens a file for reading, which is claimed from then on.
    pub fn open<R: Files>(&mut self, rt: &R, name: &str) -> io::Result<R::File> {
        let file = fs::open(rt, name)?;
        if let Some(id) = id_of(&file)? {
            self.add(id);
        }
        Ok(file)
    }

    /// Creates a file for writing, or empties the one that is there; but a claimed one stays as it
    /// is, and that is an error.
    ///
    /// The file is opened as it is, looked at, and only then emptied: so nothing else can take its
    /// name between the look and the loss.
    pub fn create<R: Files>(&mut self, rt: &R, name: &str) -> io::Result<R::File> {
        let file = OpenOptions::new().write(true).create(true).open(rt, name)?;
        if let Some(id) = id_of(&file)? {
            if self.has(id) {
                return Err(io::Error::from(ErrorKind::AlreadyExists));
            }
            self.add(id);
            file.set_len(0)?;
        }
        Ok(file)
    }
}

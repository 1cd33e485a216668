//! What the words ask for.

use scad_fault::FileName;
use thiserror::Error;

/// A command with the files or the number that it names.
pub enum Command {
    /// Reads a model and reports its size.
    Check(FileName),
    /// Reads a model and reports its tree.
    Tree(FileName),
    /// Reads a model, the first, and writes its outlines, the second.
    Slice(FileName, FileName),
    /// Reads a model, the first, and writes its outlines, the second, and its printing program, the third.
    Plan(FileName, FileName, FileName),
    /// Plans the sample of this number.
    Sample(u32),
    /// Reads outlines, the first, and a printing program, the second, and judges the moves of this one by them.
    Verify(FileName, FileName),
}

// Let go by one call wherever it is owned; what is derived is done in place there.
impl Drop for Command {
    fn drop(self) {
        match self {
            Command::Sample(_) => {}
            Command::Check(_model) => {}
            Command::Tree(_model) => {}
            Command::Slice(_model, _outlines) => {}
            Command::Plan(_model, _outlines, _program) => {}
            Command::Verify(_outlines, _program) => {}
        }
    }
}

/// A command, the file of its settings, where one is named, and how many workers share the layers.
pub struct Job {
    pub command: Command,
    pub settings: Option<FileName>,
    pub workers: u32,
}

// Let go by one call wherever it is owned; what is derived is done in place there.
impl Drop for Job {
    fn drop(self) {
        let Job {
            command: _command,
            settings: _settings,
            workers: _,
        } = self;
    }
}

/// Why words give no job.
#[derive(Clone, Copy, Debug, Error)]
pub enum WordFault {
    #[error("the words are of no command's form")]
    Usage,
    #[error("memory ran out")]
    Memory,
}

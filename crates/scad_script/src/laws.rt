//! Laws of runs, each carried by the contract of a function that does nothing.
ghost use Rattle.scad_script.specs.Laws.{StatusesKeepPromises, FilesAreFronts, NamesAreGiven, CreatedForBytes, FailedReportsAreWrite};

/// Each status keeps its promise: the whole answer, or the lines of the report and the objects that
/// have failed.
#[tactic(auto, using(crate::proofs::StatusPromises::statuses_keep_promises))]
pub fn statuses_keep_promises()
    ensures { StatusesKeepPromises }
{}

/// Both files are fronts of the answer's, and lack its end where they failed in a write.
pub fn files_are_fronts()
    ensures { FilesAreFronts }
{}

/// The names that are handed in are those that were given.
pub fn names_are_given()
    ensures { NamesAreGiven }
{}

/// An output is created only where it gets bytes, at every status but Write and Memory.
pub fn created_for_bytes()
    ensures { CreatedForBytes }
{}

/// A report that has failed makes the status Write.
#[tactic(auto, using(crate::proofs::StatusPromises::failed_reports_are_write))]
pub fn failed_reports_are_write()
    ensures { FailedReportsAreWrite }
{}

//! The whole run of a command.
ghost use Rattle.std.specs.Prelude.{◌≡◌, ◌<◌, ◌≤◌, map, string_bytes};
ghost use Rattle.scad_script.specs.Run.{IsReady, RunsTo};
ghost use Rattle.scad_script.specs.Promises.{IsReadFault, IsWriteFault, IsMemoryLine};
ghost use Rattle.scad_script.specs.Promises.{AreFronts, HandsIn, CreatesForBytes, FailedReportIsWrite};
ghost use Rattle.scad_words.specs.Job.{job_of};
ghost use Rattle.scad_run.specs.Words.{given_by};
ghost use Rattle.scad_run.specs.Answer.{OnScript};
ghost use Rattle.scad_run.specs.Headline.{Headline};
ghost use Rattle.scad_run.specs.Meaning.{Means};
ghost use Rattle.scad_run.specs.Printing.{PlanAddsPrint};
ghost use Rattle.scad_run.specs.Assurance.{VerifiesMoves};
ghost use Rattle.scad_run.specs.Approval.{Confirms};
ghost use Rattle.scad_run.specs.Cut.{CutsShort};
ghost use Rattle.scad_run.specs.ByGrammar.{SourcesGoByGrammar};
ghost use Rattle.scad_run.specs.Promises.{Answers, OutlinesHoldTree, Refuses, LeavesOutputs, JudgesWords, IsComplete};

use crate::work::work;
use print_laws::laws::{layers_are_printed, prints_are_one};
use scad_fault::Status;
use scad_grammar::laws::judges_as_the_grammar;
use scad_io::{Desk, Gate};
use scad_script::report;
use std::alloc::Global;
use std::thread::Threads;

/// Runs the command of these words, those behind the program's name, over a desk. The layers of a part are shared among
/// as many workers as the words say; the runtime gives them threads where it can, and else works them one after another.
///
/// What is said of bytes and names holds where the desk tells them. A desk that doesn't tell what the files contain leaves
/// open which of the statuses Done, Source, Over, Outside, BadFile and, where settings are named, Settings comes. Want of memory may come at
/// any point that takes memory; every other status has a clause that says when it comes.
pub fn run<R: Threads + Sync, D: Desk, G: Gate>(
    rt: &R,
    alloc: Global,
    words: &[String],
    desk: &mut D,
    gate: &G,
) -> Status
    requires ready { IsReady (D.view desk.old) }

    // The headline, by what the language says that sources mean.
    ensures headline { Headline Means (map string_bytes words.now) (D.files desk.old) result (D.view desk.old)
        (D.view desk.new) (D.faults desk.old) (D.faults desk.new) }

    // The run plays the script of the words, of what was read of the named files, of what is drawn of the source's tree
    // and of what a program is found to be, to its end or until it stops, and then, unless the report has failed, tries the last line. It says what
    // the desk shows, not how many calls were made.
    ensures runs { OnScript (map string_bytes words.now) (D.files desk.old)
        (λ whole. RunsTo whole result (D.view desk.old) (D.view desk.new)) }

    // The status and all bytes are one function of the words and the files.
    ensures answer { Answers (map string_bytes words.now) (D.files desk.old) result (D.view desk.old) (D.view desk.new) }

    // What `plan` added to both files is a print of the source's tree, and nothing else is one.
    ensures print { result ≡ Status.Done
        → PlanAddsPrint (map string_bytes words.now) (D.files desk.old) (D.view desk.old) (D.view desk.new) }

    // What a source means goes by the grammar of programs.
    ensures grammar { SourcesGoByGrammar }

    // The outlines that `slice` or `plan` wrote hold what the source's tree contains, and lie near to its border.
    ensures outlines { result ≡ Status.Done
        → OutlinesHoldTree (map string_bytes words.now) (D.files desk.old) (D.view desk.old) (D.view desk.new) }

    // Where `verify` answers Done each extruding move of the program stays inside the outlines by the clearance.
    ensures verified { result ≡ Status.Done → VerifiesMoves (map string_bytes words.now) (D.files desk.old) }

    // Where each move of the program that extrudes stays inside, `verify` says so, unless memory is wanting or something
    // fails. So it says of what `plan` wrote by the same settings: the law `prints_are_confirmed`.
    ensures confirms { Confirms (map string_bytes words.now) (D.files desk.old) result (D.view desk.old) (D.view desk.new)
        (D.faults desk.old) (D.faults desk.new) }

    // When each other status comes, and how the files then stand.
    ensures words { JudgesWords (map string_bytes words.now) result }
    ensures refusal { OnScript (map string_bytes words.now) (D.files desk.old)
        (λ whole. Refuses whole result (D.view desk.old) (D.view desk.new)) }
    ensures cut { CutsShort (map string_bytes words.now) (D.files desk.old) result (D.view desk.old) (D.view desk.new) }
    ensures read_fault { result ≡ Status.Read
        → IsReadFault (given_by (map string_bytes words.now)) (D.view desk.old) (D.view desk.new) }
    ensures read_cause { result ≡ Status.Read → D.faults desk.old < D.faults desk.new }
    ensures write_fault { result ≡ Status.Write → OnScript (map string_bytes words.now) (D.files desk.old)
        (λ whole. IsWriteFault (given_by (map string_bytes words.now)) whole (D.view desk.old) (D.view desk.new)) }
    ensures write_cause { result ≡ Status.Write → D.faults desk.old < D.faults desk.new }
    ensures memory { result ≡ Status.Memory → OnScript (map string_bytes words.now) (D.files desk.old)
        (λ whole. IsMemoryLine whole (D.view desk.old) (D.view desk.new)) }
    ensures failed_report { FailedReportIsWrite result (D.view desk.new) }
    ensures complete { IsComplete (map string_bytes words.now) (D.files desk.old) result (D.faults desk.old) (D.faults desk.new) }

    // Both files are fronts of the answer's bytes, at every status; but for Write and Memory none is created that gets no
    // bytes.
    ensures front { OnScript (map string_bytes words.now) (D.files desk.old)
        (λ whole. AreFronts whole (D.view desk.old) (D.view desk.new)) }
    ensures created { CreatesForBytes result (D.view desk.old) (D.view desk.new) }

    // `check`, `tree`, `sample` and `verify` write to nothing but the report.
    ensures leaves { LeavesOutputs (job_of (map string_bytes words.now)) (D.view desk.old) (D.view desk.new) }

    // At every status.
    ensures names { HandsIn (given_by (map string_bytes words.now)) (D.view desk.old) (D.view desk.new) }
    ensures files { D.files desk.new ≡ D.files desk.old }
    ensures faults { D.faults desk.old ≤ D.faults desk.new }
{
    layers_are_printed();
    prints_are_one();
    judges_as_the_grammar();
    let ended = work(rt, alloc, words, desk, gate);
    report(alloc, ended, desk)
}

//! Laws of what sources mean, of the answer and of prints, each carried by the contract of a function that does nothing.
ghost use Rattle.scad_run.specs.Laws.{SourcesMeanSolids, SourcesWantNoMemory, SourcesMeanOne};
ghost use Rattle.scad_run.specs.Laws.{SettingsAreInRange, AnswersAreThere, AnswersAreOne, AnswersLackFiles, PrintsAreConfirmed};

use verdict_laws::laws::prints_stay_inside;

/// The tree that a source means is of solids; no source means that memory is wanting.
pub fn sources_mean_solids()
    ensures solids { SourcesMeanSolids }
    ensures no_want { SourcesWantNoMemory }
{}

/// A source means a tree, a fault or a budget, and one of them alone.
pub fn sources_mean_one()
    ensures { SourcesMeanOne }
{}

/// The settings that a run goes by are in their ranges.
pub fn settings_are_in_range()
    ensures { SettingsAreInRange }
{}

/// There are parts of every tree that a source means, and all parts give one answer.
pub fn answers_are_one()
    ensures there { AnswersAreThere }
    ensures one { AnswersAreOne }
{}

/// There is no answer only where a file that is to be read is missing.
pub fn answers_lack_files()
    ensures { AnswersLackFiles }
{}

/// A print of a source's tree, which `plan` writes without support lines, is answered `inside` by the same settings, unless memory is wanting or
/// something fails: each run that confirms all verdicts, as its clause `confirms` says, confirms prints.
pub fn prints_are_confirmed()
    ensures { PrintsAreConfirmed }
{
    prints_stay_inside();
}

//! Evaluation of a source, with its echo lines.
ghost use Rattle.std.specs.Prelude.{◌≡◌, ◌-◌, ◌^◌, ◌<◌, ◌∷◌, [], length, IfOk};
ghost use Rattle.scad_io.specs.declared.desk.Out.TheVariants.{Report};
ghost use Rattle.scad_script.specs.Steps.{Sends};
ghost use Rattle.scad_script.specs.Script.{first};
ghost use Rattle.scad_script.specs.Play.{Carries};
ghost use Rattle.scad_script.specs.Run.{Sound};
ghost use Rattle.scad_script.specs.Departure.{Keeps};
ghost use Rattle.scad_tree.specs.View.{solid_of};
ghost use Rattle.scad_run.specs.Meaning.{source_means, MeansTree};
ghost use Rattle.scad_run.specs.SourceReport.{echo_text, refusal_of};
ghost use Rattle.scad_run.specs.Playing.{Tells};

use crate::meaning::model_of_source;
use scad_expr::EvalFault;
use scad_fault::Text;
use scad_inst::{Model, ModelEnd};
use scad_io::{Desk, Out};
use scad_script::{Refusal, Stop, send};
use scad_tree::Tree;
use std::alloc::{AllocError, Global};

/// Evaluates the source and writes its echo lines, also those before a fault: its tree.
pub fn evaluate<D: Desk>(alloc: Global, source: &[u8], desk: &mut D) -> Result<Tree, Stop>
    requires short { length source.now < 2 ^ 32 - 1 }
    requires sound { Sound (D.view desk.old) }

    ensures tells { Tells (source_means source.now) result (D.view desk.old) (D.view desk.new) }
    ensures means { IfOk result (λ tree. MeansTree (solid_of tree) source.now) }
    ensures kept { Keeps D.files D.view D.faults desk.old desk.new result }
{
    match model_of_source(alloc, source) {
        Ok(Model { tree, echoes }) => {
            echo(alloc, &echoes, desk)?;
            Ok(tree)
        }
        Err(ModelEnd { fault, echoes }) => {
            let Some(refusal) = refusal_of(fault) else {
                return Err(Stop::Memory);
            };
            echo(alloc, &echoes, desk)?;
            Err(Stop::Ends(refusal))
        }
    }
}

/// The refusal for a fault or a budget of evaluation.
fn refusal_of(fault: EvalFault) -> Option<Refusal>
    ensures { result ≡ refusal_of fault }
{
    match fault {
        EvalFault::Fault(fault) => Some(Refusal::Source(fault)),
        EvalFault::Over(budget) => Some(Refusal::Over(budget)),
        EvalFault::Memory => None,
    }
}

/// Writes all echo lines by one write.
fn echo<D: Desk>(alloc: Global, lines: &[Text], desk: &mut D) -> Result<(), Stop>
    requires sound { Sound (D.view desk.old) }

    ensures carries { Carries (first (Sends Report (echo_text lines.now) ∷ [])) result (D.view desk.old) (D.view desk.new) }
    ensures kept { Keeps D.files D.view D.faults desk.old desk.new result }
{
    let text = echo_text(alloc, lines)?;
    send(desk, Out::Report, &text)
}

/// The lines, each ended by a line feed.
#[tactic(auto, unfolding(crate::specs::SourceReport::echo_text))]
fn echo_text(alloc: Global, lines: &[Text]) -> Result<Vec<u8>, AllocError>
    ensures { IfOk result (λ text. text.items ≡ echo_text lines.now) }
{
    let mut text = Vec::new(alloc);
    'lines: for line in lines {
        text.extend_from_slice(line.as_slice())?;
        text.extend_from_slice(b"\n")?;
    }
    Ok(text)
}

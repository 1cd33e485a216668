//! All layers of a part.
ghost use Rattle.std.specs.Prelude.{◌≡◌, ◌+◌, ◌<◌, ◌≤◌, IfOk};
ghost use Rattle.scad_script.specs.Script.{layers};
ghost use Rattle.scad_script.specs.Play.{Carries};
ghost use Rattle.scad_script.specs.Run.{Sound};
ghost use Rattle.scad_script.specs.Departure.{Keeps};
ghost use Rattle.slice_work.specs.Part.{Part, layer_limit};
ghost use Rattle.slice_work.specs.Shares.{AreDrawnOf};
ghost use Rattle.slice_work.specs.Rounds.{IsWhole};
ghost use Rattle.slice_work.specs.Script.{AreRates, AreThere, layer_steps, stopped};
ghost use Rattle.slice_work.specs.Rates.{rates_of};
ghost use Rattle.slice_work.specs.Sums.{AreSums, IsSummary};

use crate::fault::WorkFault;
use crate::layer_lines::send_layer;
use crate::layer_work::LayerWork;
use crate::print::Print;
use crate::round::{ROUND_LIMIT, Round, work_round};
use crate::round_layers::{budget_of, layout_of};
use crate::summary::Summary;
use crate::sums::Sums;
use crate::want::Want;
use gcode_text::Rates;
use scad_io::Desk;
use scad_words::Settings;
use std::alloc::Global;
use std::thread::Threads;

/// Works so many layers of a part and writes them in order.
///
/// The layers go in rounds of 64. In a round the print's workers draw the layers from one board, in threads where the
/// runtime gives them; then the round's layers are written, each output of a layer by one write, up to the first layer
/// that passes a budget, which is answered. The bytes and the answer are the same for every number of workers.
pub fn work<R: Threads + Sync, W: LayerWork, D: Desk>(
    rt: &R,
    alloc: Global,
    count: u32,
    work: &W,
    print: &Print,
    desk: &mut D,
) -> Result<Summary, WorkFault>
    requires few { count ≤ layer_limit }
    requires sound { Sound (D.view desk.old) }
    requires there { AreThere print.now.want (D.view desk.old) }

    ensures carries { (part : Part) → W.draws work.now part
        → Carries (layers (layer_steps print.now.want (rates_of print.now.settings) part) 0 count) (stopped result)
        (D.view desk.old) (D.view desk.new) }
    ensures summary { IfOk result (λ s. (part : Part) → W.draws work.now part
        → IsSummary print.now.want (rates_of print.now.settings) part count s) }
    ensures kept { Keeps D.files D.view D.faults desk.old desk.new (stopped result) }
{
    let rates = rates_of(&print.settings);
    let mut sums = Sums::NONE;
    let mut first = 0;
    'rounds: while first < count {
        let size = ROUND_LIMIT.min(count - first);
        let round = work_round(rt, alloc, first, size, print.workers, work)?;
        sums = send_round(alloc, print.want, &rates, &round, sums, desk)?;
        first += size;
    }
    match sums.summary(count, &rates) {
        Some(summary) => Ok(summary),
        None => Err(WorkFault::Memory),
    }
}

// Writes the layers of a round, up to the first that passes a budget.
fn send_round<D: Desk>(
    alloc: Global,
    want: Want,
    rates: &Rates,
    round: &Round,
    sums: Sums,
    desk: &mut D,
) -> Result<Sums, WorkFault>
    requires rates { AreRates rates.now }
    requires round { IsWhole round.now }
    requires sound { Sound (D.view desk.old) }
    requires there { AreThere want (D.view desk.old) }

    ensures carries { (part : Part) → AreDrawnOf part round.now.done.items
        → AreSums want rates.now part round.now.first sums
        → Carries (layers (layer_steps want rates.now part) round.now.first round.now.count) (stopped result)
        (D.view desk.old) (D.view desk.new) }
    ensures sums { IfOk result (λ s. (part : Part) → AreDrawnOf part round.now.done.items
        → AreSums want rates.now part round.now.first sums
        → AreSums want rates.now part (round.now.first + round.now.count) s) }
    ensures kept { Keeps D.files D.view D.faults desk.old desk.new (stopped result) }
{
    let mut sums = sums;
    'layers: for n in 0..round.least {
        let layer = layout_of(round, n);
        sums = send_layer(alloc, want, rates, &layer, sums, desk)?;
    }
    if round.least < round.count {
        return Err(WorkFault::Over(budget_of(round)));
    }
    Ok(sums)
}

fn rates_of(settings: &Settings) -> Rates
    ensures { result ≡ rates_of settings.now }
{
    Rates {
        line_width: settings.line_width,
        layer_height: settings.layer_height,
        filament_area: settings.filament_area,
        print_feed: settings.print_feed,
        travel_feed: settings.travel_feed,
    }
}

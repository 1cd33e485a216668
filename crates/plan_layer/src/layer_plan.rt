//! The plan of a layer.
ghost use Rattle.std.specs.Prelude.{◌≡◌, ◌*◌, ◌/◌, ◌-◌, ◌≤◌, ◌++◌, length, IfOk, IfErr, IfSome, All};
ghost use Rattle.std.specs.List.{sum_by};
ghost use Rattle.scad_geom.specs.Limits.{point_limit};
ghost use Rattle.scad_geom.specs.Within.{IsWithin};
ghost use Rattle.scad_words.specs.Settings.{AreInRange};
ghost use Rattle.plan_layer.specs.Moves.{all_moves, move_limit};
ghost use Rattle.plan_layer.specs.Plan.{IsPlan};
ghost use Rattle.plan_layer.specs.Clearance.{PathsKeepClear};
ghost use Rattle.plan_layer.specs.Refusal.{AreAccepted, IsManyMoves, IsRefusal};

use crate::fault::PlanFault;
use crate::infill_paths::push_infill;
use crate::laws::plans_keep_clear;
use crate::lines::filled_lines;
use crate::wall_paths::wall_paths;
use scad_geom::{Loop, Path};
use scad_words::Settings;
use std::alloc::Global;

/// The most extruding moves of a layer.
pub const MOVE_LIMIT: u64 = 200_000;

/// The paths of a layer, in the order in which they are printed. Each side of a path is one extruding move. The last
/// `runs` of `paths` are the runs of infill, each from its first point to its last; `supports` come behind them.
#[derive(Drop)]
pub struct LayerPlan {
    pub paths: Vec<Path>,
    pub runs: u64,
    pub supports: Vec<Path>,
}

/// The plan of a layer over its outlines: the loops of its walls, from the outermost on, each from its first vertex
/// round to it again, and then the runs of infill. On even layers these lie in rows, on odd ones in columns, at the
/// whole multiples of the spacing; on the first line with runs, the third and so on they go upwards, on the others
/// downwards.
///
/// Each point of each move keeps the clearance of c, half the width of a line, from each side of the outlines: `c - 1`
/// along an axis or `reach(c) - 2` along the sum of both; and they wind round it. Each path has at least two points, and
/// all together have at most 400,000.
///
/// Support runs are handed in and given back behind the paths; nothing is asked of them, and their moves are counted.
///
/// It is refused exactly where a wall is, with the fault of the outermost such wall, and then where the plan with its
/// supports has more than 200,000 extruding moves.
pub fn plan(
    alloc: Global,
    outlines: &[Loop],
    layer: u32,
    settings: &Settings,
    supports: Vec<Path>,
) -> Result<LayerPlan, PlanFault>
    requires within { All (λ l. All (IsWithin point_limit) l) outlines.now }
    requires settings { AreInRange settings.now }
    ensures plan { IfOk result (λ p. IsPlan outlines.now layer settings.now p.paths.items p.runs) }
    ensures clear { IfOk result (λ p. PathsKeepClear outlines.now (settings.now.line_width / 2) p.paths.items) }
    ensures accepted { IfOk result (λ p. AreAccepted outlines.now settings.now.line_width settings.now.walls) }
    ensures supports { IfOk result (λ p. p.supports.items ≡ supports.items) }
    ensures moves { IfOk result (λ p. length (all_moves (p.paths.items ++ supports.items)) ≤ move_limit) }
    ensures ways { IfOk result (λ p. All (λ path. 2 ≤ length path) p.paths.items) }
    ensures points { IfOk result (λ p. sum_by length p.paths.items ≤ 2 * move_limit) }
    ensures refused { IfErr result (IsRefusal outlines.now layer settings.now supports.items) }
{
    let mut paths = wall_paths(alloc, outlines, settings)?;
    let walls = paths.len();
    let lines = filled_lines(alloc, outlines, layer, settings)?;
    push_infill(alloc, &mut paths, layer, &lines)?;
    plans_keep_clear();
    judged(paths, walls, supports)
}

// Paths and supports with too many moves are refused. The paths behind so many are runs of infill.
fn judged(paths: Vec<Path>, walls: usize, supports: Vec<Path>) -> Result<LayerPlan, PlanFault>
    requires walls { walls ≤ length paths.items }
    ensures kept { IfOk result (λ p. p.paths.items ≡ paths.items) }
    ensures runs { IfOk result (λ p. p.runs ≡ length paths.items - walls) }
    ensures supports { IfOk result (λ p. p.supports.items ≡ supports.items) }
    ensures few { IfOk result (λ p. length (all_moves (p.paths.items ++ supports.items)) ≤ move_limit) }
    ensures many { IfErr result (IsManyMoves (paths.items ++ supports.items)) }
{
    match count_of_both(&paths, &supports) {
        Some(count) if count > MOVE_LIMIT => Err(PlanFault::Moves(count)),
        Some(_) => {
            let runs = (paths.len() - walls) as u64;
            Ok(LayerPlan {
                paths,
                runs,
                supports,
            })
        }
        None => Err(PlanFault::Memory),
    }
}

// How many moves paths and supports have together; none where the number has more than 64 bits.
fn count_of_both(paths: &[Path], supports: &[Path]) -> Option<u64>
    ensures { IfSome result (λ n. n ≡ length (all_moves (paths.now ++ supports.now))) }
{
    let own = count_of_moves(paths)?;
    own.checked_add(count_of_moves(supports)?)
}

// How many moves paths have; none where the number has more than 64 bits, for which there is no memory.
fn count_of_moves(paths: &[Path]) -> Option<u64>
    ensures { IfSome result (λ n. n ≡ length (all_moves paths.now)) }
{
    let mut count: u64 = 0;
    'paths: for path in paths {
        let moves = path.as_slice().len().saturating_sub(1);
        count = count.checked_add(moves as u64)?;
    }
    Some(count)
}

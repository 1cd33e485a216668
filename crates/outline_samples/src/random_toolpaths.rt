//! Random outlines that cross themselves and one another: their runs, walls and plans, each as one number, which independent
//! programs have made too.
ghost use Rattle.scad_words.specs.Settings.{AreInRange};

use crate::cases::expect;
use crate::numbers::number_with;
use plan_infill::{Line, Run, runs};
use plan_layer::{PlanFault, plan};
use plan_walls::walls;
use sample_dice::{Dice, roll_outlines};
use scad_geom::{Loop, Path};
use scad_words::Settings;
use slice_border::BoolFault;
use std::alloc::{AllocError, Global};

fn number_with_runs(before: i64, runs: &[Run]) -> i64 {
    let mut number = before;
    'runs: for run in runs {
        number = number_with(number, run.from as i64 * 300 + run.to as i64 + 1);
    }
    number
}

// Of the runs in a row and in a column of the outlines of some seeds.
fn number_of_runs(alloc: Global, seeds: u64) -> Result<i64, AllocError> {
    let mut number = 0;
    'seeds: for seed in 0..seeds {
        let mut dice = Dice::of_seed(seed);
        let outlines = roll_outlines(alloc, &mut dice, 0, 300)?;
        let c = dice.roll(12);
        let at = 60 + dice.roll(180) as i32;
        let least = dice.roll(30);
        let rows = runs(alloc, &outlines, c, Line::Row(at), least)?;
        let columns = runs(alloc, &outlines, c, Line::Column(at), least)?;
        number = number_with_runs(number_with_runs(number, &rows), &columns);
    }
    Ok(number)
}

fn number_with_loops(before: i64, loops: &[Loop]) -> i64 {
    let mut number = before;
    'loops: for points in loops {
        number = number_with(number, points.as_slice().len() as i64);
        'points: for p in points.as_slice() {
            number = number_with(number, p.x as i64 * 300 + p.y as i64);
        }
    }
    number
}

// Of the walls of the outlines of some seeds.
fn number_of_walls(alloc: Global, seeds: u64) -> Result<i64, BoolFault> {
    let mut number = 0;
    'seeds: for seed in 0..seeds {
        let mut dice = Dice::of_seed(seed);
        let Ok(outlines) = roll_outlines(alloc, &mut dice, 0, 300) else {
            return Err(BoolFault::Memory);
        };
        let c = 1 + dice.roll(20);
        number = number_with_loops(number, &walls(alloc, &outlines, c)?);
    }
    Ok(number)
}

// One to three walls of thin lines, with infill.
fn roll_settings(dice: &mut Dice) -> Settings
    ensures { AreInRange result }
{
    let line_width = 100 + dice.roll(60);
    let walls = 1 + dice.roll(3);
    let infill_spacing = 40 + dice.roll(400);
    Settings {
        line_width,
        walls,
        infill_spacing,
        ..Settings::defaults()
    }
}

fn number_with_paths(before: i64, paths: &[Path]) -> i64 {
    let mut number = before;
    'paths: for path in paths {
        'points: for p in path.as_slice() {
            number = number_with(number, p.x as i64 * 4000 + p.y as i64 + 1);
        }
        number = number.wrapping_add(7).rem_euclid(1_000_000_007);
    }
    number
}

// Of the plans of the outlines of some seeds.
fn number_of_plans(alloc: Global, seeds: u64) -> Result<i64, PlanFault> {
    let mut number = 0;
    'seeds: for seed in 0..seeds {
        let mut dice = Dice::of_seed(seed);
        let outlines = roll_outlines(alloc, &mut dice, -2000, 4000)?;
        let settings = roll_settings(&mut dice);
        let layer = dice.roll(2);
        let made = plan(alloc, &outlines, layer, &settings, Vec::new(alloc))?;
        let with_paths = number_with_paths(number, &made.paths);
        number = number_with(with_paths, (made.runs % 1_000_000_007) as i64);
    }
    Ok(number)
}

#[test]
fn random_outlines_have_these_runs_walls_and_plans(rt: HostRuntime) {
    let runs = number_of_runs(rt.alloc(), 100).expect(&rt, "memory");
    expect(&rt, runs == 985_221_228, "the number of all runs");
    let walls = number_of_walls(rt.alloc(), 40).expect(&rt, "memory");
    expect(&rt, walls == 967_136_488, "the number of all walls");
    let plans = number_of_plans(rt.alloc(), 100).expect(&rt, "memory");
    expect(&rt, plans == 746_238_029, "the number of all plans");
}

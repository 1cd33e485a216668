//! The loops of walls as paths.
ghost use Rattle.std.specs.Prelude.{◌≡◌, ◌<◌, ◌≤◌, ◌++◌, map, IfOk, IfErr, OnOk, All};
ghost use Rattle.scad_geom.specs.Limits.{point_limit};
ghost use Rattle.scad_geom.specs.Within.{IsWithin};
ghost use Rattle.scad_ring.specs.Limits.{distance_limit};
ghost use Rattle.scad_words.specs.Rows.{line_width};
ghost use Rattle.scad_words.specs.Settings.{AreInRange};
ghost use Rattle.plan_layer.specs.Plan.{distance, round, AreWallPaths};
ghost use Rattle.plan_layer.specs.Refusal.{AreAccepted, IsWallsRefusal};

use crate::fault::PlanFault;
use plan_walls::walls;
use scad_geom::{Loop, Path, Pt};
use scad_words::Settings;
use std::alloc::{AllocError, Global};

/// The loops of all walls as paths, from the outermost wall on.
pub(crate) fn wall_paths(
    alloc: Global,
    outlines: &[Loop],
    settings: &Settings,
) -> Result<Vec<Path>, PlanFault>
    requires within { All (λ l. All (IsWithin point_limit) l) outlines.now }
    requires settings { AreInRange settings.now }
    ensures walls { IfOk result (λ v. AreWallPaths outlines.now settings.now v.items) }
    ensures accepted { IfOk result (λ v. AreAccepted outlines.now settings.now.line_width settings.now.walls) }
    ensures refused { IfErr result (IsWallsRefusal outlines.now settings.now) }
{
    let mut paths = Vec::new(alloc);
    'walls: for wall in 0..settings.walls {
        let loops = walls(alloc, outlines, distance(settings.line_width, wall))?;
        push_rounds(alloc, &mut paths, &loops)?;
    }
    Ok(paths)
}

// How far a wall lies inside the outlines.
fn distance(width: u32, wall: u32) -> u32
    requires width { width ≤ line_width.most }
    requires wall { wall < 10 }
    ensures value { result ≡ distance width wall }
    ensures size { result ≤ distance_limit }
{
    width / 2 + wall * width
}

fn push_rounds(alloc: Global, paths: &mut Vec<Path>, loops: &[Loop]) -> Result<(), AllocError>
    ensures { OnOk result (paths.new.items ≡ paths.old.items ++ map round loops.now) }
{
    'loops: for outline in loops {
        paths.push(round(alloc, outline.as_slice())?)?;
    }
    Ok(())
}

// From the first point of a loop round to it again.
fn round(alloc: Global, points: &[Pt]) -> Result<Path, AllocError>
    ensures { IfOk result (λ p. p ≡ round points.now) }
{
    let mut way = Vec::from_slice(alloc, points)?;
    match points {
        [] => {}
        [first, ..] => way.push(*first)?,
    }
    Ok(Path::from_vec(way))
}

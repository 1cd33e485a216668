//! A stretch of flat edges, from place to place.
ghost use Rattle.std.specs.Prelude.{◌≡◌, ◌<◌, ◌≤◌, ◌-◌, ◌++◌, ◌∷◌, [], ◌≤ℤ◌, List, true, false, if◌then◌else◌, nat_lt, filter, take, drop, length, unsigned_abs, Option, None, IfOk, OnOk, All};
ghost use Rattle.std.specs.List.{AllByRecursion};
ghost use Rattle.std.specs.List.Sorted.{IsPartitionPoint};
ghost use Rattle.scad_geom.specs.Limits.{coordinate_limit};
ghost use Rattle.winding_laws.specs.Edges.{rounded};
ghost use Rattle.slice_bundles.specs.Bundles.{edge_at};
ghost use Rattle.slice_pieces.specs.declared.piece.Spot.{Spot};
ghost use Rattle.slice_pieces.specs.Spots.{point_of, IsSpotWithin};
ghost use Rattle.slice_border.specs.Pieces.{whole_spot, passes_at, HasSpot};
ghost use Rattle.slice_border.specs.Stops.{is_left, AreStopsOf, spots_in};
ghost use Rattle.slice_outlines.specs.Marks.{left_of_first, mark_at, spot_at, names_in};
ghost use Rattle.slice_outlines.specs.declared.course.Course.{Course};
ghost use Rattle.slice_border.specs.declared.stop.Stop.{Stop};
ghost use Rattle.slice_sweep.specs.Front.{bundles_in};
ghost use Rattle.slice_border.specs.Beside.{AreMembers};
ghost use Rattle.slice_outlines.specs.Cursors.{StandForSome, StandOn, StayOn};
ghost use Rattle.slice_outlines.specs.Stops.{AllPass};
ghost use Rattle.slice_outlines.specs.Stretch.{AreStopsAt, TellWays, stretch_spots, HasReachedStops};
ghost use Rattle.slice_outlines.specs.Heights.{Onwards, IsOf, IsRunOf, AreInOrder, IsBalancedBefore, MeetAcross, marks_of};
ghost use Rattle.slice_outlines.specs.Ahead.{KeepsRight};
ghost use Rattle.slice_outlines.specs.Along.{LieBetween, LiesLeftOf, LiesRightOf, IsNextStop, IsBehindStop, IsWithinRun, HasComeOver, HasComeAlong, HasLive, IsNameTo, RoundAlike, value_over, BeginsBy, StartsAfter, goes_on, course_along, least, lesser, begun_at};

use crate::changing::find_values;
use crate::course::Course;
use crate::flat::Flat;
use crate::height::{Height, Open};
use crate::mark::{Mark, begin, value_at};
use crate::passing::{Beside, pass_strands};
use crate::run::Run;
use crate::stops::{stop_of, stops};
use scad_geom::Pt;
use slice_border::{Stop, compare, whole_spot};
use slice_pieces::rounded;
use std::alloc::{AllocError, Global};

/// The strands below a height and above it that lie from one x to another.
pub(crate) fn run_between(height: &Height<'_>, above: &[Mark], left: i32, right: i32) -> Run
    requires left { unsigned_abs left ≤ coordinate_limit }
    requires right { unsigned_abs right ≤ coordinate_limit }
    requires ends { left ≤ℤ right }
    requires below { AreInOrder height.now height.now.below.now }
    requires above { AreInOrder height.now above.now }
    requires below_pass { AllPass height.now.edges.now height.now.at.now height.now.below.now }
    requires above_pass { AllPass height.now.edges.now height.now.at.now above.now }
    ensures run { IsRunOf height.now.below.now above.now result }
    ensures below { LieBetween height.now left right height.now.below.now result.below result.below_to }
    ensures above { LieBetween height.now left right above.now result.above result.above_to }
{
    let from = whole_spot(left, height.at);
    let to = whole_spot(right, height.at);
    Run {
        below: first_from(height, height.below, &from),
        below_to: first_behind(height, height.below, &to),
        above: first_from(height, above, &from),
        above_to: first_behind(height, above, &to),
    }
}

// How many strands lie to the left of a place.
fn first_from(height: &Height<'_>, marks: &[Mark], s: &Stop) -> usize
    requires order { AreInOrder height.now marks.now }
    requires pass { AllPass height.now.edges.now height.now.at.now marks.now }
    ensures bound { result ≤ length marks.now }
    ensures point { IsPartitionPoint (λ m. LiesLeftOf height.now s.now m) (λ m. LiesLeftOf height.now s.now m → ⊥)
        marks.now result }
{
    let mut from = 0;
    let mut to = marks.len();
    'marks: while from < to {
        let middle = from + (to - from) / 2;
        if is_before(height, &marks[middle], s) {
            from = middle + 1;
        } else {
            to = middle;
        }
    }
    from
}

// How many don't lie to the right of it.
fn first_behind(height: &Height<'_>, marks: &[Mark], s: &Stop) -> usize
    requires order { AreInOrder height.now marks.now }
    requires pass { AllPass height.now.edges.now height.now.at.now marks.now }
    ensures bound { result ≤ length marks.now }
    ensures point { IsPartitionPoint (λ m. LiesRightOf height.now s.now m → ⊥) (λ m. LiesRightOf height.now s.now m)
        marks.now result }
{
    let mut from = 0;
    let mut to = marks.len();
    'marks: while from < to {
        let middle = from + (to - from) / 2;
        if is_behind(height, &marks[middle], s) {
            to = middle;
        } else {
            from = middle + 1;
        }
    }
    from
}

// Whether a strand passes the height to the left of a place.
fn is_before(height: &Height<'_>, mark: &Mark, s: &Stop) -> bool
    requires { passes_at (edge_at height.now.edges.now mark.now.name) height.now.at.now ≡ true }
    ensures { result ≡ is_left (spot_at height.now.edges.now height.now.at.now mark.now) s.now.spot }
{
    compare(&stop_of(height.edges, mark, height.at), s).is_lt()
}

// Whether it passes it to the right of the place.
fn is_behind(height: &Height<'_>, mark: &Mark, s: &Stop) -> bool
    requires { passes_at (edge_at height.now.edges.now mark.now.name) height.now.at.now ≡ true }
    ensures { result ≡ is_left s.now.spot (spot_at height.now.edges.now height.now.at.now mark.now) }
{
    compare(s, &stop_of(height.edges, mark, height.at)).is_lt()
}

/// Passes the places of a stretch, whose flat edges and whose strands are given.
pub(crate) fn pass_stretch(
    alloc: Global,
    height: &Height<'_>,
    kept: &mut Open,
    run: &Run,
    flats: &[Flat],
) -> Result<(), AllocError>
    requires members { AreMembers height.now.edges.now (bundles_in height.now.front.now) }
    requires stands { StandForSome height.now.edges.now (bundles_in height.now.front.now) kept.old.cursors }
    requires size { length kept.old.marks.items ≡ length (bundles_in height.now.front.now) }
    requires run { IsRunOf height.now.below.now kept.old.marks.items run.now }
    requires below_order { AreInOrder height.now height.now.below.now }
    requires above_order { AreInOrder height.now kept.old.marks.items }
    requires below_pass { AllPass height.now.edges.now height.now.at.now height.now.below.now }
    requires above_pass { AllPass height.now.edges.now height.now.at.now kept.old.marks.items }
    ensures passed { (on : Onwards) (passed : List Spot) → IsOf height.now on
        → IsBalancedBefore height.now on.shape run.now
        → StandOn height.now.edges.now on.shape (bundles_in height.now.front.now) kept.old.cursors
        → ((stops : List Stop) → AreStopsAt height.now stops
        → AreStopsOf (stretch_spots height.now kept.old.marks.items run.now flats.now) (spots_in stops)
        → TellWays height.now.edges.now flats.now stops)
        → OnOk result ((spots : List Spot)
        × AreStopsOf (stretch_spots height.now kept.old.marks.items run.now flats.now) spots
        × (HasReachedStops on passed spots run.now kept.old → (course : Option Course)
        × HasComeOver on (passed ++ spots) [] run.now run.now.below_to run.now.above_to course
        kept.new.marks.items kept.new.given.items kept.new.cursors)) }
    ensures right { OnOk result (KeepsRight run.now kept.old.marks.items kept.new.marks.items) }
    ensures stands { OnOk result (StayOn height.now.edges.now (bundles_in height.now.front.now) kept.old.cursors
        kept.new.cursors) }
{
    find_values(height, kept, run);
    pass_places(alloc, height, kept, run, flats)?;
    Ok(())
}

/// Passes the places of a stretch whose strands have their values.
pub(crate) fn pass_places(
    alloc: Global,
    height: &Height<'_>,
    kept: &mut Open,
    run: &Run,
    flats: &[Flat],
) -> Result<(), AllocError>
    requires run { IsRunOf height.now.below.now kept.old.marks.items run.now }
    requires below_order { AreInOrder height.now height.now.below.now }
    requires above_order { AreInOrder height.now kept.old.marks.items }
    requires below_pass { AllPass height.now.edges.now height.now.at.now height.now.below.now }
    requires above_pass { AllPass height.now.edges.now height.now.at.now kept.old.marks.items }
    ensures passed { (on : Onwards) (passed : List Spot) → IsOf height.now on
        → ((stops : List Stop) → AreStopsAt height.now stops
        → AreStopsOf (stretch_spots height.now kept.old.marks.items run.now flats.now) (spots_in stops)
        → TellWays height.now.edges.now flats.now stops)
        → OnOk result ((spots : List Spot)
        × AreStopsOf (stretch_spots height.now kept.old.marks.items run.now flats.now) spots
        × (HasComeOver on passed spots run.now run.now.below run.now.above None kept.old.marks.items
        kept.old.given.items kept.old.cursors → (course : Option Course)
        × HasComeOver on (passed ++ spots) [] run.now run.now.below_to run.now.above_to course
        kept.new.marks.items kept.new.given.items kept.new.cursors)) }
    ensures right { OnOk result (KeepsRight run.now kept.old.marks.items kept.new.marks.items) }
    ensures cursors { kept.new.cursors ≡ kept.old.cursors }
{
    let stops = stops_of(alloc, height, kept, run, flats)?;
    pass_stops(alloc, height, kept, run, flats, &stops)?;
    Ok(())
}

// The places of the strands of a stretch and of the ends of its flat edges.
fn stops_of(
    alloc: Global,
    height: &Height<'_>,
    kept: &Open,
    run: &Run,
    flats: &[Flat],
) -> Result<Vec<Stop>, AllocError>
    requires run { IsRunOf height.now.below.now kept.now.marks.items run.now }
    requires below_pass { AllPass height.now.edges.now height.now.at.now height.now.below.now }
    requires above_pass { AllPass height.now.edges.now height.now.at.now kept.now.marks.items }
    ensures stops { IfOk result (λ v. AreStopsOf (stretch_spots height.now kept.now.marks.items run.now flats.now)
        (spots_in v.items)) }
    ensures at { IfOk result (λ v. AreStopsAt height.now v.items) }
{
    let below = &height.below[run.below..run.below_to];
    let above = &kept.marks[run.above..run.above_to];
    let stops = stops(alloc, height.edges, height.at, below, above, flats)?;
    Ok(stops)
}

// Passes the places of a stretch, from left to right.
fn pass_stops(
    alloc: Global,
    height: &Height<'_>,
    kept: &mut Open,
    run: &Run,
    flats: &[Flat],
    stops: &[Stop],
) -> Result<(), AllocError>
    requires run { IsRunOf height.now.below.now kept.old.marks.items run.now }
    requires below_order { AreInOrder height.now height.now.below.now }
    requires above_order { AreInOrder height.now kept.old.marks.items }
    requires below_pass { AllPass height.now.edges.now height.now.at.now height.now.below.now }
    requires above_pass { AllPass height.now.edges.now height.now.at.now kept.old.marks.items }
    requires stops { AreStopsAt height.now stops.now }
    requires strands { AllByRecursion (λ m. HasSpot (spots_in stops.now)
        (spot_at height.now.edges.now height.now.at.now m)) (marks_of height.now kept.old.marks.items run.now) }
    ensures right { OnOk result (KeepsRight run.now kept.old.marks.items kept.new.marks.items) }
    ensures cursors { kept.new.cursors ≡ kept.old.cursors }
    ensures passed { (on : Onwards) (passed : List Spot) → IsOf height.now on
        → TellWays height.now.edges.now flats.now stops.now → OnOk result
        (HasComeOver on passed (spots_in stops.now) run.now run.now.below run.now.above None kept.old.marks.items
        kept.old.given.items kept.old.cursors → (course : Option Course)
        × HasComeOver on (passed ++ spots_in stops.now) [] run.now run.now.below_to run.now.above_to course
        kept.new.marks.items kept.new.given.items kept.new.cursors) }
{
    let mut along = Along {
        run: *run,
        below: run.below,
        above: run.above,
        begun: 0,
        live: Vec::new(alloc),
        flat: None,
    };
    'stops: for s in stops {
        pass_stop(height, kept, flats, &mut along, s)?;
    }
    Ok(())
}

/// How far a stretch is passed: up to which strands and flat edges, which flat edges go on to the right, and the piece
/// along the height that comes in.
#[derive(Drop)]
struct Along {
    run: Run,
    below: usize,
    above: usize,
    begun: usize,
    live: Vec<Flat>,
    flat: Option<Course>,
}

// Passes one place of a stretch.
fn pass_stop(
    height: &Height<'_>,
    kept: &mut Open,
    flats: &[Flat],
    along: &mut Along,
    s: &Stop,
) -> Result<(), AllocError>
    requires within { IsWithinRun height.now kept.old.marks.items along.old }
    requires below_pass { AllPass height.now.edges.now height.now.at.now height.now.below.now }
    requires above_pass { AllPass height.now.edges.now height.now.at.now kept.old.marks.items }
    requires begun { along.old.begun ≤ length flats.now }
    requires at { s.now.spot.at ≡ height.now.at.now }
    requires spot { IsSpotWithin coordinate_limit s.now.spot }
    requires next { IsNextStop height.now kept.old.marks.items along.old s.now }
    ensures within { OnOk result (IsWithinRun height.now kept.new.marks.items along.new) }
    ensures run { along.new.run ≡ along.old.run }
    ensures names { OnOk result (names_in kept.new.marks.items ≡ names_in kept.old.marks.items) }
    ensures right { OnOk result (drop along.old.run.above_to kept.new.marks.items
        ≡ drop along.old.run.above_to kept.old.marks.items) }
    ensures cursors { kept.new.cursors ≡ kept.old.cursors }
    ensures behind { OnOk result (IsBehindStop height.now kept.old.marks.items along.new s.now) }
    ensures below { OnOk result (along.old.below ≤ along.new.below) }
    ensures above { OnOk result (along.old.above ≤ along.new.above) }
    ensures begun { OnOk result (along.new.begun ≤ length flats.now) }
    ensures live { OnOk result (HasLive s.now flats.now along.old along.new) }
    ensures passed { (on : Onwards) (passed later : List Spot) → IsOf height.now on → OnOk result
        (IsNameTo height.now.edges.now s.now.spot later along.new.live.items
        (value_over height.now along.old.run kept.old.marks.items along.new.above)
        (left_of_first (drop along.new.below height.now.below.now) false)
        → HasComeAlong on passed (s.now.spot ∷ later) along.old kept.old
        → HasComeAlong on (passed ++ (s.now.spot ∷ [])) later along.new kept.new) }
{
    let run = run_at(height, kept, along, s);
    mend_live(along, flats, s)?;
    pass_run(height, kept, along, &run, s)?;
    Ok(())
}

// The strands that meet the height at the next stop.
fn run_at(height: &Height<'_>, kept: &Open, along: &Along, s: &Stop) -> Run
    requires within { IsWithinRun height.now kept.now.marks.items along.now }
    requires below_pass { AllPass height.now.edges.now height.now.at.now height.now.below.now }
    requires above_pass { AllPass height.now.edges.now height.now.at.now kept.now.marks.items }
    ensures below { result.below ≡ along.now.below }
    ensures above { result.above ≡ along.now.above }
    ensures run { IsRunOf height.now.below.now kept.now.marks.items result }
    ensures below_to { result.below_to ≤ along.now.run.below_to }
    ensures above_to { result.above_to ≤ along.now.run.above_to }
    ensures by { All (λ m. LiesRightOf height.now s.now m → ⊥) (marks_of height.now kept.now.marks.items result) }
    ensures below_behind { result.below_to < along.now.run.below_to
        → LiesRightOf height.now s.now (mark_at height.now.below.now result.below_to) }
    ensures above_behind { result.above_to < along.now.run.above_to
        → LiesRightOf height.now s.now (mark_at kept.now.marks.items result.above_to) }
{
    Run {
        below: along.below,
        below_to: strands_to(height, height.below, along.below, along.run.below_to, s),
        above: along.above,
        above_to: strands_to(height, &kept.marks, along.above, along.run.above_to, s),
    }
}

// Keeps the flat edges that go on from a stop.
fn mend_live(along: &mut Along, flats: &[Flat], s: &Stop) -> Result<(), AllocError>
    requires { along.old.begun ≤ length flats.now }
    ensures run { along.new.run ≡ along.old.run }
    ensures below { along.new.below ≡ along.old.below }
    ensures above { along.new.above ≡ along.old.above }
    ensures flat { along.new.flat ≡ along.old.flat }
    ensures begun { OnOk result (along.new.begun ≤ length flats.now) }
    ensures live { OnOk result (HasLive s.now flats.now along.old along.new) }
{
    let begun = begin_flats(&mut along.live, flats, along.begun, s)?;
    along.begun = begun;
    end_flats(&mut along.live, s);
    Ok(())
}

// Passes the strands of a stop, with what leads along the height.
fn pass_run(
    height: &Height<'_>,
    kept: &mut Open,
    along: &mut Along,
    run: &Run,
    s: &Stop,
) -> Result<(), AllocError>
    requires run { IsRunOf height.now.below.now kept.old.marks.items run.now }
    requires within { along.old.run.above_to ≤ length kept.old.marks.items }
    requires above_to { run.now.above_to ≤ along.old.run.above_to }
    requires below { run.now.below ≡ along.old.below }
    requires above { run.now.above ≡ along.old.above }
    requires spot { IsSpotWithin coordinate_limit s.now.spot }
    ensures run { along.new.run ≡ along.old.run }
    ensures below { OnOk result (along.new.below ≡ run.now.below_to) }
    ensures above { OnOk result (along.new.above ≡ run.now.above_to) }
    ensures begun { along.new.begun ≡ along.old.begun }
    ensures live { along.new.live ≡ along.old.live }
    ensures names { OnOk result (names_in kept.new.marks.items ≡ names_in kept.old.marks.items) }
    ensures right { OnOk result (drop along.old.run.above_to kept.new.marks.items
        ≡ drop along.old.run.above_to kept.old.marks.items) }
    ensures cursors { kept.new.cursors ≡ kept.old.cursors }
    ensures passed { (on : Onwards) (passed later : List Spot) → IsOf height.now on
        → RoundAlike height.now kept.old.marks.items run.now s.now.spot
        → MeetAcross height.now kept.old.marks.items run.now s.now.spot
        → OnOk result (IsNameTo height.now.edges.now s.now.spot later along.old.live.items
        (value_over height.now along.old.run kept.old.marks.items run.now.above_to)
        (left_of_first (drop run.now.below_to height.now.below.now) false)
        → HasComeAlong on passed (s.now.spot ∷ later) along.old kept.old
        → HasComeAlong on (passed ++ (s.now.spot ∷ [])) later along.new kept.new) }
{
    let beside = beside_of(height, kept, along, run, s);
    let from = pass_strands(&mut kept.given, height.below, &kept.marks, run, &beside)?;
    begin(&mut kept.marks, run.above, run.above_to, from);
    go_on(along, run, beside.flat_out, from);
    Ok(())
}

// What lies to the right of the strands of a stop, and what leads along the height.
fn beside_of(height: &Height<'_>, kept: &Open, along: &Along, run: &Run, s: &Stop) -> Beside
    requires within { along.now.run.above_to ≤ length kept.now.marks.items }
    requires spot { IsSpotWithin coordinate_limit s.now.spot }
    ensures below { result.below ≡ left_of_first (drop run.now.below_to height.now.below.now) false }
    ensures above { result.above ≡ value_over height.now along.now.run kept.now.marks.items run.now.above_to }
    ensures at { result.at ≡ rounded (point_of s.now.spot) }
    ensures flat_in { result.flat_in ≡ along.now.flat }
    ensures flat_out { result.flat_out ≡ course_along (least along.now.live.items)
        (value_over height.now along.now.run kept.now.marks.items run.now.above_to)
        (left_of_first (drop run.now.below_to height.now.below.now) false) (rounded (point_of s.now.spot)) }
{
    let below = value_at(height.below, run.below_to);
    let above = value_above(height, kept, &along.run, run.above_to);
    let at = rounded(&s.spot);
    Beside {
        below,
        above,
        flat_in: along.flat,
        flat_out: course_along(&along.live, above, below, at),
        at,
    }
}

// Behind the strands of a stop, with what leads on along the height, which begins at a point.
fn go_on(along: &mut Along, run: &Run, flat: Option<Course>, from: Pt)
    ensures run { along.new.run ≡ along.old.run }
    ensures below { along.new.below ≡ run.now.below_to }
    ensures above { along.new.above ≡ run.now.above_to }
    ensures begun { along.new.begun ≡ along.old.begun }
    ensures live { along.new.live ≡ along.old.live }
    ensures flat { along.new.flat ≡ begun_at from flat }
{
    along.flat = begun_at(flat, from);
    along.below = run.below_to;
    along.above = run.above_to;
}

// The place behind the strands of a stretch that don't lie to the right of a stop.
fn strands_to(height: &Height<'_>, marks: &[Mark], from: usize, to: usize, s: &Stop) -> usize
    requires from { from ≤ to }
    requires to { to ≤ length marks.now }
    requires pass { AllPass height.now.edges.now height.now.at.now marks.now }
    ensures from { from ≤ result }
    ensures to { result ≤ to }
    ensures passed { All (λ m. LiesRightOf height.now s.now m → ⊥) (take (result - from) (drop from marks.now)) }
    ensures next { result < to → LiesRightOf height.now s.now (mark_at marks.now result) }
{
    let mut i = from;
    'strands: while i < to {
        if is_behind(height, &marks[i], s) {
            return i;
        }
        i += 1;
    }
    i
}

// The value just above the height to the left of a strand, or to the right of the stretch, where it's that below.
fn value_above(height: &Height<'_>, kept: &Open, run: &Run, i: usize) -> bool
    requires { run.now.above_to ≤ length kept.now.marks.items }
    ensures { result ≡ (if nat_lt i run.now.above_to then (mark_at kept.now.marks.items i).left
        else left_of_first (drop run.now.below_to height.now.below.now) false) }
{
    if i < run.above_to {
        kept.marks[i].left
    } else {
        value_at(height.below, run.below_to)
    }
}

// Adds the flat edges that begin at a stop.
fn begin_flats(
    live: &mut Vec<Flat>,
    flats: &[Flat],
    from: usize,
    s: &Stop,
) -> Result<usize, AllocError>
    requires { from ≤ length flats.now }
    ensures from { IfOk result (λ n. from ≤ n) }
    ensures to { IfOk result (λ n. n ≤ length flats.now) }
    ensures live { IfOk result
        (λ n. live.new.items ≡ live.old.items ++ take (n - from) (drop from flats.now)) }
    ensures begun { IfOk result (λ n. All (BeginsBy s.now) (take (n - from) (drop from flats.now))) }
    ensures later { IfOk result (λ n. StartsAfter s.now (drop n flats.now)) }
{
    let to = begun_to(flats, from, s);
    live.extend_from_slice(&flats[from..to])?;
    Ok(to)
}

// The place behind those that begin at a stop or to its left.
fn begun_to(flats: &[Flat], from: usize, s: &Stop) -> usize
    requires { from ≤ length flats.now }
    ensures from { from ≤ result }
    ensures to { result ≤ length flats.now }
    ensures begun { All (BeginsBy s.now) (take (result - from) (drop from flats.now)) }
    ensures later { StartsAfter s.now (drop result flats.now) }
{
    let mut i = from;
    'flats: while i < flats.len() {
        if starts_after(&flats[i], s) {
            return i;
        }
        i += 1;
    }
    i
}

fn starts_after(e: &Flat, s: &Stop) -> bool
    ensures { result ≡ is_left s.now.spot (whole_spot e.now.left s.now.spot.at) }
{
    compare(s, &whole_spot(e.left, &s.spot.at)).is_lt()
}

// Drops those that end there.
fn end_flats(live: &mut Vec<Flat>, s: &Stop)
    ensures { live.new.items ≡ filter (goes_on s.now) live.old.items }
{
    live.retain(|e| goes_on(e, s));
}

fn goes_on(e: &Flat, s: &Stop) -> bool
    ensures { result ≡ goes_on s.now e.now }
{
    compare(s, &whole_spot(e.right, &s.spot.at)).is_lt()
}

// The piece along the height to the right of a place.
fn course_along(live: &[Flat], above: bool, below: bool, at: Pt) -> Option<Course>
    ensures { result ≡ course_along (least live.now) above below at }
{
    if above == below {
        return None;
    }
    match least(live) {
        None => None,
        Some(name) => Some(Course {
            name,
            forward: above,
            from: at,
        }),
    }
}

// The least number of flat edges.
fn least(live: &[Flat]) -> Option<u32>
    ensures { result ≡ least live.now }
{
    let mut least = None;
    'flats: for e in live {
        least = lesser(least, e.number);
    }
    least
}

fn lesser(least: Option<u32>, k: u32) -> Option<u32>
    ensures { result ≡ lesser least k }
{
    match least {
        None => Some(k),
        Some(j) => Some(if k < j { k } else { j }),
    }
}

fn begun_at(flat: Option<Course>, from: Pt) -> Option<Course>
    ensures { result ≡ begun_at from flat }
{
    match flat {
        None => None,
        Some(course) => Some(Course { from, ..course }),
    }
}

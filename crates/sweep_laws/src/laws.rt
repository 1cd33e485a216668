//! Laws of the definitions, each carried by the contract of a function that does nothing.
ghost use Rattle.sweep_laws.specs.Visits.{WalksMerge};
ghost use Rattle.sweep_laws.specs.Sweeps.{SweepsMerge, MergedEdgesMakeOutlines, MergedEdgesAreBalanced};
ghost use Rattle.sweep_laws.specs.Sweeps.{SweepsBegin, SweepsGoOn, SweepsEnd};
ghost use Rattle.sweep_laws.specs.Staying.{PlainPlacesPass, StrandsStay, GroupsEnd, GroupsGoOn};
ghost use Rattle.sweep_laws.specs.Flats.{FlatsCover, HeightsWithoutFlats};
ghost use Rattle.sweep_laws.specs.Stops.{PlacesAreStops, SpotsAreThere};
ghost use Rattle.sweep_laws.specs.Balance.{HeadingsAreBalanced, ValuesAreKept, BoundariesAreBalanced, StayingValues};
ghost use Rattle.sweep_laws.specs.Balance.{HeadingsAdd};
ghost use Rattle.sweep_laws.specs.Values.{ValuesGoOn};
ghost use Rattle.sweep_laws.specs.Steps.{StepsLift};
ghost use Rattle.sweep_laws.specs.Plain.{PlainHeightsPass, LastHeightsPass};
ghost use Rattle.sweep_laws.specs.Edges.{WaysGiveEdges, SameSpotsRoundAlike};

/// A sweep that visits each place once, and there lets a way go on where one comes in and one goes out, of one name and
/// direction, and else ends all that come in, merges pieces.
pub fn walks_merge()
    ensures { WalksMerge }
{}

/// What ends in the course of a sweep over the levels of an edge list makes, with rounded ends, the edges of merged
/// pieces of the border; from these, in whatever order, cancelling and joining make the outlines, and they are
/// balanced where the edges of each leaf are.
pub fn sweeps_merge()
    ensures merge { SweepsMerge }
    ensures outlines { MergedEdgesMakeOutlines }
    ensures balanced { MergedEdgesAreBalanced }
{}

/// A sweep begins below all levels, is lifted over one after another, and ends with the last.
pub fn sweeps_go_on()
    ensures begin { SweepsBegin }
    ensures on { SweepsGoOn }
    ensures end { SweepsEnd }
{}

/// A strand that comes to a height alone, with one value to its right below and above it, stays as it is.
pub fn strands_stay()
    ensures stay { StrandsStay }
    ensures plain { PlainPlacesPass }
{}

/// Of a group of strands at one place, all ways that come in end and those that go out begin, or one alone goes on.
pub fn groups_pass()
    ensures end { GroupsEnd }
    ensures on { GroupsGoOn }
{}

/// Places that edges meet, with the bundles below a height and above it as their strands, are the stops of the height.
pub fn places_are_stops()
    ensures stops { PlacesAreStops }
    ensures spots { SpotsAreThere }
{}

/// A stretch is covered by flat edges of its height alone; where none lies there, nothing leads from place to place.
pub fn flats_cover()
    ensures cover { FlatsCover }
    ensures none { HeightsWithoutFlats }
{}

/// Where the edges of each leaf are balanced and no flat edge leads from a place to its right, the headings of each
/// leaf's edges to the right have one sum below the height and above it, and a shape one value.
pub fn headings_are_balanced()
    ensures headings { HeadingsAreBalanced }
    ensures values { ValuesAreKept }
    ensures boundaries { BoundariesAreBalanced }
    ensures add { HeadingsAdd }
{}

/// The values of strands that stay are kept, so only new strands need one.
pub fn values_go_on()
    ensures kept { StayingValues }
    ensures all { ValuesGoOn }
{}

/// A front is lifted over a height by places that its edges meet, with new strands that have their values, if the
/// ways pass at each place; where nothing leads from place to place, it's enough that the strands' ways pass.
pub fn steps_lift()
    ensures lift { StepsLift }
    ensures plain { PlainHeightsPass }
    ensures last { LastHeightsPass }
{}

/// The edges of ways are those between their rounded ends, one way after another, and a place rounds to one point.
pub fn ways_give_edges()
    ensures edges { WaysGiveEdges }
    ensures alike { SameSpotsRoundAlike }
{}

//! Wrapping points by faces: at each side of a face that has no other face yet, the plane is turned on to the next points.
ghost use Rattle.std.specs.Prelude.{◌≡◌, ◌++◌, ◌∷◌, [], All, IfOk, OnOk};
ghost use Rattle.std.specs.BTreeSet.{insert_key};
ghost use Rattle.std.specs.List.Sorted.{IsStrictlySortedBy};
ghost use Rattle.scad_solid.specs.Stack.{ring_sides};
ghost use Rattle.scad_hull.specs.Distinct.{with_all};
ghost use Rattle.scad_hull.specs.Ring.{round};
ghost use Rattle.scad_hull.specs.Space.{IsSmall, space_cmp};
ghost use Rattle.scad_hull.specs.Faces.{IsSideOf, IsFaceOf, GoesOn};
ghost use Rattle.scad_hull.specs.Wrapping.{bends_of, rings_of, side_cmp, IsFound, IsWrapped, Extends, HasBack};

use crate::cloud::Cloud;
use crate::faces::{Face, face_in};
use crate::turning::outermost;
use scad_geom::Pt3;
use scad_solid::Side;
use std::alloc::{AllocError, Global};
use std::collections::BTreeSet;

/// Three corners of a face, one after another.
#[derive(Clone, Copy)]
pub(crate) struct Bend {
    pub from: Pt3,
    pub at: Pt3,
    pub to: Pt3,
}

/// All faces of points in order that don't lie in one plane, from the first on.
pub(crate) fn wrap(alloc: Global, cloud: &Cloud<'_>, first: Face) -> Result<Vec<Face>, AllocError>
    requires points { All IsSmall cloud.now.points.now }
    requires sorted { IsStrictlySortedBy space_cmp cloud.now.points.now }
    requires face { IsFaceOf cloud.now.points.now first }
    ensures { IfOk result (λ v. IsWrapped cloud.now.points.now (rings_of v.items)) }
{
    let mut faces = Vec::new(alloc);
    let mut bends = Vec::new(alloc);
    let mut sides = BTreeSet::new(alloc);
    add(&mut faces, &mut bends, &mut sides, first)?;
    let mut i = 0;
    'bends: while i < bends.len() {
        let bend = bends[i];
        close(alloc, cloud, &mut faces, &mut bends, &mut sides, bend)?;
        i += 1;
    }
    Ok(faces)
}

// Finds the face behind the side from a bend's first corner to its middle one, unless it is there.
fn close(
    alloc: Global,
    cloud: &Cloud<'_>,
    faces: &mut Vec<Face>,
    bends: &mut Vec<Bend>,
    sides: &mut BTreeSet<Side>,
    bend: Bend,
) -> Result<(), AllocError>
    requires points { All IsSmall cloud.now.points.now }
    requires sorted { IsStrictlySortedBy space_cmp cloud.now.points.now }
    requires found { IsFound cloud.now.points.now (rings_of faces.old.items) bends.old.items sides.old.keys }
    requires side { IsSideOf cloud.now.points.now bend.from bend.at bend.to }
    ensures found { OnOk result (IsFound cloud.now.points.now (rings_of faces.new.items) bends.new.items sides.new.keys) }
    ensures faces { OnOk result (Extends (rings_of faces.old.items) (rings_of faces.new.items)) }
    ensures bends { OnOk result (Extends bends.old.items bends.new.items) }
    ensures back { OnOk result (HasBack (rings_of faces.new.items) bend) }
{
    let back = Side {
        from: bend.at,
        to: bend.from,
    };
    if sides.contains(&back) {
        return Ok(());
    }
    let face = face_beyond(alloc, cloud, bend.from, bend.at, bend.to)?;
    add(faces, bends, sides, face)
}

// The face beyond the side from `a` to `b` of a face with the corner `c`.
#[tactic(auto, using(crate::proofs::Beyond::beyond))]
fn face_beyond(alloc: Global, cloud: &Cloud<'_>, a: Pt3, b: Pt3, c: Pt3) -> Result<Face, AllocError>
    requires points { All IsSmall cloud.now.points.now }
    requires sorted { IsStrictlySortedBy space_cmp cloud.now.points.now }
    requires side { IsSideOf cloud.now.points.now a b c }
    ensures face { IfOk result (IsFaceOf cloud.now.points.now) }
    ensures back { IfOk result (λ f. GoesOn f.ring.items b a) }
{
    let normal = outermost(cloud, b, a, c);
    face_in(alloc, cloud, b, normal)
}

fn add(
    faces: &mut Vec<Face>,
    bends: &mut Vec<Bend>,
    sides: &mut BTreeSet<Side>,
    face: Face,
) -> Result<(), AllocError>
    ensures faces { OnOk result (faces.new.items ≡ faces.old.items ++ face ∷ []) }
    ensures bends { OnOk result (bends.new.items ≡ bends.old.items ++ bends_of (round face.ring.items)) }
    ensures sides { OnOk result (sides.new.keys ≡ with_all side_cmp sides.old.keys (ring_sides face.ring.items)) }
{
    push_bends(bends, face.ring.as_slice())?;
    push_sides(sides, face.ring.as_slice())?;
    faces.push(face)?;
    Ok(())
}

fn push_bends(bends: &mut Vec<Bend>, ring: &[Pt3]) -> Result<(), AllocError>
    ensures { OnOk result (bends.new.items ≡ bends.old.items ++ bends_of (round ring.now)) }
{
    let [first, second, rest @ ..] = ring else {
        return Ok(());
    };
    let mut from = *first;
    let mut at = *second;
    'corners: for to in rest {
        let to = *to;
        bends.push(Bend { from, at, to })?;
        from = at;
        at = to;
    }
    bends.push(Bend {
        from,
        at,
        to: *first,
    })?;
    bends.push(Bend {
        from: at,
        at: *first,
        to: *second,
    })?;
    Ok(())
}

fn push_sides(sides: &mut BTreeSet<Side>, ring: &[Pt3]) -> Result<(), AllocError>
    ensures { OnOk result (sides.new.keys ≡ with_all side_cmp sides.old.keys (ring_sides ring.now)) }
{
    let [first, rest @ ..] = ring else {
        return Ok(());
    };
    let mut from = *first;
    'corners: for to in rest {
        let to = *to;
        put(sides, Side { from, to })?;
        from = to;
    }
    put(sides, Side { from, to: *first })
}

fn put(sides: &mut BTreeSet<Side>, side: Side) -> Result<(), AllocError>
    ensures { OnOk result (sides.new.keys ≡ insert_key side_cmp sides.old.keys side) }
{
    match sides.insert(side) {
        Ok(_) => Ok(()),
        Err(_) => Err(AllocError),
    }
}

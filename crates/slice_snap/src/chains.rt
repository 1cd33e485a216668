//! Chains of pieces, each joined to the one that goes on from it.
ghost use Rattle.std.specs.Prelude.{◌≡◌, ◌<◌, ℕ, length, IfOk};
ghost use Rattle.slice_snap.specs.Chains.{HaveLengths, IsLinked, AreAlone, wholes_of, gone_at, place_at};

use slice_pieces::Piece;
use std::alloc::{AllocError, Global};

/// Chains of pieces. A chain's whole stands at the place of its first piece; its other pieces are gone.
#[derive(Drop)]
pub(crate) struct Chains {
    wholes: Vec<Piece>,
    gone: Vec<bool>,
    // At the place of a chain's last piece: that of its first.
    first: Vec<usize>,
    // At the place of a chain's first piece: that of its last.
    last: Vec<usize>,
}

impl Chains {
    /// Each piece as a chain.
    pub(crate) fn new(alloc: Global, pieces: &[Piece]) -> Result<Chains, AllocError>
        ensures { IfOk result (AreAlone pieces.now) }
    {
        let wholes = Vec::from_slice(alloc, pieces)?;
        let gone = vec![in alloc; false; pieces.len()]?;
        let first = places(alloc, pieces.len())?;
        let last = places(alloc, pieces.len())?;
        Ok(Chains {
            wholes,
            gone,
            first,
            last,
        })
    }

    /// The place of the first piece of the chain whose last one stands at a place.
    pub(crate) fn first_of(&self, last: usize) -> usize
        requires { last < length self.now.first.items }
        ensures { result ≡ place_at self.now.first.items last }
    {
        self.first[last]
    }

    /// Whether the piece at a place is gone.
    pub(crate) fn is_gone(&self, place: usize) -> bool
        requires { place < length self.now.gone.items }
        ensures { result ≡ gone_at self.now.gone.items place }
    {
        self.gone[place]
    }

    /// Lets the chain that begins at one place go on with that which begins at another.
    pub(crate) fn link(&mut self, first: usize, next: usize)
        requires lengths { HaveLengths (length self.old.wholes.items) self.old }
        requires first { first < length self.old.wholes.items }
        requires next { next < length self.old.wholes.items }
        requires last { place_at self.old.last.items next < length self.old.wholes.items }
        ensures { IsLinked self.old first next self.new }
    {
        let last = self.last[next];
        let to = self.wholes[next].to;
        self.wholes[first].to = to;
        self.gone[next] = true;
        self.first[last] = first;
        self.last[first] = last;
    }

    /// The wholes of all chains.
    pub(crate) fn wholes(&self, alloc: Global) -> Result<Vec<Piece>, AllocError>
        requires { HaveLengths (length self.now.wholes.items) self.now }
        ensures { IfOk result (λ v. v.items ≡ wholes_of self.now) }
    {
        let mut wholes = Vec::new(alloc);
        'places: for place in 0..self.wholes.len() {
            if !self.gone[place] {
                wholes.push(self.wholes[place])?;
            }
        }
        Ok(wholes)
    }
}

// The first numbers from 0 on.
fn places(alloc: Global, count: usize) -> Result<Vec<usize>, AllocError>
    ensures count { IfOk result (λ v. length v.items ≡ count) }
    ensures each { IfOk result (λ v. (k : ℕ) → k < count → place_at v.items k ≡ k) }
{
    let mut places = Vec::new(alloc);
    'places: for place in 0..count {
        places.push(place)?;
    }
    Ok(places)
}

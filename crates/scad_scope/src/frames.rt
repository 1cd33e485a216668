//! Frames: environments that share their outer parts.

ghost use Rattle.std.specs.Prelude.{◌<◌, ◌^◌, vec_len};

use crate::child_statements::Kept;
use crate::frame::Frame;
use crate::frame_names::FrameNames;
use crate::home::Home;
use crate::kind::Kind;
use crate::names::Names;
use crate::slot::Slots;
use scad_ast::{Item, Scope};
use scad_value::Value;
use std::alloc::{AllocError, Global};

/// A list of frames, numbered from 0. Contracts see it as the list `stored`, and the environment of each
/// frame as that of its number in `envs` of that list.
#[derive(Drop)]
pub struct Frames<'p> {
    alloc: Global,
    frames: Vec<Frame<'p>>,
    ghost few: { vec_len frames < 2 ^ 32 },
}

impl<'p> Frames<'p> {
    ghost use Rattle.std.specs.Prelude.{◌≡◌, ◌-◌, ◌∷◌, ◌++◌, [], ℕ, List, Some, None, length, take, option_map, IfOk, OnOk, OnErr};
    ghost use Rattle.scad_ast.specs.Scope.{item_of, items};
    ghost use Rattle.scad_value.specs.View.{datum_of};
    ghost use Rattle.scad_scope.specs.Chain.{names_at, HoldNames};
    ghost use Rattle.scad_scope.specs.Definitions.{item_in, word_of_kind};
    ghost use Rattle.scad_scope.specs.Env.{sought};
    ghost use Rattle.scad_scope.specs.Listing.{Listing};
    ghost use Rattle.scad_scope.specs.Slots.{slots_of};
    ghost use Rattle.scad_scope.specs.FrameStore.{pushed, stored_at, with_name_in_last, env_at, envs};
    ghost use Rattle.scad_scope.specs.View.{listed, stored, children_stored};

    /// No frames. It takes no memory.
    #[tactic(auto, unfolding(crate::specs::View::stored, crate::specs::View::listed))]
    pub fn new(alloc: Global) -> Frames<'p>
        ensures frames { stored result ≡ [] }
        ensures listed { listed result ≡ [] }
    {
        Frames {
            alloc,
            frames: Vec::new(alloc),
        }
    }

    /// Puts an empty frame behind the others, with places for these names.
    #[tactic(auto, unfolding(crate::specs::View::stored, crate::specs::View::frame_stored, crate::specs::View::listed, crate::specs::View::frame_listed))]
    fn put(
        &mut self,
        parent: Option<u32>,
        scope: Option<&'p Scope>,
        kept: Option<Kept<'p>>,
        names: Option<&'p Names>,
    ) -> Result<u32, AllocError>
        ensures frame { OnOk result (stored self.new ≡ stored self.old
            ++ pushed parent (option_map (λ s. items s.now.items) scope.entry)
            (option_map children_stored kept.entry) ∷ []) }
        ensures listed { OnOk result (listed self.new
            ≡ listed self.old ++ option_map (λ n. n.now) names.entry ∷ []) }
        ensures number { IfOk result (λ n. n ≡ length (stored self.old)) }
        ensures refused { OnErr result ((stored self.new ≡ stored self.old) × (listed self.new ≡ listed self.old)) }
    {
        let number = self.frames.len();
        if number >= u32::MAX as usize {
            return Err(AllocError);
        }
        self.frames.reserve(1)?;
        self.frames.push_reserved(Frame {
            names: FrameNames::new(self.alloc, names),
            parent,
            home: Home::of(scope),
            kept,
        });
        Ok(number as u32)
    }

    /// Puts an empty frame behind the others, and gives its number. The frame round it is that of the
    /// number `parent`.
    pub fn push(
        &mut self,
        parent: Option<u32>,
        scope: Option<&'p Scope>,
        kept: Option<Kept<'p>>,
    ) -> Result<u32, AllocError>
        ensures frame { OnOk result (stored self.new ≡ stored self.old
            ++ pushed parent (option_map (λ s. items s.now.items) scope.entry)
            (option_map children_stored kept.entry) ∷ []) }
        ensures number { IfOk result (λ n. n ≡ length (stored self.old)) }
        ensures refused { OnErr result (stored self.new ≡ stored self.old) }
        ensures listed { OnOk result (listed self.new ≡ listed self.old ++ None ∷ []) }
        ensures still_listed { OnErr result (listed self.new ≡ listed self.old) }
    {
        self.put(parent, scope, kept, None)
    }

    /// Puts a frame behind the others as `push` does, with places for the names that it can hold: none of them is set.
    pub fn push_names(
        &mut self,
        parent: Option<u32>,
        scope: Option<&'p Scope>,
        kept: Option<Kept<'p>>,
        names: &'p Names,
    ) -> Result<u32, AllocError>
        ensures frame { OnOk result (stored self.new ≡ stored self.old
            ++ pushed parent (option_map (λ s. items s.now.items) scope.entry)
            (option_map children_stored kept.entry) ∷ []) }
        ensures number { IfOk result (λ n. n ≡ length (stored self.old)) }
        ensures refused { OnErr result (stored self.new ≡ stored self.old) }
        ensures listed { OnOk result (listed self.new ≡ listed self.old ++ Some names.now ∷ []) }
        ensures still_listed { OnErr result (listed self.new ≡ listed self.old) }
    {
        self.put(parent, scope, kept, Some(names))
    }

    /// Sets the name in the last frame, where there is one.
    #[tactic(auto, using(crate::proofs::Outwards::writes), unfolding(crate::specs::View::stored, crate::specs::View::listed))]
    pub fn set(&mut self, name: &[u8], value: Value) -> Result<(), AllocError>
        ensures named { OnOk result (stored self.new
            ≡ with_name_in_last name.now (datum_of value) (stored self.old)) }
        ensures refused { OnErr result (stored self.new ≡ stored self.old) }
        ensures listed { listed self.new ≡ listed self.old }
    {
        let count = self.frames.len();
        if count == 0 {
            return Ok(());
        }
        self.frames[count - 1].set(self.alloc, name, value)
    }

    /// Takes the last frame away, where there is one.
    #[tactic(auto, unfolding(crate::specs::View::stored, crate::specs::View::frame_stored, crate::specs::View::listed))]
    pub fn pop(&mut self)
        ensures frames { stored self.new ≡ take (length (stored self.old) - 1) (stored self.old) }
        ensures listed { listed self.new ≡ take (length (stored self.old) - 1) (listed self.old) }
    {
        let _last = self.frames.pop();
    }

    /// How many frames there are.
    #[tactic(auto, unfolding(crate::specs::View::stored, crate::specs::View::frame_stored))]
    pub fn len(&self) -> u32
        ensures { result ≡ length (stored self.now) }
    {
        self.frames.len() as u32
    }

    /// The number of the frame round the one of a number.
    #[tactic(auto, unfolding(crate::specs::View::stored, crate::specs::View::frame_stored))]
    pub fn parent(&self, at: u32) -> Option<u32>
        ensures { result ≡ (stored_at (stored self.now) at).parent }
    {
        if self.frames.len() <= at as usize {
            return None;
        }
        self.frames[at as usize].parent
    }

    /// The scope whose functions and modules hold in the frame of a number.
    #[tactic(auto, unfolding(crate::specs::View::stored, crate::specs::View::frame_stored))]
    pub fn scope(&self, at: u32) -> Option<&'p Scope>
        ensures { option_map (λ s. items s.now.items) result ≡ (stored_at (stored self.now) at).scope }
    {
        if self.frames.len() <= at as usize {
            return None;
        }
        self.frames[at as usize].home.scope()
    }

    /// The child statements that are kept in the frame of a number.
    #[tactic(auto, unfolding(crate::specs::View::stored, crate::specs::View::frame_stored))]
    pub fn kept(&self, at: u32) -> Option<Kept<'p>>
        ensures { option_map children_stored result ≡ (stored_at (stored self.now) at).kept }
    {
        if self.frames.len() <= at as usize {
            return None;
        }
        self.frames[at as usize].kept
    }

    /// The names that the frame of a number was pushed with, where it holds no other name.
    #[tactic(auto, unfolding(crate::specs::View::stored, crate::specs::View::frame_stored, crate::specs::View::listed, crate::specs::View::frame_listed))]
    pub fn names(&self, at: u32) -> Option<&'p Names>
        ensures { option_map (λ n. n.now) result ≡ names_at (listed self.now) (stored self.now) at }
    {
        if self.frames.len() <= at as usize {
            return None;
        }
        self.frames[at as usize].names.names()
    }

    /// The item of a kind that defines a name in the scope of the frame of a number: the last one. Where names
    /// are sought often among many items, the frame makes tables of them.
    #[tactic(auto, using(crate::proofs::Outwards::writes), unfolding(crate::specs::View::stored, crate::specs::View::listed))]
    pub fn item(&mut self, at: u32, kind: Kind, name: &[u8]) -> Result<Option<&'p Item>, AllocError>
        ensures found { IfOk result (λ r. option_map (λ i. item_of i.now) r
            ≡ item_in (word_of_kind kind) name.now (stored_at (stored self.old) at).scope) }
        ensures same { stored self.new ≡ stored self.old }
        ensures listed { listed self.new ≡ listed self.old }
    {
        if self.frames.len() <= at as usize {
            return Ok(None);
        }
        self.frames[at as usize].item(self.alloc, kind, name)
    }

    /// The value of a name in the frame of a number, or else in the innermost of those round it that has it.
    #[tactic(auto, unfolding(crate::specs::View::stored))]
    pub fn get(&self, from: u32, name: &[u8]) -> Option<&Value>
        ensures { option_map (λ v. datum_of v.now) result
            ≡ sought name.now (env_at (envs (stored self.now)) from) }
    {
        let mut at = from as usize;
        'outwards: loop {
            if self.frames.len() <= at {
                return None;
            }
            let frame = &self.frames[at];
            match frame.get(name) {
                Some(value) => return Some(value),
                None => match frame.parent {
                    Some(parent) => {
                        if at <= parent as usize {
                            return None;
                        }
                        at = parent as usize;
                    }
                    None => return None,
                },
            }
        }
    }

    /// The value that `get` gives for a name, by its slots among the names that the frame of a number and those round it, the
    /// innermost first, were pushed with. It takes that none of these frames holds another name, as `names` tells.
    #[tactic(auto, unfolding(crate::specs::View::stored))]
    pub fn at(&self, from: u32, slots: &Slots) -> Option<&Value>
        ensures { (name : List ℕ) (listings : List Listing) → slots.now ≡ slots_of name listings
            → HoldNames listings (listed self.now) (stored self.now) from
            → option_map (λ v. datum_of v.now) result ≡ sought name (env_at (envs (stored self.now)) from) }
    {
        let all = slots.as_slice();
        let mut here = from as usize;
        let mut up = 0;
        let mut next = 0;
        'outwards: loop {
            if self.frames.len() <= here {
                return None;
            }
            let frame = &self.frames[here];
            match frame.find(all, next, up) {
                Ok(value) => return Some(value),
                Err(left) => next = left,
            }
            match frame.parent {
                Some(parent) => {
                    if here <= parent as usize {
                        return None;
                    }
                    here = parent as usize;
                    up += 1;
                }
                None => return None,
            }
        }
    }
}

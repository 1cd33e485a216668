//! Functions and modules of the program by their names.

ghost use Rattle.std.specs.Prelude.{◌≡◌, ◌<◌, length, option_map, IfOk, IfSome};
ghost use Rattle.scad_ast.specs.Scope.{item_of};
ghost use Rattle.scad_scope.specs.Definitions.{word_of_kind};
ghost use Rattle.scad_scope.specs.FrameStore.{env_at, envs};
ghost use Rattle.scad_scope.specs.View.{stored};
ghost use Rattle.scad_machine.specs.Functions.{function_by, function_named};
ghost use Rattle.scad_machine.specs.Lookup.{item_named};
ghost use Rattle.scad_machine.specs.Machine.{held, env_in, state_of};
ghost use Rattle.scad_machine.specs.View.{function_at, found_at, item_found_at};

use crate::functions::{Defined, DefinedAt};
use crate::machine::Machine;
use scad_ast::Item;
use scad_scope::{Frames, Kind};
use std::alloc::AllocError;

/// An item that defines something, with the number of the frame where it stands.
#[derive(Clone, Copy)]
pub struct ItemAt<'p> {
    pub item: &'p Item,
    pub home: u32,
}

/// The item that defines a name, from a frame outwards.
#[tactic(auto, using(crate::proofs::Homes::homes))]
fn item_from<'p>(
    frames: &mut Frames<'p>,
    from: u32,
    kind: Kind,
    name: &[u8],
) -> Result<Option<ItemAt<'p>>, AllocError>
    ensures found { IfOk result (λ r. option_map (item_found_at (envs (stored frames.old))) r
        ≡ item_named (word_of_kind kind) name.now (env_at (envs (stored frames.old)) from)) }
    ensures there { IfOk result (λ r. IfSome r (λ i. i.home < length (stored frames.old))) }
    ensures same { stored frames.new ≡ stored frames.old }
{
    let mut at = from;
    'outwards: loop {
        if frames.len() <= at {
            return Ok(None);
        }
        match frames.item(at, kind, name)? {
            Some(item) => return Ok(Some(ItemAt { item, home: at })),
            None => match frames.parent(at) {
                Some(parent) => {
                    if at <= parent {
                        return Ok(None);
                    }
                    at = parent;
                }
                None => return Ok(None),
            },
        }
    }
}

/// The function that an item defines, where it defines one.
#[tactic(auto, using(crate::proofs::Homes::others))]
fn function_by<'p>(item: &'p Item) -> Option<Defined<'p>>
    ensures { option_map function_at result ≡ function_by (item_of item.now) }
{
    match item {
        Item::Function(_, params, body, _) => Some(Defined { params, body }),
        Item::Assign(_, _, _) => None,
        Item::Module(_, _, _, _) => None,
        Item::Run(_) => None,
    }
}

impl<'p> Machine<'p> {
    /// The item that defines a name as a function, or as a module, in the innermost scope that has one.
    #[tactic(auto, unfolding(crate::specs::Machine::held, crate::specs::Machine::env_in, crate::specs::Machine::state_of))]
    pub fn item(&mut self, kind: Kind, name: &[u8]) -> Result<Option<ItemAt<'p>>, AllocError>
        ensures found { IfOk result (λ r. option_map (item_found_at (envs (held self.old).frames)) r
            ≡ item_named (word_of_kind kind) name.now (env_in (held self.old))) }
        ensures there { IfOk result (λ r. IfSome r (λ i. i.home < length (held self.old).frames)) }
        ensures kept { held self.new ≡ held self.old }
        ensures state { state_of self.new ≡ state_of self.old }
        ensures same { self.new.steps_left ≡ self.old.steps_left }
    {
        item_from(&mut self.frames, self.here, kind, name)
    }

    /// The function of a name in the innermost scope that has one.
    #[tactic(auto, unfolding(crate::specs::Functions::function_named))]
    pub fn function(&mut self, name: &[u8]) -> Result<Option<DefinedAt<'p>>, AllocError>
        ensures found { IfOk result (λ r. option_map (found_at (envs (held self.old).frames)) r
            ≡ function_named name.now (env_in (held self.old))) }
        ensures there { IfOk result (λ r. IfSome r (λ f. f.home < length (held self.old).frames)) }
        ensures kept { held self.new ≡ held self.old }
        ensures state { state_of self.new ≡ state_of self.old }
        ensures same { self.new.steps_left ≡ self.old.steps_left }
    {
        let Some(ItemAt { item, home }) = self.item(Kind::Function, name)? else {
            return Ok(None);
        };
        let Some(function) = function_by(item) else {
            return Ok(None);
        };
        Ok(Some(DefinedAt { function, home }))
    }
}

//! The children of a module's call.

ghost use Rattle.std.specs.Prelude.{◌≡◌, ◌<◌, Some, length, option_map};
ghost use Rattle.scad_scope.specs.FrameStore.{stored_at, env_at, envs, children_in};
ghost use Rattle.scad_scope.specs.View.{stored, children_stored};
ghost use Rattle.scad_expr.specs.Machine.{held, env_in};
ghost use Rattle.scad_members.specs.Modules.{kept_children};

use scad_expr::Machine;
use scad_scope::{Frames, Kept};

/// The children that a frame keeps, with a number past all frames where their own frame doesn't stand
/// before it.
#[tactic(auto, using(crate::proofs::KeptRound::reaches), unfolding(crate::specs::Modules::kept_children))]
fn reached<'p>(frames: &Frames<'p>, kept: Kept<'p>, at: u32) -> Kept<'p>
    requires there { at < length (stored frames.now) }
    requires kept { (stored_at (stored frames.now) at).kept ≡ Some (children_stored kept) }
    ensures { children_in (envs (stored frames.now)) (Some (children_stored result))
        ≡ kept_children (env_at (envs (stored frames.now)) at) }
{
    if kept.home < at {
        kept
    } else {
        Kept {
            scope: kept.scope,
            home: frames.len(),
        }
    }
}

/// The children of the module call whose body holds the place where names are sought.
#[tactic(auto, using(crate::proofs::KeptRound::rounds), unfolding(scad_machine::specs::Machine::held, scad_machine::specs::Machine::env_in))]
pub(crate) fn kept_children<'p>(m: &Machine<'p>) -> Option<Kept<'p>>
    ensures { children_in (envs (held m.now).frames) (option_map children_stored result)
        ≡ kept_children (env_in (held m.now)) }
{
    let mut at = m.here;
    'outwards: loop {
        if m.frames.len() <= at {
            return None;
        }
        match m.frames.kept(at) {
            Some(kept) => return Some(reached(&m.frames, kept, at)),
            None => match m.frames.parent(at) {
                Some(parent) => {
                    if at <= parent {
                        return None;
                    }
                    at = parent;
                }
                None => return None,
            },
        }
    }
}

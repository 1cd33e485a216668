//! Modules of the program by their names.

ghost use Rattle.std.specs.Prelude.{◌≡◌, ◌<◌, length, option_map, IfOk, IfSome};
ghost use Rattle.scad_ast.specs.Scope.{item_of};
ghost use Rattle.scad_scope.specs.FrameStore.{envs};
ghost use Rattle.scad_expr.specs.Machine.{held, env_in, state_of};
ghost use Rattle.scad_members.specs.Modules.{module_by, module_named};
ghost use Rattle.scad_inst.specs.View.{module_at, found_at};

use crate::modules::{Defined, DefinedAt};
use scad_ast::Item;
use scad_expr::Machine;
use scad_scope::Kind;
use std::alloc::AllocError;

/// The module that an item defines, where it defines one.
#[tactic(auto, using(crate::proofs::Homes::kinds))]
fn module_by<'p>(item: &'p Item) -> Option<Defined<'p>>
    ensures { option_map module_at result ≡ module_by (item_of item.now) }
{
    match item {
        Item::Module(_, params, body, _) => Some(Defined { params, body }),
        Item::Assign(_, _, _) => None,
        Item::Function(_, _, _, _) => None,
        Item::Run(_) => None,
    }
}

/// The module of a name in the innermost scope that has one.
#[tactic(auto, unfolding(scad_members::specs::Modules::module_named))]
pub(crate) fn module_named<'p>(
    m: &mut Machine<'p>,
    name: &[u8],
) -> Result<Option<DefinedAt<'p>>, AllocError>
    ensures found { IfOk result (λ r. option_map (found_at (envs (held m.old).frames)) r
        ≡ module_named name.now (env_in (held m.old))) }
    ensures there { IfOk result (λ r. IfSome r (λ f. f.home < length (held m.old).frames)) }
    ensures kept { held m.new ≡ held m.old }
    ensures state { state_of m.new ≡ state_of m.old }
{
    match m.item(Kind::Module, name)? {
        Some(found) => match module_by(found.item) {
            Some(module) => Ok(Some(DefinedAt {
                module,
                home: found.home,
            })),
            None => Ok(None),
        },
        None => Ok(None),
    }
}

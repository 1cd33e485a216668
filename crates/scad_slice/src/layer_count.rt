//! How many layers a tree has.
ghost use Rattle.std.specs.Prelude.{◌≡◌, ◌≤◌, ◌<◌, IfOk, IfErr};
ghost use Rattle.scad_script.specs.declared.refusal.Refusal.TheVariants.{Over};
ghost use Rattle.scad_tree.specs.View.{solid_of};
ghost use Rattle.slice_work.specs.Part.{layer_limit};
ghost use Rattle.scad_slice.specs.Budgets.{layer_count, layers_passed};

use scad_fault::Budget;
use scad_script::{Refusal, Stop};
use scad_tree::Tree;

/// The most layers of a part.
pub const LAYER_LIMIT: u32 = 20_000;

/// How many layers of this height in micrometres a tree has. More than 20,000 are refused.
pub fn count_layers(tree: &Tree, height: u32) -> Result<u32, Stop>
    requires some { 1 ≤ height }

    ensures count { IfOk result (λ n. n ≡ layer_count height (solid_of tree.now)) }
    ensures few { IfOk result (λ n. n ≤ layer_limit) }
    ensures many { IfErr result (λ stop. layer_limit < layer_count height (solid_of tree.now)) }
    ensures refused { IfErr result (λ stop.
        stop ≡ Stop.Ends (Over (layers_passed (layer_count height (solid_of tree.now))))) }
{
    let layers = tree.layers(height);
    if layers > LAYER_LIMIT {
        return Err(Stop::Ends(Refusal::Over(Budget::layers(u64::from(layers)))));
    }
    Ok(layers)
}

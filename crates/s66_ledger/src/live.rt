//! The least floor of the nodes that are open or out: the bound of a search that hasn't ended.

ghost use Rattle.std.specs.Prelude.{◌≡◌, ◌∷◌};
ghost use Rattle.s66_isa.specs.{least};
ghost use Rattle.s66_ledger.specs.{live_values};

use s66_node::Node;

/// The least of a value and the floors of the nodes that are open or out.
pub(crate) fn least_floor(nodes: &[Node], value: u32) -> u32
    ensures { result ≡ least (λ v. v) (value ∷ live_values nodes.now) }
{
    let mut least = value;
    for i in 0..nodes.len() {
        if nodes[i].state.is_live() {
            least = least.min(nodes[i].value);
        }
    }
    least
}

// Chains that grow by one item at a time.
ghost use Rattle.std.specs.Prelude.{◌≡◌, ◌<◌, length, OnOk, OnErr};
ghost use Rattle.argot_links.specs.Pairs.{AddsPair};
ghost use Rattle.argot_ssa.specs.Edges.{leads};

use argot_links::Chains;
use argot_text::Memory;

/// Makes the item the first of that list, with room taken for it. After `Memory` nothing is changed.
pub fn link(chains: &mut Chains, head: u32, item: u32) -> Result<(), Memory>
    requires { head < length chains.old.lists }
    ensures adds { OnOk result (AddsPair (leads chains.old.lists) (leads chains.new.lists) head item) }
    ensures heads { length chains.new.lists ≡ length chains.old.lists }
    ensures same { OnErr result (chains.new.lists ≡ chains.old.lists) }
{
    if chains.len() == u32::MAX {
        return Err(Memory);
    }
    chains.reserve(1)?;
    chains.push(head, item);
    Ok(())
}

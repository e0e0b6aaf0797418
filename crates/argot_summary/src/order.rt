// Facts in order.
ghost use Rattle.std.specs.Prelude.{◌≡◌, ℕ, length, OnOk};
ghost use Rattle.argot_plain.specs.Lists.{In};
ghost use Rattle.argot_facts.specs.Graphs.{IsOrdered};
ghost use Rattle.argot_facts.specs.Summed.{AreApart, SameBefore};
ghost use Rattle.argot_facts.specs.declared.summaries.Same.{Same as Sames};

use argot_facts::Same;
use argot_text::Memory;

/// Puts facts that are apart in order: by the parameter's node, then by the node that it reaches.
pub(crate) fn put_in_order(facts: &mut Vec<Same>) -> Result<(), Memory>
    requires apart { AreApart facts.old.items }
    ensures ordered { OnOk result (IsOrdered SameBefore facts.new.items) }
    ensures kept { OnOk result ((f : Sames) → In f facts.old.items → In f facts.new.items) }
    ensures only { OnOk result ((f : Sames) → In f facts.new.items → In f facts.old.items) }
    ensures count { OnOk result (length facts.new.items ≡ length facts.old.items) }
{
    facts.sort_by_key(|fact| fact.to)?;
    facts.sort_by_key(|fact| fact.from)?;
    Ok(())
}

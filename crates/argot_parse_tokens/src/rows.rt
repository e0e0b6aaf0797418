// Types that go on to their right, each in the one before it.
#![tactic(auto, using(crate::proofs::RowLaws::unwound_more, crate::proofs::RowLaws::unwound_none))]

ghost use Rattle.std.specs.Prelude.{◌≡◌, ◌++◌, ◌∷◌, [], OnOk, Some};
ghost use Rattle.argot_parse_tokens.specs.Rows.{begun_at, unwound};

use crate::writer::{Writer, close};
use argot_text::Memory;
use argot_tree::NodeKind;

/// A node that is begun.
#[derive(Clone, Copy, Debug)]
pub struct Begun {
    /// What it will be.
    pub kind: NodeKind,
    /// Its first token.
    pub from: usize,
    /// How many nodes stood before its children.
    pub mark: usize,
}

/// Types that go on to their right, each in the one before it, and where the next begins.
#[derive(Drop)]
pub struct Row {
    /// Those that are begun, the outermost first.
    pub begun: Vec<Begun>,
    /// The token at which the type behind them begins.
    pub at: usize,
    /// How many steps are left to read it.
    pub fuel: usize,
}

/// What a turn does to a row.
#[derive(Clone, Copy, Debug)]
pub enum Turn {
    /// No type begins there, or what begins isn't whole.
    Missing,
    /// The last of its types ends there.
    End(usize),
    /// One more is begun.
    On,
}

/// A type is begun, and the one in it begins at a token.
pub fn begin(row: &mut Row, kind: NodeKind, mark: usize, inner: usize) -> Result<(), Memory>
    ensures begun { OnOk result (row.new.begun.items ≡ row.old.begun.items ++ begun_at kind row.old.at mark ∷ []) }
    ensures at { OnOk result (row.new.at ≡ inner) }
    ensures fuel { OnOk result (row.new.fuel ≡ row.old.fuel) }
{
    row.begun.push(Begun {
        kind,
        from: row.at,
        mark,
    })?;
    row.at = inner;
    Ok(())
}

/// The types of a row end where the last of them does.
pub fn close_row(out: &mut Writer, row: Row, to: usize) -> Result<(), Memory>
    ensures { OnOk result (unwound row.begun.items (Some (to, out.old.posts.items)) ≡ Some (to, out.new.posts.items)) }
{
    let mut begun = row.begun;
    while let Some(last) = begun.pop() {
        close(out, last.kind, last.from, to, last.mark)?;
    }
    Ok(())
}

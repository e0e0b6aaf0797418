// Where an instruction goes on.
ghost use Rattle.std.specs.Prelude.{◌≡◌, ◌+◌, ◌++◌, ◌∷◌, ◌<◌, ◌^◌, [], OnOk};
ghost use Rattle.argot_ssa.specs.Places.{next_places, falls_through};

use argot_plain::Kind;
use argot_text::Memory;

/// Whether an instruction of this kind goes on at the next place alone.
pub fn falls(kind: &Kind) -> bool
    ensures { result ≡ falls_through kind.now }
{
    !matches!(
        kind,
        Kind::Leave { .. } | Kind::Panic { .. } | Kind::Goto { .. } | Kind::Branch { .. }
    )
}

/// Adds the places at which an instruction of this kind at the place may go on.
pub fn push_next(kind: &Kind, place: u32, into: &mut Vec<u32>) -> Result<(), Memory>
    requires { place + 1 < 2 ^ 32 }
    ensures { OnOk result (into.new.items ≡ into.old.items ++ next_places kind.now place) }
{
    match kind {
        Kind::Leave { .. } | Kind::Panic { .. } => {}
        Kind::Goto { target } => {
            if *target != place {
                into.push(*target)?;
            }
        }
        Kind::Branch { targets } => into.extend_from_slice(targets.as_slice())?,
        _ => into.push(place + 1)?,
    }
    Ok(())
}

// What is wrong with packages and names.
use argot_text::{Memory, Pos};
use std::alloc::AllocError;
use thiserror::Error;

/// What is wrong with the packages and names of a folder, at the first place where it is. Of several faults the one that
/// stands first here is answered.
#[derive(Debug, Drop, Error)]
pub enum NameFault {
    /// The main folder has no package `main` with a function `main`.
    #[error("no main function")]
    NoMain,
    /// A package clause that differs from that of its folder's first file.
    #[error("the package name differs")]
    TwoNames { at: Pos },
    /// The path of an import that finds no package.
    #[error("no such package")]
    NoPackage { at: Pos },
    /// An import whose package leads back to the one that imports it.
    #[error("an import cycle")]
    ImportCycle { at: Pos },
    /// A name that its scope has from an earlier place.
    #[error("declared again")]
    Redeclared { at: Pos },
    /// A name for which no declaration is in scope.
    #[error("not declared")]
    Unresolved { at: Pos },
    /// There was no memory left.
    #[error("out of memory")]
    Memory,
}

impl From<Memory> for NameFault {
    ghost use Rattle.std.specs.Prelude.{◌≡◌};
    ghost use Rattle.argot_names_rules.specs.declared.fault.NameFault.TheVariants.{Memory};

    ghost from_gives = { λ _ e. e ≡ Memory };

    fn from(_: Memory) -> NameFault {
        NameFault::Memory
    }
}

impl From<AllocError> for NameFault {
    ghost use Rattle.std.specs.Prelude.{◌≡◌};
    ghost use Rattle.argot_names_rules.specs.declared.fault.NameFault.TheVariants.{Memory};

    ghost from_gives = { λ _ e. e ≡ Memory };

    fn from(_: AllocError) -> NameFault {
        NameFault::Memory
    }
}

// Why a configuration is refused.

use argot_text::{Memory, Text};
use std::alloc::{AllocError, AllocFailed};
use thiserror::Error;

/// Why a configuration is refused. A path is written as `problems[0].sinks[1].name`; the top itself is `.`.
#[derive(Debug, Drop, Error)]
pub enum ConfigFault {
    /// The bytes are no JSON text.
    #[error("not JSON")]
    NotJson,
    /// An object has a key that it doesn't know.
    #[error("unknown key")]
    Key { path: Text },
    /// A value is missing or has the wrong shape.
    #[error("wrong shape")]
    Shape { path: Text },
    /// A text isn't a pattern, or nests too deeply.
    #[error("bad pattern")]
    BadPattern { path: Text },
    /// A pattern was refused for its size.
    #[error("pattern too large")]
    PatternSize { path: Text },
    /// There was no memory left.
    #[error("out of memory")]
    Memory,
}

impl From<Memory> for ConfigFault {
    ghost use Rattle.std.specs.Prelude.{◌≡◌};
    ghost use Rattle.argot_config_read.specs.declared.faults.ConfigFault.TheVariants as fault;

    ghost from_gives = { λ _ e. e ≡ fault.Memory };

    fn from(_: Memory) -> ConfigFault {
        ConfigFault::Memory
    }
}

impl From<AllocError> for ConfigFault {
    ghost use Rattle.std.specs.Prelude.{◌≡◌};
    ghost use Rattle.argot_config_read.specs.declared.faults.ConfigFault.TheVariants as fault;

    ghost from_gives = { λ _ e. e ≡ fault.Memory };

    fn from(_: AllocError) -> ConfigFault {
        ConfigFault::Memory
    }
}

impl<T: Drop> From<AllocFailed<T>> for ConfigFault {
    ghost use Rattle.std.specs.Prelude.{◌≡◌};
    ghost use Rattle.argot_config_read.specs.declared.faults.ConfigFault.TheVariants as fault;

    ghost from_gives = { λ _ e. e ≡ fault.Memory };

    fn from(_: AllocFailed<T>) -> ConfigFault {
        ConfigFault::Memory
    }
}

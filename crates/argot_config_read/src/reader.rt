// The reading of a configuration.
ghost use Rattle.std.specs.Prelude.{◌≡◌, IfOk, IfErr, OnOk};
ghost use Rattle.argot_config_read.specs.Answers.{HasCause, IsReading};
ghost use Rattle.argot_config_read.specs.Patterns.{KeptBy};

use crate::building::config;
use crate::reading::wanted;
use crate::{Config, ConfigFault, Patterns};
use serde_json::Value;
use std::alloc::Global;

/// Reads a configuration from the bytes of a JSON text. The answer is the whole configuration or the first fault:
/// `NotJson` exactly where the bytes are no JSON text; `Key` and `Shape` exactly where the first fault in order is a key
/// that isn't known, or a value that is missing or wrong; and only where there is none of these `BadPattern` for the
/// first pattern that has no reading or nests too deeply, and `PatternSize` for one whose refusal `patterns` counted.
/// But for `PatternSize`, what `patterns` counts stays as it was.
pub fn read<P: Patterns>(
    alloc: Global,
    bytes: &[u8],
    patterns: &mut P,
) -> Result<Config, ConfigFault>
    ensures ok { IfOk result (IsReading bytes.now) }
    ensures kept { OnOk result ((P.refusals patterns.new ≡ P.refusals patterns.old) × (P.last patterns.new ≡ P.last patterns.old)) }
    ensures kept_by { IfErr result (λ e. KeptBy e (P.refusals patterns.old) (P.refusals patterns.new) (P.last patterns.old) (P.last patterns.new)) }
    ensures cause { IfErr result (HasCause bytes.now (P.refusals patterns.old) (P.refusals patterns.new) (P.last patterns.new)) }
{
    let value = match Value::from_slice(alloc, bytes) {
        Ok(value) => value,
        Err(error) if error.is_memory() => return Err(ConfigFault::Memory),
        Err(_) => return Err(ConfigFault::NotJson),
    };
    let wanted = wanted(alloc, &value)?;
    config(alloc, wanted, patterns)
}

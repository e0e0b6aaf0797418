// Paths in a configuration, and the faults at them.
ghost use Rattle.std.specs.Prelude.{◌≡◌, IfOk, string_bytes};
ghost use Rattle.argot_config_read.specs.Paths.{key_path, item_path};
ghost use Rattle.argot_config_read.specs.Shapes.{IsFault};

use crate::ConfigFault;
use argot_text::Text;
use std::alloc::{AllocError, Global};

// The path of the value at a key.
#[tactic(auto, unfolding(crate::specs::Paths::key_path))]
pub(crate) fn path_of_key(alloc: Global, path: &str, key: &str) -> Result<Text, AllocError>
    ensures { IfOk result (λ made. made ≡ key_path path.now key.now) }
{
    let mut text = String::new(alloc);
    if path != "." {
        text.push_str(path)?;
        text.push_str(".")?;
    }
    text.push_str(key)?;
    Ok(Text::from_string(text))
}

// The path of an item of a list.
#[tactic(auto, unfolding(crate::specs::Paths::item_path))]
pub(crate) fn path_of_item(alloc: Global, path: &str, item: usize) -> Result<Text, AllocError>
    ensures { IfOk result (λ made. made ≡ item_path path.now item) }
{
    let text = format!(in alloc; "{path}[{item}]")?;
    Ok(Text::from_string(text))
}

// The fault of a value of the wrong shape.
pub(crate) fn wrong_shape(alloc: Global, path: &str, key: &str) -> ConfigFault
    ensures { IsFault (ConfigFault.Shape (key_path path.now key.now)) result }
{
    match path_of_key(alloc, path, key) {
        Ok(path) => ConfigFault::Shape { path },
        Err(_) => ConfigFault::Memory,
    }
}

// The fault of a key that isn't known.
pub(crate) fn unknown_key(alloc: Global, path: &str, key: &str) -> ConfigFault
    ensures { IsFault (ConfigFault.Key (key_path path.now key.now)) result }
{
    match path_of_key(alloc, path, key) {
        Ok(path) => ConfigFault::Key { path },
        Err(_) => ConfigFault::Memory,
    }
}

// The fault of a value of the wrong shape, which stands at the path itself.
pub(crate) fn wrong_value(alloc: Global, path: &str) -> ConfigFault
    ensures { IsFault (ConfigFault.Shape path.now) result }
{
    match Text::from_str(alloc, path) {
        Ok(path) => ConfigFault::Shape { path },
        Err(_) => ConfigFault::Memory,
    }
}

// Objects of a configuration and the keys that they know.
ghost use Rattle.std.specs.Prelude.{◌≡◌, [], OnOk, IfErr, bytes_eq};
ghost use Rattle.std.specs.List.{list_any};
ghost use Rattle.serde_json.specs.View.{view, members_view};
ghost use Rattle.argot_config_read.specs.Shapes.{IsFirst, keys_of, own_faults, unknown_keys};
ghost use Rattle.argot_config_read.specs.Table.{keys_for};

use crate::ConfigFault;
use crate::paths::{unknown_key, wrong_value};
use serde_json::{Map, Value};
use std::alloc::Global;

/// A kind of object of the table.
#[derive(Clone, Copy)]
pub(crate) enum Object {
    Top,
    Problem,
    Matcher,
    Entry,
}

// Whether the object knows the key.
fn is_known(object: Object, key: &str) -> bool
    ensures { result ≡ list_any (bytes_eq key.now) (keys_for object) }
{
    match object {
        Object::Top => key == "main" || (key == "problems" || key == "externals"),
        Object::Problem => {
            key == "name"
                || (key == "sources"
                    || (key == "sinks"
                        || (key == "sanitizers"
                            || (key == "validators" || (key == "points" || key == "escapes")))))
        }
        Object::Matcher => {
            key == "kind" || (key == "package" || (key == "receiver" || key == "name"))
        }
        Object::Entry => {
            key == "package" || (key == "name" || (key == "receiver" || key == "flow"))
        }
    }
}

/// Finds that the value is an object with no key but those that it knows.
pub(crate) fn expect_object(
    alloc: Global,
    value: &Value,
    path: &str,
    object: Object,
) -> Result<(), ConfigFault>
    ensures ok { OnOk result (own_faults (keys_for object) path.now (view value.now) ≡ []) }
    ensures fault { IfErr result (IsFirst (own_faults (keys_for object) path.now (view value.now))) }
{
    match value.as_object() {
        Some(members) => expect_known(alloc, members, path, object),
        None => Err(wrong_value(alloc, path)),
    }
}

// Finds that each key is known.
fn expect_known(
    alloc: Global,
    members: &Map<String, Value>,
    path: &str,
    object: Object,
) -> Result<(), ConfigFault>
    ensures ok { OnOk result (unknown_keys (keys_for object) path.now (keys_of (members_view members.now.entries)) ≡ []) }
    ensures fault { IfErr result (IsFirst (unknown_keys (keys_for object) path.now (keys_of (members_view members.now.entries)))) }
{
    for (key, _) in members.iter() {
        if !is_known(object, key.as_str()) {
            return Err(unknown_key(alloc, path, key.as_str()));
        }
    }
    Ok(())
}

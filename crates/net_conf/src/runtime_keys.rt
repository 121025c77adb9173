//! What a runtime replaces in a plugin's object, and what the object asks of it.

ghost use Rattle.std.specs.Prelude.{◌≡◌, option_map};
ghost use Rattle.serde_json.specs.View.{view};
ghost use Rattle.net_conf.specs.Capabilities as capabilities;
ghost use Rattle.net_conf.specs.RuntimeKeys as defined;

use cni_json::Value;

/// Whether a runtime replaces the key in the request that it makes of a plugin's object (CNI specification 1.1.0,
/// section 3): `cniVersion`, `cniVersions`, `name`, `prevResult`, `runtimeConfig`, and each key that begins with
/// `cni.dev/`. No reader of a plugin looks at such a key. Takes no memory.
pub fn is_runtime_key(key: &str) -> bool
    ensures { result ≡ defined.is_runtime_key key.now }
{
    key == "cniVersion"
        || key == "cniVersions"
        || key == "name"
        || key == "prevResult"
        || key == "runtimeConfig"
        || key.as_bytes().starts_with(b"cni.dev/")
}

/// Whether the object, of a plugin of any type, asks for the port mappings: its `capabilities` has `portMappings` true.
/// What is of another kind asks for nothing. Takes no memory.
pub fn asks_for_mappings(object: &Value) -> bool
    ensures { result ≡ capabilities.asks_for_mappings (view object.now) }
{
    match object.get("capabilities") {
        Some(capabilities) => is_true(capabilities.get("portMappings")),
        None => false,
    }
}

fn is_true(found: Option<&Value>) -> bool
    ensures { result ≡ capabilities.is_true (option_map (λ v. view v.now) found.entry) }
{
    matches!(found, Some(Value::Bool(true)))
}

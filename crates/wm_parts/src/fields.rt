//! The first field that is refused. Definitions: specs/RefusedParts. Tests: client_tests/src/parts.rt.
ghost use Rattle.std.specs.Prelude.{◌≡◌, option_map};
ghost use Rattle.serde_json.specs.View.{items_view, view};
ghost use Rattle.wm_parts.specs.RefusedParts.{first_unknown, is_field};

use serde_json::Value;
use wm_since::Field;

/// Whether a value names a field.
fn is_field(value: &Value) -> bool
    ensures { result ≡ is_field (view value.now) }
{
    match value.as_str() {
        Some(name) => Field::read(name).is_some(),
        None => false,
    }
}

/// The first of some values that names no field.
pub(crate) fn first_unknown(values: &[Value]) -> Option<&Value>
    ensures { option_map (λ v. view v.now) result ≡ first_unknown (items_view values.now) }
{
    for value in values {
        if !is_field(value) {
            return Some(value);
        }
    }
    None
}

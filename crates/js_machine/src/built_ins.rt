// What is asked of built-in functions.

ghost use Rattle.std.specs.Prelude.{◌≡◌};
ghost use Rattle.js_value.specs.Functions as spec;

use js_host::built_in;
use js_value::{BuiltIn, OnObjects};

/// Whether `new` may call the built-in function of this number.
pub fn constructs(id: u32) -> bool
    ensures { result ≡ spec.constructs id }
{
    matches!(built_in(id), Some(BuiltIn::Constructor(_)))
}

/// Whether the built-in function of this number hands on control.
pub fn is_handing(id: u32) -> bool
    ensures { result ≡ spec.is_handing id }
{
    match built_in(id) {
        Some(BuiltIn::OnObjects(OnObjects::Call)) => true,
        Some(BuiltIn::OnObjects(OnObjects::Apply)) => true,
        _ => false,
    }
}

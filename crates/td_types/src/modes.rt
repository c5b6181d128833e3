//! What a service type demands of a property.

ghost use Rattle.std.specs.Prelude.{◌≡◌};
ghost use Rattle.td_types.specs.Modes.{is_mandatory, is_readonly, mode_of, is_at_least, join};

use td_value::PropertyMode;

/// Whether an offer must have the property.
pub fn is_mandatory(mode: PropertyMode) -> bool
    ensures { result ≡ is_mandatory mode }
{
    match mode {
        PropertyMode::Normal | PropertyMode::Readonly => false,
        PropertyMode::Mandatory | PropertyMode::MandatoryReadonly => true,
    }
}

/// Whether the property stays as it was exported.
pub fn is_readonly(mode: PropertyMode) -> bool
    ensures { result ≡ is_readonly mode }
{
    match mode {
        PropertyMode::Normal | PropertyMode::Mandatory => false,
        PropertyMode::Readonly | PropertyMode::MandatoryReadonly => true,
    }
}

fn mode_of(mandatory: bool, readonly: bool) -> PropertyMode
    ensures { result ≡ mode_of mandatory readonly }
{
    match (mandatory, readonly) {
        (false, false) => PropertyMode::Normal,
        (false, true) => PropertyMode::Readonly,
        (true, false) => PropertyMode::Mandatory,
        (true, true) => PropertyMode::MandatoryReadonly,
    }
}

/// Whether the first demands what the second demands.
pub(crate) fn is_at_least(a: PropertyMode, b: PropertyMode) -> bool
    ensures { result ≡ is_at_least a b }
{
    (is_mandatory(a) || !is_mandatory(b)) && (is_readonly(a) || !is_readonly(b))
}

/// The least mode that demands what either demands.
pub(crate) fn join(a: PropertyMode, b: PropertyMode) -> PropertyMode
    ensures { result ≡ join a b }
{
    mode_of(
        is_mandatory(a) || is_mandatory(b),
        is_readonly(a) || is_readonly(b),
    )
}

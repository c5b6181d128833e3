//! Where a TypeCode stands.

/// Where a TypeCode stands, which decides the kinds that it may have.
#[derive(Clone, Copy)]
pub enum Mode {
    /// In a body, or as the type of an any.
    Outer,
    /// In another TypeCode.
    Inner,
    /// As a union's discriminator, or as the item of an alias that stands there.
    Switch,
}

//! Evaluated properties (OMG's Trading Object Service, module CosTradingDynamic).

use td_cdr::{Boxed, Text};
use td_value::Any;

/// What the evaluation of a property gave.
pub struct Evaluation {
    /// The property's name.
    pub name: Text,
    pub value: Option<Boxed<Any>>,
}

// By hand, since a derived drop is written out at each exit, and proved again in each crate above.
impl Drop for Evaluation {
    fn drop(self) {
        let Evaluation {
            name: _name,
            value: _value,
        } = self;
    }
}

//! Object references as traders use them: the IIOP profiles of a reference, its text forms, and the
//! object keys of this server.
#![tactic(auto)]

mod enclosed;
mod fault;
mod key;
mod laws;
mod nil_reference;
mod number;
mod profile;
mod text;

pub use fault::IorFault;
pub use key::{key_parts, read_key, write_key};
pub use laws::{keys_are_read, profiles_are_read, texts_are_read};
pub use nil_reference::{is_nil, nil};
pub use number::{number_of, number_up_to};
pub use profile::{Iiop, has_iiop, iiop_of, make_ior};
pub use td_value::{Kind, ObjectKey};
pub use text::{print_text, read_text};

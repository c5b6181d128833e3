//! CORBA's common data representation (CDR), and the small types over vectors that the layers above
//! keep their data in.
#![tactic(auto)]

mod boxed;
mod fault;
pub mod laws;
mod list;
pub mod mark_laws;
mod memory;
mod named;
mod names;
mod numbers;
mod order;
mod reader;
mod row;
mod seen;
mod sequence;
mod shared;
mod spelled;
mod text;
mod twin;
mod twins;
mod value_fault;
mod whole;
mod writer;

pub use boxed::Boxed;
pub use fault::CdrFault;
pub use list::{List, Octets};
pub use memory::Memory;
pub use named::{Named, find_named};
pub use names::{is_identifier, is_trader_name, is_word, is_word_name};
pub use order::Order;
pub use reader::Reader;
pub use row::{put_five, put_four, put_six, put_three, put_two};
pub use seen::{Seen, nothing_seen, see};
pub use shared::{Shared, share_four, share_owned_three, share_owned_two, share_three, share_two};
pub use spelled::Spelled;
pub use text::{Text, has_nul};
pub use twin::Twin;
pub use twins::{copy_four, copy_three, copy_two};
pub use value_fault::ValueFault;
pub use whole::{obeys, read_whole, refuses, write_whole};
pub use writer::{Writer, flag_of};

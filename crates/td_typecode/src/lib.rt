//! CORBA's TypeCodes, the values under them, anys and object references.
#![tactic(auto)]

mod aliases;
mod begun_nodes;
mod code;
mod copy;
mod graph_nodes;
mod graph_reader;
mod graph_reading;
mod graph_writing;
mod kinds;
mod label;
mod labels;
mod laws;
mod mode;
mod node_labels;
mod node_layer;
mod node_leaves;
mod nodes;
mod outermost;
mod plain;
mod reading;
mod reference;
mod spelled;
mod values;
mod writing;
mod writing_values;

pub use aliases::bare;
pub use code::{Any, Arm, Member, TypeCode, Value};
pub use kinds::{CodeKind, INDIRECTION, kind_of};
pub use label::{Label, label_of, same_label};
pub use laws::{
    anys_are_spelled, codes_are_extended, codes_are_spelled, graphs_are_spelled,
    outermost_codes_are_spelled, worked_graphs, worked_values,
};
pub use mode::Mode;
pub use reading::LEVELS;
pub use reference::{Ior, Profile, read_ior, write_ior};
pub use spelled::{read_any, read_typecode, write_any, write_typecode};

//! What a Request comes to over a group of traders: which object its key names, which call it spells, and what
//! that call is answered with, but for the calls that visit other traders (OMG's Trading Object Service).
#![tactic(auto)]

mod answer;
mod changing;
mod class;
mod desk_label;
mod entry;
mod identity;
mod iterating;
mod judging;
mod laws;
mod linking;
mod listing;
mod looking;
mod objects;
mod target;

pub use answer::{Answer, ReplyBody, no_memory_answer, plain};
pub use changing::answer_change;
pub use class::{RequestClass, class_of};
pub use desk_label::DeskLabel;
pub use entry::Entry;
pub use identity::{answer_is_a, answer_non_existent};
pub use iterating::answer_iterator;
pub use judging::{Judged, judge};
pub use laws::{
    accepted_changes_are_short, changes_stand, refusals_change_nothing, worked_answers,
};
pub use linking::answer_add_link;
pub use looking::{answer_look, how_many};
pub use objects::{Object, find_object};
pub use target::Target;

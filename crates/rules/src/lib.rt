// The library's public calls, in one place: each is passed on from the crate that has it, with the types of its answers, and the
// sizes of the buffers that callers lend. No call asks anything of its caller: every input has its answer. A crate that calls these
// names the crates of the types among its dependencies too, since a type is known there by the crate that declares it.
#![tactic(auto)]

pub use advance_call::{advance, advance_word};
pub use answer::{Refusal, number};
pub use automaton_rule_call::automaton_rule;
pub use combine_call::combine;
pub use complement_call::complement;
pub use confirm_call::confirm;
pub use event_and_mark_call::{event, mark};
pub use event_in_place_call::event_in_place;
pub use feed_call::feed;
pub use file_part_call::file_part;
pub use first_letter_call::{constant, first_letter};
pub use formats::{RULE_SIZE, SCRATCH_SIZE};
pub use fresh_call::fresh;
pub use included_call::included;
pub use inspect_call::inspect;
pub use keep_and_return_call::{keep, return_to};
pub use list_classes_call::list_classes;
pub use member_call::member;
pub use next_call::next;
pub use promises::{
    Advanced, BLOCKS_SIZE, CLASSES_SIZE, CYCLE_SIZE, Confirmation, InPlaceAnswer, Inclusion,
    Inspected, LONGEST_LOG, LassoVerdict, Listed, MAP_SIZE, Monitor, Moved, Operation, POINTS_SIZE,
    Partition, START_SIZE, SUCCESSORS_SIZE, StateKind, Step, Strength, StretchPlace, SuccessorList,
    Summary, Written,
};
pub use reduce_call::reduce;
pub use reduce_rounds_call::reduce_rounds;
pub use stretch_call::{stretch, stretch_place};
pub use strong_call::strong;
pub use successors_call::{state_kind, successors};
pub use summarize_call::summarize;
pub use temporal_promises::UNTIL_CLASSES_SIZE;
pub use until_call::until;
pub use verdict_call::verdict;

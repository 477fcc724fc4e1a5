// The sizes of what the calls that make a rule of a temporal formula are lent; what they answer is `Written`, and the promises are in specs/.
#![tactic(auto)]

// The bytes of the classes that until is lent, as specs/Until has them.
pub const UNTIL_CLASSES_SIZE: usize = 262144;

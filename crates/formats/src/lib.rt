// The sizes of lent buffers, as specs/RuleChecks has them.
#![tactic(auto)]

pub const SCRATCH_SIZE: usize = 65536;

pub const RULE_SIZE: usize = 16404;

// The letters of a word of a call at most, as specs/WordChecks has them.
pub const LONGEST_WORD: usize = 4224;

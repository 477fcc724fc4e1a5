// The map of scratch: where things begin in it, as specs/Map says.
#![tactic(auto)]

// A table of marks, a byte for each pair of up to 64 elements; an automaton's transitions, a byte for each triple.
pub const MARK_TABLE_SIZE: usize = 4096;

pub const TRANSITION_TABLE_SIZE: usize = 576;

// Two markings of a table compared: a second marking, laid out like the first: a second input, the closure, or marks to be written.
pub const SECOND_BASE: usize = 4096;

pub const TABLES_END: usize = 8192;

// The worklist of the search: fronts, backs, the letter that each entry was found by and the entry that it was found from, in two bytes.
pub const FRONTS_BASE: usize = 8192;

pub const BACKS_BASE: usize = 16384;

pub const LETTERS_BASE: usize = 24576;

pub const PARENTS_LOW_BASE: usize = 32768;

pub const PARENTS_HIGH_BASE: usize = 40960;

// The start value for which a state was last found, and 1; a byte for each state.
pub const STATES_BASE: usize = 49152;

// For each letter, 65 bytes a letter: one more than the last value that the letter takes to an element, 0 for none; and one more than the
// value before a value that the letter takes to the same element.
pub const FIRST_PREIMAGES_BASE: usize = 57344;

pub const NEXT_PREIMAGES_BASE: usize = 59392;

// Where the search ends: it keeps the bytes from here on.
pub const SEARCH_END: usize = 61440;

// Membership: the values of the beginnings of v, and of its ends.
pub const BEGINNINGS_BASE: usize = 4096;

pub const ENDS_BASE: usize = 8320;

pub const WORDS_END: usize = 12544;

// Reduction: the outcomes of all pairs of values, the blocks of a round and of the next, the numbers of the blocks and their leaders.
pub const OUTCOMES_BASE: usize = 8192;

pub const BLOCKS_BASE: usize = 12288;

pub const NEXT_BLOCKS_BASE: usize = 12352;

pub const NUMBERS_BASE: usize = 12416;

pub const LEADERS_BASE: usize = 12480;

pub const LEADERS_END: usize = 12544;

// An automaton: the list of its matrices. Of it and of classes of words: where each letter leads from each entry; from which entry and by which letter
// each was found.
pub const MATRICES_BASE: usize = 8192;

pub const STEPS_BASE: usize = 12288;

pub const STEP_PARENTS_BASE: usize = 14336;

pub const STEP_LETTERS_BASE: usize = 15360;

// Two rules made one: the number of each pair of elements in the list of pairs; the halves of each entry of the list, the entry that it was
// found from and the letter that it was found by.
pub const PAIR_NUMBERS_BASE: usize = 8192;

pub const PAIR_LEFTS_BASE: usize = 12288;

pub const PAIR_RIGHTS_BASE: usize = 12352;

pub const PAIR_PARENTS_BASE: usize = 12416;

pub const PAIR_LETTERS_BASE: usize = 12480;

// A rule laid out before it is written: its products by rows, its letters' elements, its marks.
pub const LAID_PRODUCTS_BASE: usize = 16384;

pub const LAID_IMAGES_BASE: usize = 20480;

pub const LAID_MARKS_BASE: usize = 24576;

// The classes of words for `next`: of each the value behind its first letter, or 64, and its value.
pub const NEXT_TAILS_BASE: usize = 28672;

pub const NEXT_WHOLES_BASE: usize = 28736;

// The classes of words for `until`: the pair of each; the grades of each context's pairs by both rules; the class of a word with one letter more, and
// what every letter makes it of.
pub const UNTIL_PAIRS_BASE: usize = 28672;

pub const UNTIL_GRADES_BASE: usize = 32768;

pub const UNTIL_CLASS_BASE: usize = 36864;

pub const UNTIL_STEP_BASE: usize = 40960;

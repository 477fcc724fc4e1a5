// A list of classes of words found along letters, as it is recorded in scratch: where each letter leads, and how each class was found.
//
// The search goes by entries: entry 0 is the empty word, entry j + 1 is class j. From byte 12288 on stands the number of the class that each letter
// leads to from each entry, 16 bytes an entry; from byte 14336 on the entry from which each class was found, and from byte 15360 on the letter by
// which. What a class is stands elsewhere, and nothing here knows it.
#![tactic(auto)]

ghost use Rattle.word_steps.specs.Records.{RecordNeeds, StepRecorded};

use scratch::{STEP_LETTERS_BASE, STEP_PARENTS_BASE, STEPS_BASE};

// Records that a letter leads from an entry to a number, and that the class at `next` was found so. Where no class was added there, the next one that
// is takes that place.
pub fn record_step(scratch: &mut [u8], parent: usize, letter: usize, number: usize, next: usize)
    requires { RecordNeeds scratch.old parent letter number next }
    ensures { StepRecorded scratch.old scratch.new parent letter number next }
{
    scratch[STEPS_BASE + (parent * 16 + letter)] = number as u8;
    scratch[STEP_PARENTS_BASE + next] = parent as u8;
    scratch[STEP_LETTERS_BASE + next] = letter as u8;
}

// The automaton file: the checks 13, 1 to 4 and 8 of document 01, in its order. The bytes are read where they are lent; an automaton
// that passes leaves its transitions in scratch, a byte for each triple of a state, a letter and a state.
#![tactic(auto)]

ghost use Rattle.std.specs.Prelude.{◌≡◌, ◌<◌};
ghost use Rattle.rule_marks.specs.Faults.{FaultAnswer};
ghost use Rattle.formats.specs.AutomatonFile.{transitions_of};
ghost use Rattle.formats.specs.AutomatonChecks.{repeated_checks, automaton_content_checks};
ghost use Rattle.automaton_sections.specs.Sections.{LayoutPassed};
ghost use Rattle.automaton_file.specs.Answers.{index_of, TransitionsNeeds, BlankRoom, LaidAnswer, ReadPromise};

use answer::{Fault, Refusal, Refused};
use automaton_sections::{Counts, read_layout};
use formats::SCRATCH_SIZE;
use rule_check::rest_after;
use scratch::TRANSITION_TABLE_SIZE;
use sections::{zero, zero_part};

// The byte of scratch for the i-th transition of the section at byte `at`.
fn triple_index(bytes: &[u8], at: usize, count: usize, i: usize) -> usize
    requires transitions_needs { TransitionsNeeds bytes.now at count }
    requires i_lt_count { i < count }
    ensures { result ≡ index_of bytes.now i }
{
    let place = at + (2 + 3 * i);
    let p = bytes[place] as usize;
    let a = bytes[place + 1] as usize;
    let q = bytes[place + 2] as usize;
    p * 96 + (a * 6 + q)
}

// Goes through the transitions of the section at byte `at`, in file order: each is new. A byte of the table for each triple remembers
// which transitions have stood.
fn repeated_fault(bytes: &[u8], at: usize, count: usize, table: &mut [u8]) -> Result<(), Fault>
    requires transitions_needs { TransitionsNeeds bytes.now at count }
    requires blank_room { BlankRoom table.old }
    ensures refusal { FaultAnswer (λ input. repeated_checks input bytes.now 0 (transitions_of bytes.now)) result }
    ensures laid { LaidAnswer bytes.now table.old table.new result }
{
    // By index: the place of a refusal is counted from it.
    for i in 0..count {
        let index = triple_index(bytes, at, count, i);
        if table[index] != 0 {
            return Err(Fault {
                refusal: Refusal::Duplicate,
                place: at + (2 + 3 * i),
            });
        }
        table[index] = 1;
    }
    Ok(())
}

// The checks of a file whose sections are there: nothing follows, and no transition stands twice.
fn content_fault(bytes: &[u8], counts: Counts, scratch: &mut [u8]) -> Result<(), Fault>
    requires layout_passed { LayoutPassed bytes.now counts }
    requires blank_room { BlankRoom scratch.old }
    ensures refusal { FaultAnswer (λ input. automaton_content_checks input bytes.now) result }
    ensures laid { LaidAnswer bytes.now scratch.old scratch.new result }
{
    let m = counts.states;
    let count = counts.transitions;
    let at = 1 + m + 1;
    let end = at + (2 + 3 * count);
    let rest = rest_after(bytes, end);
    if 0 < rest.len() {
        return Err(Fault {
            refusal: Refusal::TrailingBytes,
            place: end,
        });
    }
    repeated_fault(bytes, at, count, scratch)
}

// Reads an automaton file that is the input of the given number. Scratch is then zeros, or, of an automaton that passes, holds its
// transitions in its first 576 bytes: byte p·96 + (a·6 + q) is 1 where one goes from p by a to q.
pub fn read_automaton(bytes: &[u8], input: usize, scratch: &mut [u8]) -> Result<Counts, Refused>
    ensures { ReadPromise input bytes.now scratch.old scratch.new result }
{
    if scratch.len() < SCRATCH_SIZE {
        return Err(Refused {
            refusal: Refusal::BufferTooShort,
            input: 1,
            place: 0,
        });
    }
    zero_part(scratch, 0, TRANSITION_TABLE_SIZE);
    let counts = match read_layout(bytes) {
        Ok(counts) => counts,
        Err(fault) => {
            zero(scratch);
            return Err(fault.in_input(input));
        }
    };
    match content_fault(bytes, counts, scratch) {
        Ok(()) => Ok(counts),
        Err(fault) => {
            zero(scratch);
            Err(fault.in_input(input))
        }
    }
}

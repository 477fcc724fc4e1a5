// A monitor moved by a step, or by a word of events, and graded at once (document 02, Job 14). Of a rule that stands nothing is left to check but the letters.
#![tactic(auto)]

ghost use Rattle.std.specs.Prelude.{◌≤◌, length};
ghost use Rattle.theory.specs.Rules.{Lawful};
ghost use Rattle.formats.proofs.Tables.{Table};
ghost use Rattle.formats.specs.Table.{morphism_at};
ghost use Rattle.formats.specs.RuleChecks.{scratch_size};
ghost use Rattle.promises.specs.EventWords.{log_checks, after_word};
ghost use Rattle.promises.specs.Advance.{after_step, foreign_checks, AdvancePromise, AdvanceWordPromise};
ghost use Rattle.monitor_state.specs.Ready.{GoodMonitor};
ghost use Rattle.advance_call.specs.Advancing.{ForeignAnswer, LaterAnswer};

use answer::{Fault, Refusal, Refused};
use monitor_standing::{check_standing, monitor_grade};
use monitor_steps::{log_fault, moved, moved_by_word};
use promises::{Advanced, Monitor, Step};
use sections::zero;

// Whether a step is an event with none of k letters.
fn foreign(k: usize, step: Step) -> bool
    ensures { ForeignAnswer k step result }
{
    match step {
        Step::Event(letter) => {
            if k <= letter as usize {
                return true;
            }
            false
        }
        Step::Mark => false,
        Step::Stay => false,
    }
}

// The answer for a step, once all but its letter is checked and the closure stands in scratch.
fn step_answer(
    rule: &[u8],
    n: usize,
    k: usize,
    input: usize,
    monitor: Monitor,
    step: Step,
    scratch: &[u8],
) -> Advanced
    requires table { Table rule.now n k }
    requires lawful { Lawful (morphism_at rule.now n k) }
    requires good_monitor { GoodMonitor n monitor }
    requires scratch_size_in_bounds { scratch_size ≤ length scratch.now }
    ensures { LaterAnswer (morphism_at rule.now n k) scratch.now (foreign_checks input k step) monitor (after_step (morphism_at rule.now n k) monitor step) result }
{
    if foreign(k, step) {
        return Advanced::Refused {
            monitor,
            refusal: Refusal::UnknownLetter,
            input,
            place: 0,
        };
    }
    let next = moved(rule, n, k, monitor, step);
    let looked = monitor_grade(rule, n, k, next, scratch);
    Advanced::To {
        monitor: next,
        grade: looked.grade,
        turns: looked.turns,
    }
}

// Checks a rule, which is the input of the given number, a monitor's values, the rule's strength and a step, moves the monitor by the step and says the grade of
// its lassos. Scratch ends as zeros, but where it is too short.
//
// `advance_word` reads alike, with a word in place of the step. A form for both would be generic over a trait of moves, with their checks and what they make of a
// monitor as ghost members and an `impl` for each: more to read than these lines.
pub fn advance(
    rule: &[u8],
    input: usize,
    monitor: Monitor,
    step: Step,
    scratch: &mut [u8],
) -> Advanced
    ensures { AdvancePromise input rule.now monitor step scratch.old scratch.new result }
{
    let shape = match check_standing(rule, input, monitor, scratch) {
        Ok(shape) => shape,
        Err(
            Refused {
                refusal,
                input,
                place,
            },
        ) => {
            return Advanced::Refused {
                monitor,
                refusal,
                input,
                place,
            };
        }
    };
    let n = shape.elements;
    let k = shape.letters;
    let answer = step_answer(rule, n, k, input, monitor, step, scratch);
    zero(scratch);
    answer
}

// The answer for a word of events, once all but the word is checked and the closure stands in scratch.
fn word_answer(
    rule: &[u8],
    n: usize,
    k: usize,
    input: usize,
    monitor: Monitor,
    word: &[u8],
    scratch: &[u8],
) -> Advanced
    requires table { Table rule.now n k }
    requires lawful { Lawful (morphism_at rule.now n k) }
    requires good_monitor { GoodMonitor n monitor }
    requires scratch_size_in_bounds { scratch_size ≤ length scratch.now }
    ensures { LaterAnswer (morphism_at rule.now n k) scratch.now (log_checks input k word.now) monitor (after_word (morphism_at rule.now n k) monitor word.now) result }
{
    match log_fault(word, k) {
        Ok(()) => {}
        Err(Fault { refusal, place }) => {
            return Advanced::Refused {
                monitor,
                refusal,
                input,
                place,
            };
        }
    }
    let last = moved_by_word(rule, n, k, monitor, word);
    let looked = monitor_grade(rule, n, k, last, scratch);
    Advanced::To {
        monitor: last,
        grade: looked.grade,
        turns: looked.turns,
    }
}

// The same for a word of events: the monitor after each of its letters in turn, and the grade and the turns at its end.
pub fn advance_word(
    rule: &[u8],
    input: usize,
    monitor: Monitor,
    word: &[u8],
    scratch: &mut [u8],
) -> Advanced
    ensures { AdvanceWordPromise input rule.now monitor word.now scratch.old scratch.new result }
{
    let shape = match check_standing(rule, input, monitor, scratch) {
        Ok(shape) => shape,
        Err(
            Refused {
                refusal,
                input,
                place,
            },
        ) => {
            return Advanced::Refused {
                monitor,
                refusal,
                input,
                place,
            };
        }
    };
    let n = shape.elements;
    let k = shape.letters;
    let answer = word_answer(rule, n, k, input, monitor, word, scratch);
    zero(scratch);
    answer
}

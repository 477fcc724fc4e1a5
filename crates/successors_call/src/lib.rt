// The calls on the automaton of a rule (document 02, Job 5): a caller walks it state by state. A state is (s, e), s an element or 64 for none
// and e idempotent; every call checks the whole rule.
#![tactic(auto)]

ghost use Rattle.promises.specs.RuleAutomaton.{KindPromise, SuccessorsPromise};

use answer::{Refusal, Refused};
use promises::{SUCCESSORS_SIZE, StateKind, SuccessorList};
use rule_automaton::{is_state, kind_of, list_successors};
use rule_check::check;
use sections::zero;

// Checks a rule and tells the kind of a state for a least grade, or refuses it.
pub fn state_kind(rule: &[u8], s: usize, e: usize, least: u8, scratch: &mut [u8]) -> StateKind
    ensures { KindPromise rule.now s e least scratch.old scratch.new result }
{
    let shape = match check(rule, 1, scratch) {
        Ok(shape) => shape,
        Err(
            Refused {
                refusal,
                input,
                place,
            },
        ) => {
            return StateKind::Refused {
                refusal,
                input,
                place,
            };
        }
    };
    let n = shape.elements;
    let k = shape.letters;
    let kind = kind_of(rule, n, k, s, e, least, scratch);
    zero(scratch);
    kind
}

// Checks a rule and lists the states that a letter leads to from a state at the front of out, or refuses it.
pub fn successors(
    rule: &[u8],
    s: usize,
    e: usize,
    letter: u8,
    out: &mut [u8],
    scratch: &mut [u8],
) -> SuccessorList
    ensures { SuccessorsPromise rule.now s e letter out.old out.new scratch.old scratch.new result }
{
    if out.len() < SUCCESSORS_SIZE {
        return SuccessorList::Refused {
            refusal: Refusal::BufferTooShort,
            input: 1,
            place: 0,
        };
    }
    let shape = match check(rule, 1, scratch) {
        Ok(shape) => shape,
        Err(
            Refused {
                refusal,
                input,
                place,
            },
        ) => {
            return SuccessorList::Refused {
                refusal,
                input,
                place,
            };
        }
    };
    zero(scratch);
    let n = shape.elements;
    let k = shape.letters;
    let a = letter as usize;
    let found = is_state(rule, n, k, s, e);
    if !found {
        return SuccessorList::Refused {
            refusal: Refusal::NoSuchState,
            input: 1,
            place: 0,
        };
    }
    if k <= a {
        return SuccessorList::Refused {
            refusal: Refusal::UnknownLetter,
            input: 1,
            place: 0,
        };
    }
    let count = list_successors(rule, n, k, s, e, a, out);
    SuccessorList::Listed(count)
}

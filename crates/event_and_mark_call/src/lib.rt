// The monitor (document 01: follower) of a station: it keeps the value of the letters before the last mark and of those since.
// It holds two values and no count, so its state has the same few forms after years. Every call checks the whole rule.
#![tactic(auto)]

ghost use Rattle.promises.specs.Moves.{EventPromise, MarkPromise};

use answer::{Refusal, Refused};
use monitor_state::prepare;
use monitor_steps::moved;
use promises::{Monitor, Moved, Step};

// An event: since times the letter's element.
pub fn event(rule: &[u8], m: Monitor, letter: u8, scratch: &mut [u8]) -> Moved
    ensures { EventPromise rule.now m letter scratch.old scratch.new result }
{
    let shape = match prepare(rule, m, scratch) {
        Ok(shape) => shape,
        Err(
            Refused {
                refusal,
                input,
                place,
            },
        ) => {
            return Moved::Refused {
                monitor: m,
                refusal,
                input,
                place,
            };
        }
    };
    let n = shape.elements;
    let k = shape.letters;
    if k <= letter as usize {
        return Moved::Refused {
            monitor: m,
            refusal: Refusal::UnknownLetter,
            input: 1,
            place: 0,
        };
    }
    Moved::To(moved(rule, n, k, m, Step::Event(letter)))
}

// A mark: before times since, and since is none again.
pub fn mark(rule: &[u8], m: Monitor, scratch: &mut [u8]) -> Moved
    ensures { MarkPromise rule.now m scratch.old scratch.new result }
{
    let shape = match prepare(rule, m, scratch) {
        Ok(shape) => shape,
        Err(
            Refused {
                refusal,
                input,
                place,
            },
        ) => {
            return Moved::Refused {
                monitor: m,
                refusal,
                input,
                place,
            };
        }
    };
    let n = shape.elements;
    let k = shape.letters;
    Moved::To(moved(rule, n, k, m, Step::Mark))
}

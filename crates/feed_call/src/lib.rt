// A monitor fed with a whole word of events: the rule is checked once, and then each letter costs one product.
#![tactic(auto)]

ghost use Rattle.promises.specs.Feed.{FeedPromise};

use answer::{Fault, Refused};
use monitor_state::prepare;
use monitor_steps::{log_fault, moved_by_word};
use promises::{Monitor, Moved};

// The monitor after an event for each letter of the word, for weak rules too.
pub fn feed(rule: &[u8], m: Monitor, word: &[u8], scratch: &mut [u8]) -> Moved
    ensures { FeedPromise rule.now m word.now scratch.old scratch.new result }
{
    let shape = match prepare(rule, m, scratch) {
        Ok(shape) => shape,
        Err(
            Refused {
                refusal,
                input,
                place,
            },
        ) => {
            return Moved::Refused {
                monitor: m,
                refusal,
                input,
                place,
            };
        }
    };
    let n = shape.elements;
    let k = shape.letters;
    match log_fault(word, k) {
        Ok(()) => {}
        Err(Fault { refusal, place }) => {
            return Moved::Refused {
                monitor: m,
                refusal,
                input: 1,
                place,
            };
        }
    }
    let last = moved_by_word(rule, n, k, m, word);
    Moved::To(last)
}

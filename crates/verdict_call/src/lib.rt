// The verdict of a monitor (document 01: follower's verdict): the grade of the lassos whose start has the value before and whose cycle
// has the value since; where before is none, of those that are their cycle alone. It is for strong rules only, where those lassos all
// have one grade.
#![tactic(auto)]

ghost use Rattle.std.specs.Prelude.{◌≡◌};
ghost use Rattle.verdict_call.specs.Judging.{ValuesAnswer, start_element};
ghost use Rattle.promises.specs.Verdict.{VerdictPromise};

use answer::{Fault, Refusal, Refused};
use monitor_judging::judge;
use monitor_state::out_of_range;
use promises::{LassoVerdict, Monitor};
use rule_check::check;
use sections::zero;

// Whether before is an element or 64 and since an element. A number that is neither an element nor 64 comes before a since of 64.
fn values_fault(n: usize, monitor: Monitor) -> Result<(), Fault>
    ensures { ValuesAnswer n monitor result }
{
    let since = monitor.since;
    if out_of_range(n, monitor) {
        return Err(Fault {
            refusal: Refusal::EntryOutOfRange,
            place: 0,
        });
    }
    if since == 64 {
        return Err(Fault {
            refusal: Refusal::WordLength,
            place: 0,
        });
    }
    Ok(())
}

// The element that the start is judged by: before, or since where before is none.
pub fn start_element(monitor: Monitor) -> usize
    ensures { result ≡ start_element monitor }
{
    if monitor.before == 64 {
        return monitor.since;
    }
    monitor.before
}

// Checks a rule and a monitor's values, and says the grade of the lassos with those values. Scratch ends as zeros, but where it is
// too short.
pub fn verdict(rule: &[u8], monitor: Monitor, scratch: &mut [u8]) -> LassoVerdict
    ensures { VerdictPromise rule.now monitor scratch.old scratch.new result }
{
    let shape = match check(rule, 1, scratch) {
        Ok(shape) => shape,
        Err(
            Refused {
                refusal,
                input,
                place,
            },
        ) => {
            return LassoVerdict::Refused {
                refusal,
                input,
                place,
            };
        }
    };
    let n = shape.elements;
    let k = shape.letters;
    match values_fault(n, monitor) {
        Ok(()) => {}
        Err(Fault { refusal, place }) => {
            zero(scratch);
            return LassoVerdict::Refused {
                refusal,
                input: 1,
                place,
            };
        }
    }
    let start = start_element(monitor);
    let since = monitor.since;
    judge(rule, n, k, start, since, scratch)
}

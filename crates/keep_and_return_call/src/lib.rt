// Named points of a monitor (document 02, Job 1): a keep stores the monitor's two values under a name from 0 to 7, a return reads them
// back. The points are lent as 24 bytes, three for each name: whether it was kept, before, since. No other call is handed them.
#![tactic(auto)]

ghost use Rattle.promises.specs.Points.{KeepPromise, ReturnPromise};
ghost use Rattle.keep_and_return_call.specs.Begun.{BegunPromise};

use answer::{Fault, Refusal, Refused};
use monitor_point_checks::{keep_fault, return_fault};
use promises::{Monitor, Moved, POINTS_SIZE};
use rule_check::check;
use sections::zero;

// What both calls begin with: how many elements the rule has, or the refusal of the points' length, or of the rule. Scratch ends as zeros,
// but where a buffer is too short.
fn begin(rule: &[u8], points: &[u8], scratch: &mut [u8]) -> Result<usize, Refused>
    ensures { BegunPromise rule.now points.now scratch.old scratch.new result }
{
    if points.len() < POINTS_SIZE {
        return Err(Refused {
            refusal: Refusal::BufferTooShort,
            input: 1,
            place: 0,
        });
    }
    let shape = check(rule, 1, scratch)?;
    zero(scratch);
    Ok(shape.elements)
}

// Keeps the monitor under a name, in place of what the name held.
pub fn keep(rule: &[u8], m: Monitor, name: usize, points: &mut [u8], scratch: &mut [u8]) -> Moved
    ensures { KeepPromise rule.now m name points.old points.new scratch.old scratch.new result }
{
    let n = match begin(rule, points, scratch) {
        Ok(n) => n,
        Err(
            Refused {
                refusal,
                input,
                place,
            },
        ) => {
            return Moved::Refused {
                monitor: m,
                refusal,
                input,
                place,
            };
        }
    };
    match keep_fault(n, m, name, points) {
        Ok(()) => {}
        Err(Fault { refusal, place }) => {
            return Moved::Refused {
                monitor: m,
                refusal,
                input: 1,
                place,
            };
        }
    }
    let before = m.before;
    let since = m.since;
    points[3 * name] = 1;
    points[3 * name + 1] = before as u8;
    points[3 * name + 2] = since as u8;
    Moved::To(m)
}

// The monitor that was kept under a name. Every point stays.
pub fn return_to(rule: &[u8], m: Monitor, name: usize, points: &[u8], scratch: &mut [u8]) -> Moved
    ensures { ReturnPromise rule.now m name points.now scratch.old scratch.new result }
{
    let n = match begin(rule, points, scratch) {
        Ok(n) => n,
        Err(
            Refused {
                refusal,
                input,
                place,
            },
        ) => {
            return Moved::Refused {
                monitor: m,
                refusal,
                input,
                place,
            };
        }
    };
    match return_fault(n, m, name, points) {
        Ok(()) => {}
        Err(Fault { refusal, place }) => {
            return Moved::Refused {
                monitor: m,
                refusal,
                input: 1,
                place,
            };
        }
    }
    let before = points[3 * name + 1] as usize;
    let since = points[3 * name + 2] as usize;
    Moved::To(Monitor { before, since })
}

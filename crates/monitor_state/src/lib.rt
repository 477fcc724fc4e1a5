// The state of a monitor (document 01: follower): two values, the product of two values, and the check of a rule with a
// monitor's values before a call moves it.
#![tactic(auto)]

ghost use Rattle.std.specs.Prelude.{◌≡◌};
ghost use Rattle.formats.proofs.Tables.{Table};
ghost use Rattle.monitor_state.specs.Ready.{GoodNumber, join_at, OutOfRangeAnswer, StrayAnswer, ReadyPromise};

use answer::{Refusal, Refused};
use promises::Monitor;
use rule_check::check;
use rule_layout::Shape;
use rule_table::product;
use sections::zero;

// Whether a number is neither an element nor 64.
pub fn number_out_of_range(n: usize, s: usize) -> bool
    ensures { OutOfRangeAnswer n s result }
{
    if s < n {
        return false;
    }
    if s == 64 {
        return false;
    }
    true
}

// Whether one of a monitor's values is such a number.
pub fn out_of_range(n: usize, m: Monitor) -> bool
    ensures { StrayAnswer n m result }
{
    number_out_of_range(n, m.before) || number_out_of_range(n, m.since)
}

// A rule that is checked, with scratch zeros again, where the monitor's values are good.
pub fn prepare(rule: &[u8], m: Monitor, scratch: &mut [u8]) -> Result<Shape, Refused>
    ensures { ReadyPromise rule.now m scratch.old scratch.new result }
{
    let shape = check(rule, 1, scratch)?;
    zero(scratch);
    if out_of_range(shape.elements, m) {
        return Err(Refused {
            refusal: Refusal::EntryOutOfRange,
            input: 1,
            place: 0,
        });
    }
    Ok(shape)
}

// The product of two values, each an element or 64 for none.
pub fn join(rule: &[u8], n: usize, k: usize, a: usize, b: usize) -> usize
    requires table { Table rule.now n k }
    requires good_number { GoodNumber n a × GoodNumber n b }
    ensures { result ≡ join_at rule.now n k a b }
{
    if a == 64 {
        return b;
    }
    if b == 64 {
        return a;
    }
    product(rule, n, a, b)
}

// Whether each pair of values has the same outcome in one rule and, where a map takes it, in another. All stands in one lent slice, as
// specs/Grades says.
#![tactic(auto)]

ghost use Rattle.std.specs.Prelude.{◌<◌};
ghost use Rattle.finite.specs.Tells.{Tells};
ghost use Rattle.formats.specs.Table.{morphism_at};
ghost use Rattle.finite.specs.Each.{EachBelow};
ghost use Rattle.confirm_grades.specs.Grades.{OutcomeKept, GradesKept, GradesNeeds};

use confirm_map::mapped;
use reduce_first_round::{outcome, outcome_at};
use rule_table::idempotent_power;
use scratch::SEARCH_END;

// Whether the outcomes of all values with z for the cycle are kept. Its idempotent power is the same for all of them.
fn column_kept(
    first: &[u8],
    n1: usize,
    k1: usize,
    map: &[u8],
    n2: usize,
    scratch: &[u8],
    z: usize,
) -> bool
    requires grades_needs { GradesNeeds first.now n1 k1 map.now n2 scratch.now }
    requires z_lt_n1 { z < n1 }
    ensures { Tells (EachBelow (λ s. OutcomeKept (morphism_at first.now n1 k1) map.now scratch.now s z) n1) result }
{
    let power = idempotent_power(first, n1, k1, z);
    let f = power.element;
    let y = mapped(map, z);
    // By number: elements are the numbers below n1.
    for s in 0..n1 {
        let here = outcome(first, n1, k1, scratch, SEARCH_END, s, f);
        let t = mapped(map, s);
        if here != outcome_at(scratch, t, y) {
            return false;
        }
    }
    true
}

// Whether the outcomes of all values are.
pub fn grades_kept(
    first: &[u8],
    n1: usize,
    k1: usize,
    map: &[u8],
    n2: usize,
    scratch: &[u8],
) -> bool
    requires { GradesNeeds first.now n1 k1 map.now n2 scratch.now }
    ensures { Tells (GradesKept (morphism_at first.now n1 k1) map.now scratch.now) result }
{
    (0..n1).all(|z| column_kept(first, n1, k1, map, n2, scratch, z))
}

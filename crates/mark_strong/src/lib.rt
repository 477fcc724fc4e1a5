// Whether a rule is strong: the closure of its marks is worked out, and where the marks have all of it they are strong without a
// search; otherwise they are strong exactly if no lasso of the closure escapes them, at any grade.
#![tactic(auto)]

ghost use Rattle.formats.proofs.Tables.{Table};
ghost use Rattle.formats.specs.Table.{morphism_at};
ghost use Rattle.mark_strong.specs.Deciding.{DecideNeeds, Decided};

use mark_closure::close;
use mark_grade_search::highest_escape;
use scratch::{SECOND_BASE, TABLES_END};
use sections::zero_part;

// Decides strength from the marks in scratch, and leaves their closure behind them. The bytes from 61440 on are kept.
pub fn decide(rule: &[u8], n: usize, k: usize, scratch: &mut [u8]) -> bool
    requires table { Table rule.now n k }
    requires decide_needs { DecideNeeds (morphism_at rule.now n k) 0 scratch.old }
    ensures { Decided (morphism_at rule.now n k) scratch.old scratch.new result }
{
    zero_part(scratch, SECOND_BASE, TABLES_END);
    let closed = close(rule, n, k, scratch);
    if closed {
        return true;
    }
    highest_escape(rule, n, k, scratch, SECOND_BASE, 0).is_none()
}

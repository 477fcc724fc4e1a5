// Two markings of a table that stand in scratch compared: whether no lasso is graded higher by the first than by the second, and if one
// is, such a lasso.
#![tactic(auto)]

ghost use Rattle.std.specs.Prelude.{◌≤◌, length};
ghost use Rattle.formats.proofs.Tables.{Table};
ghost use Rattle.formats.specs.Table.{morphism_at};
ghost use Rattle.mark_comparison.specs.Comparison.{StartNeeds, StartWritten, CompareNeeds, Compared};

use mark_cycles::write_cycle;
use mark_grade_search::highest_escape;
use mark_spelling::write_first_word;
use promises::Inclusion;
use rule_reach::reach;
use scratch::SECOND_BASE;
use sections::zero;

// Writes the first word of an element, and answers how many letters it has.
fn write_start(rule: &[u8], n: usize, k: usize, s: usize, out: &mut [u8]) -> usize
    requires table { Table rule.now n k }
    requires start_needs { StartNeeds (morphism_at rule.now n k) s out.old }
    ensures { StartWritten (morphism_at rule.now n k) s out.old out.new result }
{
    let mut queue = [0u8; 256];
    reach(rule, n, k, &mut queue);
    write_first_word(&queue, n, s, out)
}

// Compares the two markings in scratch, and clears it.
pub fn compare(
    rule: &[u8],
    n: usize,
    k: usize,
    u: &mut [u8],
    v: &mut [u8],
    scratch: &mut [u8],
) -> Inclusion
    requires table { Table rule.now n k }
    requires compare_needs { CompareNeeds (morphism_at rule.now n k) scratch.old }
    requires in_bounds { (64 ≤ length u.old) × (4224 ≤ length v.old) }
    ensures { Compared (morphism_at rule.now n k) u.old u.new v.old v.new scratch.old scratch.new result }
{
    match highest_escape(rule, n, k, scratch, 0, SECOND_BASE) {
        None => {
            zero(scratch);
            Inclusion::Included
        }
        Some(found) => {
            let u_letters = write_start(rule, n, k, found.escape.start, u);
            let v_letters = write_cycle(scratch, n, found.escape.entry, v);
            zero(scratch);
            Inclusion::NotIncluded {
                u: u_letters,
                v: v_letters,
            }
        }
    }
}

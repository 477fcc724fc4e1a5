// The checks 7 and 8 of a marks section, mark by mark: each is linked and none stands twice. The marks that pass are laid out in a
// lent table, a byte for each pair: its grade.
#![tactic(auto)]

ghost use Rattle.std.specs.Prelude.{◌<◌};
ghost use Rattle.formats.proofs.Tables.{Table};
ghost use Rattle.formats.specs.Table.{morphism_at};
ghost use Rattle.formats.specs.RuleChecks.{mark_checks};
ghost use Rattle.rule_marks.specs.Faults.{FaultAnswer, LinkedAnswer, MarksRoom, MarksAnswer};

use answer::{Fault, Refusal};
use rule_table::product;

// Whether a pair of elements is linked.
pub fn linked(rule: &[u8], n: usize, k: usize, s: usize, e: usize) -> bool
    requires table { Table rule.now n k }
    requires s_lt_n { (s < n) × (e < n) }
    ensures { LinkedAnswer (morphism_at rule.now n k) s e result }
{
    product(rule, n, e, e) == e && product(rule, n, s, e) == s
}

// Goes through the marks of the section at byte `at`, in file order: each is linked and new. A byte of the table for each pair
// gets its grade, which is not 0, and so remembers which pairs have stood.
pub fn mark_fault(
    rule: &[u8],
    n: usize,
    k: usize,
    bytes: &[u8],
    at: usize,
    count: usize,
    table: &mut [u8],
) -> Result<(), Fault>
    requires table { Table rule.now n k }
    requires marks_room { MarksRoom bytes.now at count n table.old }
    ensures refusal { FaultAnswer (λ input. mark_checks input (morphism_at rule.now n k) bytes.now at 0 count) result }
    ensures laid { MarksAnswer (morphism_at rule.now n k) bytes.now at count table.old table.new result }
{
    // By index: the place of a refusal is counted from it.
    for i in 0..count {
        let place = at + (2 + 3 * i);
        let s = bytes[place] as usize;
        let e = bytes[place + 1] as usize;
        let grade = bytes[place + 2];
        if !linked(rule, n, k, s, e) {
            return Err(Fault {
                refusal: Refusal::NotLinked,
                place,
            });
        }
        if table[s * 64 + e] != 0 {
            return Err(Fault {
                refusal: Refusal::Duplicate,
                place,
            });
        }
        table[s * 64 + e] = grade;
    }
    Ok(())
}

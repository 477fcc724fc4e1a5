// Outcomes and round 0: the outcome of each pair of values, and the blocks of the elements that no outcome tells apart. All stands
// in one lent slice, as specs/Map says.
#![tactic(auto)]

ghost use Rattle.std.specs.Prelude.{◌≡◌, ◌+◌, ◌≤◌, ◌<◌, length};
ghost use Rattle.finite.specs.Tells.{Tells};
ghost use Rattle.theory.specs.Rules.{Lawful};
ghost use Rattle.formats.proofs.Tables.{Table};
ghost use Rattle.formats.specs.Table.{product_at, morphism_at};
ghost use Rattle.scratch.specs.Map.{blocks_base, mark_table_size, marks_from};
ghost use Rattle.theory.specs.Rounds.{SameOutcomes, Together};
ghost use Rattle.reduce_first_round.specs.Map.{outcome_at};
ghost use Rattle.reduce_first_round.specs.Steps.{LeastRelated, ColumnWritten, OutcomesWritten, BlocksWritten};
ghost use Rattle.formats.specs.RuleChecks.{scratch_size};

use rule_table::{idempotent_power, product};
use scratch::{BLOCKS_BASE, OUTCOMES_BASE, SECOND_BASE};

// The mark of the pair (s·f, f) in the table of marks that begins at a byte.
pub fn outcome(
    rule: &[u8],
    n: usize,
    k: usize,
    scratch: &[u8],
    base: usize,
    s: usize,
    f: usize,
) -> u8
    requires table { Table rule.now n k }
    requires s_lt_n { (s < n) × (f < n) }
    requires mark_table_size_in_bounds { base + mark_table_size ≤ length scratch.now }
    ensures { result ≡ marks_from scratch.now base (product_at rule.now n s f) f }
{
    let t = product(rule, n, s, f);
    scratch[base + (t * 64 + f)]
}

// The outcomes of all values with z for the cycle.
pub fn outcome_column(rule: &[u8], n: usize, k: usize, scratch: &mut [u8], z: usize)
    requires table { Table rule.now n k }
    requires lawful { Lawful (morphism_at rule.now n k) }
    requires z_lt_n { z < n }
    requires scratch_size_in_bounds { scratch_size ≤ length scratch.old }
    ensures { ColumnWritten (morphism_at rule.now n k) z n scratch.old scratch.new }
{
    let power = idempotent_power(rule, n, k, z);
    let f = power.element;
    // By index: each byte is worked out from the slice that it is written to.
    for s in 0..n {
        let found = outcome(rule, n, k, scratch, SECOND_BASE, s, f);
        scratch[OUTCOMES_BASE + (s * 64 + z)] = found;
    }
}

// The outcomes of all values.
pub fn outcomes(rule: &[u8], n: usize, k: usize, scratch: &mut [u8])
    requires table { Table rule.now n k }
    requires lawful { Lawful (morphism_at rule.now n k) }
    requires scratch_size_in_bounds { scratch_size ≤ length scratch.old }
    ensures { OutcomesWritten (morphism_at rule.now n k) n scratch.old scratch.new }
{
    // By number: elements are the numbers below n.
    for z in 0..n {
        outcome_column(rule, n, k, scratch, z);
    }
}

// The outcome of the values (s, z), read.
pub fn outcome_at(scratch: &[u8], s: usize, z: usize) -> u8
    requires s_bound { (s < 64) × (z < 64) }
    requires scratch_size_in_bounds { scratch_size ≤ length scratch.now }
    ensures { result ≡ outcome_at scratch.now s z }
{
    scratch[OUTCOMES_BASE + (s * 64 + z)]
}

// Whether two elements have the same outcomes, as start and as cycle.
pub fn same_outcomes(rule: &[u8], n: usize, k: usize, scratch: &[u8], s: usize, t: usize) -> bool
    requires table { Table rule.now n k }
    requires s_lt_n { (s < n) × (t < n) }
    requires scratch_size_in_bounds { scratch_size ≤ length scratch.now }
    ensures { Tells (SameOutcomes (morphism_at rule.now n k) (outcome_at scratch.now) s t) result }
{
    // By number: elements are the numbers below n.
    for z in 0..n {
        if outcome_at(scratch, s, z) != outcome_at(scratch, t, z) {
            return false;
        }
        if outcome_at(scratch, z, s) != outcome_at(scratch, z, t) {
            return false;
        }
    }
    true
}

// The least element with the same outcomes as s.
pub fn first_alike(rule: &[u8], n: usize, k: usize, scratch: &[u8], s: usize) -> usize
    requires table { Table rule.now n k }
    requires s_lt_n { s < n }
    requires scratch_size_in_bounds { scratch_size ≤ length scratch.now }
    ensures { LeastRelated (SameOutcomes (morphism_at rule.now n k) (outcome_at scratch.now)) s result }
{
    (0..s)
        .find(|t| same_outcomes(rule, n, k, scratch, *t, s))
        .unwrap_or(s)
}

// The blocks of round 0.
pub fn first_blocks(rule: &[u8], n: usize, k: usize, scratch: &mut [u8])
    requires table { Table rule.now n k }
    requires scratch_size_in_bounds { scratch_size ≤ length scratch.old }
    ensures { BlocksWritten n (Together (morphism_at rule.now n k) (outcome_at scratch.old) 0) blocks_base scratch.old scratch.new }
{
    // By index: each byte is worked out from the slice that it is written to.
    for s in 0..n {
        let t = first_alike(rule, n, k, scratch, s);
        scratch[BLOCKS_BASE + s] = t as u8;
    }
}

// The blocks of elements after one round more, worked out beside those before it: the least element that the round keeps together with each. Two
// elements stay together if they were, and so were their products with each letter.
#![tactic(auto)]

ghost use Rattle.std.specs.Prelude.{◌≤◌, ◌<◌, length};
ghost use Rattle.finite.specs.Tells.{Tells};
ghost use Rattle.formats.proofs.Tables.{Table};
ghost use Rattle.formats.specs.Table.{morphism_at};
ghost use Rattle.theory.specs.Rounds.{StillTogether};
ghost use Rattle.reduce_first_round.specs.Map.{InOneBlock};
ghost use Rattle.reduce_first_round.specs.Steps.{LeastRelated, BlocksWritten, ProductsTogether};
ghost use Rattle.scratch.specs.Map.{next_blocks_base};
ghost use Rattle.formats.specs.RuleChecks.{scratch_size};

use rule_table::{image, product};
use scratch::{BLOCKS_BASE, NEXT_BLOCKS_BASE};

// Whether the products of two elements with a letter, on the right and on the left, are in one block.
fn products_together(
    rule: &[u8],
    n: usize,
    k: usize,
    scratch: &[u8],
    s: usize,
    t: usize,
    a: usize,
) -> bool
    requires table { Table rule.now n k }
    requires s_lt_n { (s < n) × (t < n) × (a < k) }
    requires scratch_size_in_bounds { scratch_size ≤ length scratch.now }
    ensures { Tells (ProductsTogether (morphism_at rule.now n k) (InOneBlock scratch.now) s t a) result }
{
    let h = image(rule, n, a);
    let s_right = product(rule, n, s, h);
    let t_right = product(rule, n, t, h);
    if scratch[BLOCKS_BASE + s_right] != scratch[BLOCKS_BASE + t_right] {
        return false;
    }
    let s_left = product(rule, n, h, s);
    let t_left = product(rule, n, h, t);
    if scratch[BLOCKS_BASE + s_left] != scratch[BLOCKS_BASE + t_left] {
        return false;
    }
    true
}

// Whether a round keeps two elements together.
fn still_together(rule: &[u8], n: usize, k: usize, scratch: &[u8], s: usize, t: usize) -> bool
    requires table { Table rule.now n k }
    requires s_lt_n { (s < n) × (t < n) }
    requires scratch_size_in_bounds { scratch_size ≤ length scratch.now }
    ensures { Tells (StillTogether (morphism_at rule.now n k) (InOneBlock scratch.now) s t) result }
{
    if scratch[BLOCKS_BASE + s] != scratch[BLOCKS_BASE + t] {
        return false;
    }
    // By number: letters are the numbers below k.
    for a in 0..k {
        if !products_together(rule, n, k, scratch, s, t, a) {
            return false;
        }
    }
    true
}

// The least element that a round keeps together with s.
fn first_kept(rule: &[u8], n: usize, k: usize, scratch: &[u8], s: usize) -> usize
    requires table { Table rule.now n k }
    requires s_lt_n { s < n }
    requires scratch_size_in_bounds { scratch_size ≤ length scratch.now }
    ensures { LeastRelated (StillTogether (morphism_at rule.now n k) (InOneBlock scratch.now)) s result }
{
    (0..s)
        .find(|t| still_together(rule, n, k, scratch, *t, s))
        .unwrap_or(s)
}

// The blocks after one round more, worked out beside those before it.
pub fn next_blocks(rule: &[u8], n: usize, k: usize, scratch: &mut [u8])
    requires table { Table rule.now n k }
    requires scratch_size_in_bounds { scratch_size ≤ length scratch.old }
    ensures { BlocksWritten n (StillTogether (morphism_at rule.now n k) (InOneBlock scratch.old)) next_blocks_base scratch.old scratch.new }
{
    // By index: each byte is worked out from the slice that it is written to.
    for s in 0..n {
        let t = first_kept(rule, n, k, scratch, s);
        scratch[NEXT_BLOCKS_BASE + s] = t as u8;
    }
}

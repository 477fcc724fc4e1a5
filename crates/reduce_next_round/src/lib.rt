// A further round on blocks of elements, looked at and taken: whether it would change a block, and its blocks in the place of those before it.
#![tactic(auto)]

ghost use Rattle.std.specs.Prelude.{◌≤◌, length};
ghost use Rattle.finite.specs.Tells.{Tells};
ghost use Rattle.formats.proofs.Tables.{Table};
ghost use Rattle.formats.specs.Table.{morphism_at};
ghost use Rattle.reduce_next_round.specs.Round.{BlockChanges, RoundSeen, TakenOver};
ghost use Rattle.formats.specs.RuleChecks.{scratch_size};

use reduce_round_blocks::next_blocks;
use scratch::{BLOCKS_BASE, NEXT_BLOCKS_BASE};

// Whether an element's new block differs from its old one.
fn changes(n: usize, scratch: &[u8]) -> bool
    requires n_bound { n ≤ 64 }
    requires scratch_size_in_bounds { scratch_size ≤ length scratch.now }
    ensures { Tells (BlockChanges n scratch.now) result }
{
    scratch[NEXT_BLOCKS_BASE..NEXT_BLOCKS_BASE + n] != scratch[BLOCKS_BASE..BLOCKS_BASE + n]
}

// Looks at a further round and does not take it: its blocks are worked out beside those that stand. True if it would change one.
pub fn look(rule: &[u8], n: usize, k: usize, scratch: &mut [u8]) -> bool
    requires table { Table rule.now n k }
    requires scratch_size_in_bounds { scratch_size ≤ length scratch.old }
    ensures { RoundSeen (morphism_at rule.now n k) scratch.old scratch.new result }
{
    next_blocks(rule, n, k, scratch);
    changes(n, scratch)
}

// Takes the round that was looked at: its blocks stand in the place of those before it.
pub fn take(n: usize, scratch: &mut [u8])
    requires n_bound { n ≤ 64 }
    requires scratch_size_in_bounds { scratch_size ≤ length scratch.old }
    ensures { TakenOver n scratch.old scratch.new }
{
    scratch.copy_within(NEXT_BLOCKS_BASE..NEXT_BLOCKS_BASE + n, BLOCKS_BASE);
}

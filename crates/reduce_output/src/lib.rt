// What is written of a strong rule's reduction: its rounds, the numbers of its blocks and a copy of them as the map, and the rule whose elements
// are the blocks. All stands in one lent slice, as reduce_table/specs/Layout says.
#![tactic(auto)]

ghost use Rattle.formats.proofs.Tables.{Table};
ghost use Rattle.formats.specs.Table.{morphism_at};
ghost use Rattle.reduce_output.specs.Steps.{ReduceNeeds, ReducedWritten};

use promises::MOST_ROUNDS;
use reduce_numbering::number_blocks;
use reduce_rounds::refine;
use reduce_rule::write_quotient;
use scratch::NUMBERS_BASE;

// Writes the reduction of a strong rule, from the closure of its marks in scratch, and the number of each element's block.
pub fn write_reduced(
    rule: &[u8],
    n: usize,
    k: usize,
    scratch: &mut [u8],
    out: &mut [u8],
    map: &mut [u8],
) -> usize
    requires table { Table rule.now n k }
    requires reduce_needs { ReduceNeeds (morphism_at rule.now n k) scratch.old out.old map.old }
    ensures { ReducedWritten (morphism_at rule.now n k) scratch.old scratch.new out.old out.new map.old map.new result }
{
    refine(rule, n, k, MOST_ROUNDS, scratch);
    let c = number_blocks(rule, n, k, scratch);
    map[..n].copy_from_slice(&scratch[NUMBERS_BASE..NUMBERS_BASE + n]);
    write_quotient(rule, n, k, c, scratch, out)
}

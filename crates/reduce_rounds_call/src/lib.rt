// Reduction by rounds (document 02, Job 9): the blocks of a strong rule's elements after as many rounds as a limit allows, a byte for each
// element. The rounds are those of `reduce`.
#![tactic(auto)]

ghost use Rattle.std.specs.Prelude.{◌≤◌, length};
ghost use Rattle.theory.specs.Rules.{Lawful};
ghost use Rattle.formats.proofs.Tables.{Table};
ghost use Rattle.formats.specs.Table.{morphism_at};
ghost use Rattle.formats.specs.RuleChecks.{scratch_size};
ghost use Rattle.reduce_rounds_call.specs.Steps.{BlocksGiven};
ghost use Rattle.promises.specs.Rounds.{blocks_size, RoundsPromise};

use answer::{Refusal, Refused};
use mark_strong::decide;
use promises::{BLOCKS_SIZE, MOST_ROUNDS, Partition};
use reduce_rounds::{Refined, refine};
use rule_bytes::copy;
use rule_check::check;
use scratch::BLOCKS_BASE;
use sections::zero;

// Runs the rounds of a strong rule, from the closure of its marks in scratch, and copies the blocks to the front of the lent bytes.
fn write_blocks(
    rule: &[u8],
    n: usize,
    k: usize,
    limit: usize,
    scratch: &mut [u8],
    blocks: &mut [u8],
) -> Refined
    requires table { Table rule.now n k }
    requires lawful { Lawful (morphism_at rule.now n k) }
    requires scratch_size_in_bounds { scratch_size ≤ length scratch.old }
    requires blocks_size_in_bounds { blocks_size ≤ length blocks.old }
    ensures { BlocksGiven (morphism_at rule.now n k) limit scratch.old scratch.new blocks.old blocks.new result }
{
    let refined = refine(rule, n, k, limit, scratch);
    let from = &scratch[BLOCKS_BASE..];
    copy(from, n, blocks, 0);
    refined
}

// Checks a rule and gives the blocks of its reduction's rounds within the limit, or refuses it. Scratch ends as zeros, but where a buffer is
// too short.
pub fn reduce_rounds(rule: &[u8], limit: usize, blocks: &mut [u8], scratch: &mut [u8]) -> Partition
    ensures { RoundsPromise rule.now limit blocks.old blocks.new scratch.old scratch.new result }
{
    if blocks.len() < BLOCKS_SIZE {
        return Partition::Refused {
            refusal: Refusal::BufferTooShort,
            input: 1,
            place: 0,
        };
    }
    let shape = match check(rule, 1, scratch) {
        Ok(shape) => shape,
        Err(
            Refused {
                refusal,
                input,
                place,
            },
        ) => {
            return Partition::Refused {
                refusal,
                input,
                place,
            };
        }
    };
    if MOST_ROUNDS < limit {
        zero(scratch);
        return Partition::Refused {
            refusal: Refusal::LimitOutOfRange,
            input: 1,
            place: 0,
        };
    }
    let strong = decide(rule, shape.elements, shape.letters, scratch);
    if !strong {
        zero(scratch);
        return Partition::Refused {
            refusal: Refusal::NotStrong,
            input: 1,
            place: 0,
        };
    }
    let refined = write_blocks(rule, shape.elements, shape.letters, limit, scratch, blocks);
    zero(scratch);
    Partition::Blocks {
        rounds: refined.rounds,
        finished: refined.finished,
    }
}

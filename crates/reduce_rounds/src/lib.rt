// The first half of the reduction of a rule: the outcomes of all pairs of values, and rounds on blocks of elements until a round
// would change nothing or a limit is reached (document 02, Job 9). All stands in one lent slice, as reduce_first_round/specs/Map says: the closure of the marks from 4096, the
// outcomes from 8192, the least element of each element's block from 12288, and from 12352 the same after the round at hand.
#![tactic(auto)]

ghost use Rattle.std.specs.Prelude.{◌≤◌, length};
ghost use Rattle.theory.specs.Rules.{Lawful};
ghost use Rattle.formats.proofs.Tables.{Table};
ghost use Rattle.formats.specs.Table.{morphism_at};
ghost use Rattle.reduce_rounds.specs.Rounds.{RoundsRefined};
ghost use Rattle.formats.specs.RuleChecks.{scratch_size};

use reduce_first_round::{first_blocks, outcomes};
use reduce_next_round::{look, take};

// The rounds done after round 0, and whether one more would change nothing.
#[derive(Drop)]
pub struct Refined {
    pub rounds: usize,
    pub finished: bool,
}

// The outcomes, the blocks of round 0, and rounds until one more would change nothing or as many as the limit are done. A round is looked
// at before it is taken, so that the limit is never overstepped.
pub fn refine(rule: &[u8], n: usize, k: usize, limit: usize, scratch: &mut [u8]) -> Refined
    requires table { Table rule.now n k }
    requires lawful { Lawful (morphism_at rule.now n k) }
    requires scratch_size_in_bounds { scratch_size ≤ length scratch.old }
    ensures { RoundsRefined (morphism_at rule.now n k) limit scratch.old scratch.new result }
{
    outcomes(rule, n, k, scratch);
    first_blocks(rule, n, k, scratch);
    // By number: the rounds that are done are an answer.
    for rounds in 0..limit {
        if !look(rule, n, k, scratch) {
            return Refined {
                rounds,
                finished: true,
            };
        }
        take(n, scratch);
    }
    let finished = !look(rule, n, k, scratch);
    Refined {
        rounds: limit,
        finished,
    }
}

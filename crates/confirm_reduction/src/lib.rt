// Whether the bytes of a map reduce the first of two strong rules to the second: every sentence of the definition is tested on the bytes. All
// stands in one lent slice: the closure of the first rule's marks from 61440 on, that of the second's from 4096 on, and the rounds of the
// second's reduction as reduce_first_round/specs/Map says.
#![tactic(auto)]

ghost use Rattle.std.specs.Prelude.{◌≤◌, length};
ghost use Rattle.finite.specs.Tells.{Tells};
ghost use Rattle.formats.specs.RuleChecks.{scratch_size};
ghost use Rattle.two_rules.specs.Deciding.{StrongFiles};
ghost use Rattle.confirm_reduction.specs.Judging.{EachAlone, MapJudged};

use confirm_grades::grades_kept;
use confirm_map::maps_onto;
use promises::MOST_ROUNDS;
use reduce_rounds::refine;
use rule_layout::Shape;
use scratch::BLOCKS_BASE;

// Whether each of the first n elements is alone in its block.
fn each_alone(n: usize, scratch: &[u8]) -> bool
    requires n_bound { n ≤ 64 }
    requires scratch_size_in_bounds { scratch_size ≤ length scratch.now }
    ensures { Tells (EachAlone n scratch.now) result }
{
    for s in 0..n {
        let least = scratch[BLOCKS_BASE + s] as usize;
        if least != s {
            return false;
        }
    }
    true
}

// Whether the bytes reduce the first of two strong rules to the second. The second is the smallest rule exactly if the rounds of its own
// reduction leave each element alone.
pub fn reduces(
    first: &[u8],
    one: Shape,
    second: &[u8],
    two: Shape,
    map: &[u8],
    scratch: &mut [u8],
) -> bool
    requires { StrongFiles first.now second.now one two scratch.old }
    ensures { MapJudged first.now second.now map.now scratch.old scratch.new result }
{
    let first_letters = one.letters;
    let second_letters = two.letters;
    if first_letters != second_letters {
        return false;
    }
    let elements = one.elements;
    if map.len() != elements {
        return false;
    }
    if !maps_onto(first, elements, second, two.elements, first_letters, map) {
        return false;
    }
    refine(second, two.elements, second_letters, MOST_ROUNDS, scratch);
    if !each_alone(two.elements, scratch) {
        return false;
    }
    grades_kept(first, elements, first_letters, map, two.elements, scratch)
}

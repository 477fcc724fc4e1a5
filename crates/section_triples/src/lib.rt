// Entries that are triples of bytes, after a count of two bytes: the marks of a rule file, and the transitions of an automaton file.
#![tactic(auto)]

ghost use Rattle.std.specs.Prelude.{◌+◌, ◌*◌, ◌≤◌, ◌<◌, ◌^◌, length};
ghost use Rattle.section_triples.specs.Ranges.{TriplesFound, TriplesAnswer};

use answer::{Fault, Refusal};
use section_columns::triples_in;

// The first byte of the triples that is out of its range: the first of a triple is below `first`, the second below `second`, and the
// third below `third` and no less than `least`. The search begins behind the triples that are known to be in range.
fn first_out(
    rest: &[u8],
    count: usize,
    first: usize,
    second: usize,
    third: usize,
    least: usize,
) -> Option<usize>
    requires { 2 + 3 * count ≤ length rest.now }
    ensures { TriplesFound rest.now count first second third least result }
{
    let known = triples_in(rest, count, first, second, third, least);
    // By index: the answer is counted from it.
    for i in known..count {
        let start = 3 * i;
        if first <= rest[2 + start] as usize {
            return Some(start);
        }
        if second <= rest[2 + (start + 1)] as usize {
            return Some(start + 1);
        }
        let last = rest[2 + (start + 2)] as usize;
        if third <= last {
            return Some(start + 2);
        }
        if last < least {
            return Some(start + 2);
        }
    }
    None
}

// The triples after their count: all there, and each byte in its range. Answers the count where they are.
pub fn triples(
    rest: &[u8],
    at: usize,
    count: usize,
    first: usize,
    second: usize,
    third: usize,
    least: usize,
) -> Result<usize, Fault>
    requires rest_bound { at + length rest.now < 2 ^ 64 }
    requires count_bound { count ≤ 4096 }
    ensures { TriplesAnswer at rest.now count first second third least result }
{
    if rest.len() < 2 + 3 * count {
        return Err(Fault {
            refusal: Refusal::Truncated,
            place: at + rest.len(),
        });
    }
    match first_out(rest, count, first, second, third, least) {
        Some(i) => Err(Fault {
            refusal: Refusal::EntryOutOfRange,
            place: at + (2 + i),
        }),
        None => Ok(count),
    }
}

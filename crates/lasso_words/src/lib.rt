// The words of a call: their lengths, then their letters.
#![tactic(auto)]

ghost use Rattle.lasso_words.specs.Answers.{LassoAnswer};

use answer::{Refusal, Refused};
use formats::LONGEST_WORD;
use section_bounds::first_out;

// Both lengths, of u and then of v, and then the letters of u and of v. Only u may be empty.
pub fn lasso_fault(u: &[u8], v: &[u8], k: usize) -> Result<(), Refused>
    ensures { LassoAnswer k u.now v.now result }
{
    if LONGEST_WORD < u.len() {
        return Err(Refused {
            refusal: Refusal::WordLength,
            input: 1,
            place: 0,
        });
    }
    if v.len() < 1 {
        return Err(Refused {
            refusal: Refusal::WordLength,
            input: 2,
            place: 0,
        });
    }
    if LONGEST_WORD < v.len() {
        return Err(Refused {
            refusal: Refusal::WordLength,
            input: 2,
            place: 0,
        });
    }
    match first_out(u, 0, u.len(), k) {
        Some(i) => {
            return Err(Refused {
                refusal: Refusal::UnknownLetter,
                input: 1,
                place: i,
            });
        }
        None => {}
    }
    match first_out(v, 0, v.len(), k) {
        Some(i) => Err(Refused {
            refusal: Refusal::UnknownLetter,
            input: 2,
            place: i,
        }),
        None => Ok(()),
    }
}

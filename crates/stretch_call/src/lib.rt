// The part of a lasso's word that is left to read at a position (document 01: stretch).
#![tactic(auto)]

ghost use Rattle.std.specs.Prelude.{◌≡◌};
ghost use Rattle.promises.specs.Stretch.{stretch_of, stretch_place, lasso_fits, stretch_numbers};

use formats::LONGEST_WORD;
use promises::StretchPlace;

// What is left of u, or of the turn of v that the position lies in: a part of the word itself, which `place` tells. With an empty u every
// part is one of v. Words that are no words of a call have nothing left, and the answer is the empty part of u.
pub fn stretch<'a>(u: &'a [u8], v: &'a [u8], position: usize) -> &'a [u8]
    ensures result_value { result.now ≡ stretch_of u.now v.now position }
    ensures place { result.ref_ptr ≡ stretch_place u.entry.ref_ptr v.entry.ref_ptr u.now v.now position }
{
    if LONGEST_WORD < u.len() {
        return &u[..0];
    }
    if v.len() < 1 {
        return &u[..0];
    }
    if LONGEST_WORD < v.len() {
        return &u[..0]; // not v's
    }
    if position < u.len() {
        return &u[position..];
    }
    let at = (position - u.len()) % v.len();
    &v[at..]
}

// Whether both words have lengths that a call takes.
fn lengths_fit(start: &[u8], cycle: &[u8]) -> bool
    ensures { result ≡ lasso_fits start.now cycle.now }
{
    if LONGEST_WORD < start.len() {
        return false;
    }
    if cycle.len() < 1 {
        return false;
    }
    cycle.len() <= LONGEST_WORD
}

// The same part in numbers, for callers who have no slices.
pub fn stretch_place(start: &[u8], cycle: &[u8], position: usize) -> StretchPlace
    ensures { result ≡ stretch_numbers start.now cycle.now position }
{
    if !lengths_fit(start, cycle) {
        return StretchPlace {
            word: 1,
            from: 0,
            letters: 0,
        };
    }
    if position < start.len() {
        return StretchPlace {
            word: 1,
            from: position,
            letters: start.len() - position,
        };
    }
    let at = (position - start.len()) % cycle.len();
    StretchPlace {
        word: 2,
        from: at,
        letters: cycle.len() - at,
    }
}

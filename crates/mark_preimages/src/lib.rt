// Which values a letter takes to an element, listed in scratch for every letter. A value is known by its number: an element by
// its own, the empty word's by the size of the table. The list of a letter and an element goes from the last value back to the
// first: byte 57344 + (a * 65 + x) has the last value, and byte 59392 + (a * 65 + c) the value before c. A byte is one more
// than the number, or 0 where the list ends.
#![tactic(auto)]

ghost use Rattle.std.specs.Prelude.{◌≡◌, ◌+◌, ◌<◌};
ghost use Rattle.formats.proofs.Tables.{Table};
ghost use Rattle.formats.specs.Table.{morphism_at};
ghost use Rattle.scratch.specs.Preimages.{after_letter, PreimagesRoom, PreimagesListed};
ghost use Rattle.mark_preimages.specs.Listing.{ValueNeeds, ValueListed, LetterRoom, LetterListed};

use rule_table::{image, product};
use scratch::{FIRST_PREIMAGES_BASE, NEXT_PREIMAGES_BASE};

// The element of the value with number c and then the letter a.
fn after_letter(rule: &[u8], n: usize, k: usize, a: usize, c: usize) -> usize
    requires table { Table rule.now n k }
    requires a_lt_k { a < k }
    ensures { result ≡ after_letter (morphism_at rule.now n k) a c }
{
    let h = image(rule, n, a);
    if c < n {
        return product(rule, n, c, h);
    }
    h
}

// Puts the value c in front of the list of the letter a and the element x.
fn list_value(scratch: &mut [u8], a: usize, c: usize, x: usize)
    requires { ValueNeeds scratch.old a c x }
    ensures { ValueListed scratch.old scratch.new a c x }
{
    scratch[NEXT_PREIMAGES_BASE + (a * 65 + c)] = scratch[FIRST_PREIMAGES_BASE + (a * 65 + x)];
    scratch[FIRST_PREIMAGES_BASE + (a * 65 + x)] = (c + 1) as u8;
}

// The lists of one letter: every value in the order of the numbers.
fn list_letter(rule: &[u8], n: usize, k: usize, scratch: &mut [u8], a: usize)
    requires table { Table rule.now n k }
    requires a_lt_k { a < k }
    requires letter_room { LetterRoom scratch.old a }
    ensures { LetterListed (morphism_at rule.now n k) a (n + 1) scratch.old scratch.new }
{
    // By number: values are the numbers to n.
    for c in 0..n + 1 {
        let x = after_letter(rule, n, k, a, c);
        list_value(scratch, a, c, x);
    }
}

// The lists of every letter.
pub fn list_preimages(rule: &[u8], n: usize, k: usize, scratch: &mut [u8])
    requires table { Table rule.now n k }
    requires preimages_room { PreimagesRoom scratch.old }
    ensures { PreimagesListed (morphism_at rule.now n k) scratch.old scratch.new }
{
    // By number: letters are the numbers below k.
    for a in 0..k {
        list_letter(rule, n, k, scratch, a);
    }
}

// Marks of a second table raised along the moves between linked pairs (`mark_moves`), round after round: once a round raises none, each pair has the
// highest mark of its conjugates.
#![tactic(auto)]

ghost use Rattle.std.specs.Prelude.{◌<◌, false};
ghost use Rattle.theory.specs.Rules.{Lawful, AllReached};
ghost use Rattle.theory.specs.Pairs.{Idempotent};
ghost use Rattle.formats.proofs.Tables.{Table};
ghost use Rattle.formats.specs.Table.{morphism_at};
ghost use Rattle.mark_moves.specs.Agreeing.{MoveTo};
ghost use Rattle.mark_raising.specs.Raising.{Raised, RaiseAnswer, StartSettled, MoveSettled, LetterSettled, LettersSettled, CycleSettled, RoundSettled, RoundsAnswer};

use mark_moves::{first_left, first_way};
use rule_table::{image, product};
use scratch::SECOND_BASE;

// After so many rounds that each raised a mark another way is taken.
const ROUNDS: usize = 8;

// Raises the mark of (s·g, f) to that of (s, e) if it is lower, where a move by g leads from e to f. A pair that is not linked has no mark to raise by.
fn raise_start(
    rule: &[u8],
    n: usize,
    k: usize,
    scratch: &mut [u8],
    e: usize,
    g: usize,
    f: usize,
    s: usize,
    raised: bool,
) -> bool
    requires table { Table rule.now n k }
    requires lawful { Lawful (morphism_at rule.now n k) }
    requires raised { Raised (morphism_at rule.now n k) scratch.old }
    requires move_to { MoveTo (morphism_at rule.now n k) e g f × (s < n) }
    ensures { RaiseAnswer (morphism_at rule.now n k) (λ bytes. StartSettled (morphism_at rule.now n k) e g f bytes s) raised scratch.old scratch.new result }
{
    let t = product(rule, n, s, g);
    let here = scratch[SECOND_BASE + (s * 64 + e)];
    let there = scratch[SECOND_BASE + (t * 64 + f)];
    if here <= there {
        return raised;
    }
    scratch[SECOND_BASE + (t * 64 + f)] = here;
    true
}

// The same for every s.
fn raise_move(
    rule: &[u8],
    n: usize,
    k: usize,
    scratch: &mut [u8],
    e: usize,
    g: usize,
    f: usize,
    raised: bool,
) -> bool
    requires table { Table rule.now n k }
    requires lawful { Lawful (morphism_at rule.now n k) }
    requires raised { Raised (morphism_at rule.now n k) scratch.old }
    requires move_to { MoveTo (morphism_at rule.now n k) e g f }
    ensures { RaiseAnswer (morphism_at rule.now n k) (MoveSettled (morphism_at rule.now n k) e g f) raised scratch.old scratch.new result }
{
    let mut more = raised;
    // By number: elements are the numbers below n.
    for s in 0..n {
        more = raise_start(rule, n, k, scratch, e, g, f, s, more);
    }
    more
}

// Raises marks along the move from e by the element g, if there is one. Where e·g = e it leads from each pair to itself.
fn raise_letter(
    rule: &[u8],
    n: usize,
    k: usize,
    scratch: &mut [u8],
    e: usize,
    g: usize,
    raised: bool,
) -> bool
    requires table { Table rule.now n k }
    requires lawful { Lawful (morphism_at rule.now n k) }
    requires raised { Raised (morphism_at rule.now n k) scratch.old }
    requires idempotent { Idempotent (morphism_at rule.now n k) e × (g < n) }
    ensures { RaiseAnswer (morphism_at rule.now n k) (LetterSettled (morphism_at rule.now n k) e g) raised scratch.old scratch.new result }
{
    let y = product(rule, n, e, g);
    if y == e {
        return raised;
    }
    let Some(z) = first_way(rule, n, k, y, e) else {
        return raised;
    };
    let f = product(rule, n, z, y);
    raise_move(rule, n, k, scratch, e, g, f, raised)
}

// The same for every letter.
fn raise_letters(
    rule: &[u8],
    n: usize,
    k: usize,
    scratch: &mut [u8],
    e: usize,
    raised: bool,
) -> bool
    requires table { Table rule.now n k }
    requires lawful { Lawful (morphism_at rule.now n k) }
    requires raised { Raised (morphism_at rule.now n k) scratch.old }
    requires idempotent { Idempotent (morphism_at rule.now n k) e }
    ensures { RaiseAnswer (morphism_at rule.now n k) (LettersSettled (morphism_at rule.now n k) e) raised scratch.old scratch.new result }
{
    let mut more = raised;
    // By number: letters are the numbers below k.
    for a in 0..k {
        let g = image(rule, n, a);
        more = raise_letter(rule, n, k, scratch, e, g, more);
    }
    more
}

// Raises marks both ways between the pairs with e and those with the first idempotent of its left class; if that is e, along the letters' moves. A move
// within a left class is one by e itself.
fn raise_cycle(rule: &[u8], n: usize, k: usize, scratch: &mut [u8], e: usize, raised: bool) -> bool
    requires table { Table rule.now n k }
    requires lawful { Lawful (morphism_at rule.now n k) }
    requires raised { Raised (morphism_at rule.now n k) scratch.old }
    requires e_lt_n { e < n }
    ensures { RaiseAnswer (morphism_at rule.now n k) (λ bytes. CycleSettled (morphism_at rule.now n k) bytes e) raised scratch.old scratch.new result }
{
    let square = product(rule, n, e, e);
    if square != e {
        return raised;
    }
    let first = first_left(rule, n, k, e);
    if first == e {
        return raise_letters(rule, n, k, scratch, e, raised);
    }
    let more = raise_move(rule, n, k, scratch, e, e, first, raised);
    raise_move(rule, n, k, scratch, first, first, e, more)
}

// A round: whether it raised a mark.
fn raise_round(rule: &[u8], n: usize, k: usize, scratch: &mut [u8]) -> bool
    requires table { Table rule.now n k }
    requires lawful { Lawful (morphism_at rule.now n k) }
    requires raised { Raised (morphism_at rule.now n k) scratch.old }
    ensures { RaiseAnswer (morphism_at rule.now n k) (RoundSettled (morphism_at rule.now n k)) false scratch.old scratch.new result }
{
    let mut more = false;
    // By number: elements are the numbers below n.
    for e in 0..n {
        more = raise_cycle(rule, n, k, scratch, e, more);
    }
    more
}

// Rounds until one raises no mark, or as many as there may be: whether the last raised none.
pub fn raise_along_moves(rule: &[u8], n: usize, k: usize, scratch: &mut [u8]) -> bool
    requires table { Table rule.now n k }
    requires lawful { Lawful (morphism_at rule.now n k) }
    requires all_reached { AllReached (morphism_at rule.now n k) }
    requires raised { Raised (morphism_at rule.now n k) scratch.old }
    ensures { RoundsAnswer (morphism_at rule.now n k) scratch.old scratch.new result }
{
    // By number: counts the rounds.
    for round in 0..ROUNDS {
        let raised = raise_round(rule, n, k, scratch);
        if !raised {
            return true;
        }
    }
    false
}

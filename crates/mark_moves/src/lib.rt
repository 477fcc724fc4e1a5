// Whether a rule's marks are constant along the moves between linked pairs: by a letter's element g from (s, e) to (s·g, z·(e·g)) where (e·g)·z = e,
// and from (s, e) to (s, f) where e·f = e and f·e = f. Pairs are conjugate exactly if such moves lead from one to the other.
#![tactic(auto)]

ghost use Rattle.std.specs.Prelude.{◌<◌, ◌≡◌};
ghost use Rattle.finite.specs.Tells.{Tells};
ghost use Rattle.theory.specs.Rules.{Lawful};
ghost use Rattle.theory.specs.Pairs.{Idempotent};
ghost use Rattle.formats.proofs.Tables.{Table};
ghost use Rattle.formats.specs.Table.{morphism_at};
ghost use Rattle.conjugacy_moves.specs.Moves.{LeftEquivalent};
ghost use Rattle.conjugacy_moves.proofs.FirstMoves.{first_left};
ghost use Rattle.scratch.specs.Map.{marks_from};
ghost use Rattle.mark_moves.specs.Agreeing.{MoveNeeds, AgreeAnswer, FirstWay, ColumnsAgree, MoveTo, StartAgrees, MoveAgrees, LetterAgrees, LettersAgree, CycleAgrees, ConstantAnswer};

use rule_table::{image, product};

// Whether f is an idempotent of e's left class: e·f = e and f·e = f, which make it idempotent.
fn same_left(rule: &[u8], n: usize, k: usize, e: usize, f: usize) -> bool
    requires table { Table rule.now n k }
    requires lawful { Lawful (morphism_at rule.now n k) }
    requires idempotent { Idempotent (morphism_at rule.now n k) e × (f < n) }
    ensures { Tells (LeftEquivalent (morphism_at rule.now n k) f e) result }
{
    let forth = product(rule, n, e, f);
    if forth != e {
        return false;
    }
    let back = product(rule, n, f, e);
    if back != f {
        return false;
    }
    true
}

// The first idempotent of e's left class. The search ends at e, which is one.
pub fn first_left(rule: &[u8], n: usize, k: usize, e: usize) -> usize
    requires table { Table rule.now n k }
    requires lawful { Lawful (morphism_at rule.now n k) }
    requires idempotent { Idempotent (morphism_at rule.now n k) e }
    ensures { result ≡ first_left (morphism_at rule.now n k) e }
{
    // By number: elements are the numbers below n.
    for f in 0..e {
        let same = same_left(rule, n, k, e, f);
        if same {
            return f;
        }
    }
    e
}

// The first z with y·z = e.
pub fn first_way(rule: &[u8], n: usize, k: usize, y: usize, e: usize) -> Option<usize>
    requires table { Table rule.now n k }
    requires y_lt_n { y < n }
    ensures { FirstWay (morphism_at rule.now n k) y e result }
{
    // A loop, for with `find` on the range the contract was not proved.
    for z in 0..n {
        let back = product(rule, n, y, z);
        if back == e {
            return Some(z);
        }
    }
    None
}

// Whether (s, e) and (s, f) have the same mark for every s, where e and f are idempotents of one left class. Where (s, e) is not linked neither is (s, f),
// and both marks are 0.
fn columns_agree(rule: &[u8], n: usize, k: usize, scratch: &[u8], e: usize, f: usize) -> bool
    requires table { Table rule.now n k }
    requires move_needs { MoveNeeds (morphism_at rule.now n k) scratch.now }
    requires left_equivalent { LeftEquivalent (morphism_at rule.now n k) e f }
    ensures { AgreeAnswer (morphism_at rule.now n k) (marks_from scratch.now 0) (ColumnsAgree (morphism_at rule.now n k) (marks_from scratch.now 0) e f) result }
{
    // By the start s, as the contract speaks of it: rows of 64 bytes are no plainer.
    for s in 0..n {
        if scratch[s * 64 + e] != scratch[s * 64 + f] {
            return false;
        }
    }
    true
}

// Whether (s, e) and (s·g, f) have the same mark if (s, e) is linked, where a move by g leads from e to f.
fn start_agrees(
    rule: &[u8],
    n: usize,
    k: usize,
    scratch: &[u8],
    e: usize,
    g: usize,
    f: usize,
    s: usize,
) -> bool
    requires table { Table rule.now n k }
    requires move_needs { MoveNeeds (morphism_at rule.now n k) scratch.now }
    requires move_to { MoveTo (morphism_at rule.now n k) e g f }
    requires s_lt_n { s < n }
    ensures { AgreeAnswer (morphism_at rule.now n k) (marks_from scratch.now 0) (StartAgrees (morphism_at rule.now n k) (marks_from scratch.now 0) e g f s) result }
{
    let kept = product(rule, n, s, e);
    if kept != s {
        return true;
    }
    let t = product(rule, n, s, g);
    if scratch[s * 64 + e] != scratch[t * 64 + f] {
        return false;
    }
    true
}

// The same for every s.
fn move_agrees(
    rule: &[u8],
    n: usize,
    k: usize,
    scratch: &[u8],
    e: usize,
    g: usize,
    f: usize,
) -> bool
    requires table { Table rule.now n k }
    requires move_needs { MoveNeeds (morphism_at rule.now n k) scratch.now }
    requires move_to { MoveTo (morphism_at rule.now n k) e g f }
    ensures { AgreeAnswer (morphism_at rule.now n k) (marks_from scratch.now 0) (MoveAgrees (morphism_at rule.now n k) (marks_from scratch.now 0) e g f) result }
{
    // By number: elements are the numbers below n.
    for s in 0..n {
        let agrees = start_agrees(rule, n, k, scratch, e, g, f, s);
        if !agrees {
            return false;
        }
    }
    true
}

// Whether the marks agree along the move from e by the element g, if there is one. Where e·g = e it leads from each pair to itself.
fn letter_agrees(rule: &[u8], n: usize, k: usize, scratch: &[u8], e: usize, g: usize) -> bool
    requires table { Table rule.now n k }
    requires move_needs { MoveNeeds (morphism_at rule.now n k) scratch.now }
    requires idempotent { Idempotent (morphism_at rule.now n k) e × (g < n) }
    ensures { AgreeAnswer (morphism_at rule.now n k) (marks_from scratch.now 0) (LetterAgrees (morphism_at rule.now n k) (marks_from scratch.now 0) e g) result }
{
    let y = product(rule, n, e, g);
    if y == e {
        return true;
    }
    let Some(z) = first_way(rule, n, k, y, e) else {
        return true;
    };
    let f = product(rule, n, z, y);
    move_agrees(rule, n, k, scratch, e, g, f)
}

// The same for every letter.
fn letters_agree(rule: &[u8], n: usize, k: usize, scratch: &[u8], e: usize) -> bool
    requires table { Table rule.now n k }
    requires move_needs { MoveNeeds (morphism_at rule.now n k) scratch.now }
    requires idempotent { Idempotent (morphism_at rule.now n k) e }
    ensures { AgreeAnswer (morphism_at rule.now n k) (marks_from scratch.now 0) (LettersAgree (morphism_at rule.now n k) (marks_from scratch.now 0) e) result }
{
    // By number: letters are the numbers below k.
    for a in 0..k {
        let g = image(rule, n, a);
        let agrees = letter_agrees(rule, n, k, scratch, e, g);
        if !agrees {
            return false;
        }
    }
    true
}

// Whether the marks of the pairs with e are those of the pairs with the first idempotent of its left class; if that is e, whether they agree along the
// letters' moves.
fn cycle_agrees(rule: &[u8], n: usize, k: usize, scratch: &[u8], e: usize) -> bool
    requires table { Table rule.now n k }
    requires move_needs { MoveNeeds (morphism_at rule.now n k) scratch.now }
    requires e_lt_n { e < n }
    ensures { AgreeAnswer (morphism_at rule.now n k) (marks_from scratch.now 0) (CycleAgrees (morphism_at rule.now n k) (marks_from scratch.now 0) e) result }
{
    let square = product(rule, n, e, e);
    if square != e {
        return true;
    }
    let first = first_left(rule, n, k, e);
    if first != e {
        return columns_agree(rule, n, k, scratch, e, first);
    }
    letters_agree(rule, n, k, scratch, e)
}

// Whether the marks in the first table are constant along the letters' moves and within left classes.
pub fn constant_along_moves(rule: &[u8], n: usize, k: usize, scratch: &[u8]) -> bool
    requires table { Table rule.now n k }
    requires move_needs { MoveNeeds (morphism_at rule.now n k) scratch.now }
    ensures { ConstantAnswer (morphism_at rule.now n k) (marks_from scratch.now 0) result }
{
    // By number: elements are the numbers below n.
    for e in 0..n {
        let agrees = cycle_agrees(rule, n, k, scratch, e);
        if !agrees {
            return false;
        }
    }
    true
}

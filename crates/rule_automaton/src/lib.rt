// The automaton of a rule (document 02, Job 5), for a rule that was checked: the kind of a state, and the states that a letter leads to.
// A state is (s, e), s an element or 64 for none and e idempotent. Nothing is stored: both are read from the product table.
#![tactic(auto)]

ghost use Rattle.std.specs.Prelude.{◌≤◌, ◌≡◌, length};
ghost use Rattle.buchi.specs.RuleAutomaton.{is_state};
ghost use Rattle.formats.specs.Front.{AtFront};
ghost use Rattle.formats.specs.Table.{morphism_at};
ghost use Rattle.promises.specs.Monitor.{value_of};
ghost use Rattle.promises.specs.RuleAutomaton.{successors_of};
ghost use Rattle.formats.proofs.Tables.{Table};
ghost use Rattle.rule_bytes.specs.Writing.{Written};
ghost use Rattle.scratch.specs.Map.{mark_table_size};
ghost use Rattle.rule_automaton.specs.Steps.{leads_at, successor_if_any, LeadsNeeds, SuccessorNeeds, ListNeeds, KindSaid};

use answer::Refusal;
use monitor_state::{join, number_out_of_range};
use promises::StateKind;
use rule_table::{image, product};

// Whether (s, e) is a state.
pub fn is_state(rule: &[u8], n: usize, k: usize, s: usize, e: usize) -> bool
    requires { Table rule.now n k }
    ensures { result ≡ is_state (morphism_at rule.now n k) (value_of s) e }
{
    if number_out_of_range(n, s) {
        return false;
    }
    if n <= e {
        return false;
    }
    let square = product(rule, n, e, e);
    square == e
}

// The kind of a state for a least grade, by the table of marks, after the checks of both.
pub fn kind_of(
    rule: &[u8],
    n: usize,
    k: usize,
    s: usize,
    e: usize,
    least: u8,
    marks: &[u8],
) -> StateKind
    requires table { Table rule.now n k }
    requires mark_table_size_in_bounds { mark_table_size ≤ length marks.now }
    ensures { KindSaid (morphism_at rule.now n k) s e least marks.now result }
{
    if least < 1 {
        return StateKind::Refused {
            refusal: Refusal::EntryOutOfRange,
            input: 1,
            place: 0,
        };
    }
    if 3 < least {
        return StateKind::Refused {
            refusal: Refusal::EntryOutOfRange,
            input: 1,
            place: 0,
        };
    }
    let found = is_state(rule, n, k, s, e);
    if !found {
        return StateKind::Refused {
            refusal: Refusal::NoSuchState,
            input: 1,
            place: 0,
        };
    }
    if s == 64 {
        return StateKind::Final;
    }
    let grade = marks[s * 64 + e];
    if least <= grade {
        return StateKind::Initial;
    }
    StateKind::Plain
}

// Whether a letter of element h leads from s to t, where `turned` is s times e: h times t is s, or s times e.
fn leads(rule: &[u8], n: usize, k: usize, s: usize, turned: usize, h: usize, t: usize) -> bool
    requires { LeadsNeeds rule.now n k h t }
    ensures { result ≡ leads_at rule.now n k s turned h t }
{
    let read = join(rule, n, k, h, t);
    if read == s {
        return true;
    }
    read == turned
}

// Writes t at a place if the letter leads there, and answers the place after it.
fn write_successor(
    rule: &[u8],
    n: usize,
    k: usize,
    s: usize,
    turned: usize,
    h: usize,
    t: usize,
    out: &mut [u8],
    at: usize,
) -> usize
    requires { SuccessorNeeds rule.now n k h t out.old at }
    ensures { Written out.old at (successor_if_any rule.now n k s turned h t) out.new result }
{
    if leads(rule, n, k, s, turned, h, t) {
        out[at] = t as u8;
        return at + 1;
    }
    at
}

// Writes the states that the letter a leads to from the state (s, e) to the front of out, elements first and 64 last, and answers how many.
pub fn list_successors(
    rule: &[u8],
    n: usize,
    k: usize,
    s: usize,
    e: usize,
    a: usize,
    out: &mut [u8],
) -> usize
    requires { ListNeeds rule.now n k s e a out.old }
    ensures { AtFront (successors_of (morphism_at rule.now n k) s e a) out.old out.new result }
{
    let h = image(rule, n, a);
    let turned = join(rule, n, k, s, e);
    let mut next = 0;
    // By number: elements are the numbers below n.
    for t in 0..n {
        next = write_successor(rule, n, k, s, turned, h, t, out, next);
    }
    write_successor(rule, n, k, s, turned, h, 64, out, next)
}

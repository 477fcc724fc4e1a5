// Two rule files in one scratch: checked beside each other, and whether both are strong, over as many letters.
#![tactic(auto)]

ghost use Rattle.std.specs.Prelude.{◌≤◌, length};
ghost use Rattle.formats.proofs.Tables.{Table};
ghost use Rattle.formats.specs.Table.{morphism_at};
ghost use Rattle.formats.specs.RuleChecks.{scratch_size};
ghost use Rattle.scratch.specs.Map.{search_end, mark_table_size};
ghost use Rattle.mark_strong.specs.Deciding.{DecideNeeds};
ghost use Rattle.two_rules.specs.Checking.{SecondVerdict, BothPromise};
ghost use Rattle.two_rules.specs.Deciding.{TablesMoved, BothDecided};
ghost use Rattle.two_rules.specs.Comparing.{BothChecked, BothCompared};

use answer::{Refusal, Refused};
use mark_strong::decide;
use rule_check::{check, check_rule};
use rule_layout::Shape;
use scratch::{MARK_TABLE_SIZE, SEARCH_END, SECOND_BASE};
use sections::zero;

// The second file's checks. Its marks go behind the bytes that a search uses.
fn check_second(second: &[u8], scratch: &mut [u8]) -> Result<Shape, Refused>
    requires { scratch_size ≤ length scratch.old }
    ensures { SecondVerdict second.now scratch.old scratch.new result }
{
    check_rule(second, 2, &mut scratch[SEARCH_END..])
}

// The size of scratch, the checks of the first file, then those of the second. Rules that pass leave their marks, the first's in front and
// the second's from 61440 on; a refusal leaves zeros, but where scratch is too short.
pub fn check_both(
    first: &[u8],
    second: &[u8],
    scratch: &mut [u8],
) -> Result<(Shape, Shape), Refused>
    ensures { BothPromise first.now second.now scratch.old scratch.new result }
{
    let shape = check(first, 1, scratch)?;
    match check_second(second, scratch) {
        Ok(other) => Ok((shape, other)),
        Err(refused) => {
            zero(scratch);
            Err(refused)
        }
    }
}

// Moves the second's marks to the front, and the first's closure to where they stood.
fn move_tables(scratch: &mut [u8])
    requires { scratch_size ≤ length scratch.old }
    ensures { TablesMoved mark_table_size scratch.old scratch.new }
{
    for i in 0..MARK_TABLE_SIZE {
        let mark = scratch[SEARCH_END + i];
        let closure = scratch[SECOND_BASE + i];
        scratch[i] = mark;
        scratch[SEARCH_END + i] = closure;
    }
}

// Whether two rules are strong, or which is the first that is not.
#[derive(Drop)]
pub enum Strengths {
    Strong,
    FirstWeak,
    SecondWeak,
}

// Decides the strength of the first rule from the marks in front, then that of the second from the marks at 61440. Two strong rules leave
// the closures of their marks, the first's at 61440 and the second's at 4096.
pub fn decide_both(
    first: &[u8],
    n1: usize,
    k1: usize,
    second: &[u8],
    n2: usize,
    k2: usize,
    scratch: &mut [u8],
) -> Strengths
    requires table { Table first.now n1 k1 }
    requires table_2 { Table second.now n2 k2 }
    requires decide_needs { DecideNeeds (morphism_at first.now n1 k1) 0 scratch.old }
    requires decide_needs_2 { DecideNeeds (morphism_at second.now n2 k2) search_end scratch.old }
    ensures { BothDecided (morphism_at first.now n1 k1) (morphism_at second.now n2 k2) scratch.old scratch.new result }
{
    if !decide(first, n1, k1, scratch) {
        return Strengths::FirstWeak;
    }
    move_tables(scratch);
    if !decide(second, n2, k2, scratch) {
        return Strengths::SecondWeak;
    }
    Strengths::Strong
}

// The checks of two checked files behind their own, in their order: the letter counts are compared, then both strengths are decided.
pub fn compare_both(
    first: &[u8],
    one: Shape,
    second: &[u8],
    two: Shape,
    scratch: &mut [u8],
) -> Result<(), Refused>
    requires { BothChecked first.now second.now one two scratch.old }
    ensures { BothCompared first.now second.now one two scratch.old scratch.new result }
{
    let first_letters = one.letters;
    let second_letters = two.letters;
    if first_letters != second_letters {
        return Err(Refused {
            refusal: Refusal::LettersDiffer,
            input: 1,
            place: 0,
        });
    }
    match decide_both(
        first,
        one.elements,
        first_letters,
        second,
        two.elements,
        second_letters,
        scratch,
    ) {
        Strengths::FirstWeak => Err(Refused {
            refusal: Refusal::NotStrong,
            input: 1,
            place: 0,
        }),
        Strengths::SecondWeak => Err(Refused {
            refusal: Refusal::NotStrong,
            input: 2,
            place: 0,
        }),
        Strengths::Strong => Ok(()),
    }
}

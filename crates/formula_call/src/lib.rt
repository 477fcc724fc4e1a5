// The smallest rule of a whole formula in one call. It stands above the library, as the board does, and sees only its public calls and the formula's
// promises.
#![tactic(auto)]

ghost use Rattle.std.specs.Prelude.{◌≤◌, length};
ghost use Rattle.formats.specs.RuleChecks.{rule_size};
ghost use Rattle.formats.specs.Front.{AtFront};
ghost use Rattle.board_promises.specs.Boards.{file_at};
ghost use Rattle.formula_promises.specs.Checks.{stack_size};
ghost use Rattle.formula_promises.specs.FormulaRule.{FormulaPromise};
ghost use Rattle.formula_slots.specs.Slots.{LentRoom, LentLengths};
ghost use Rattle.formula_call.specs.Calling.{LentAnswer, LentCleared, FormulaTried, Told};

use answer::Fault;
use board_buffers::{clear, put};
pub use formula_promises::{LONGEST_FORMULA, STACK_SIZE};
use formula_run::run_operations;
use formula_scan::scan;
use formula_slots::rule_in;
use rules::{RULE_SIZE, Refusal, SCRATCH_SIZE, UNTIL_CLASSES_SIZE, Written};

// Whether a lent buffer is too short, by the lengths of all.
fn lent_short(out: usize, stack: usize, spare: usize, classes: usize, scratch: usize) -> bool
    ensures { LentAnswer out stack spare classes scratch result }
{
    if out < RULE_SIZE {
        return true;
    }
    if stack < STACK_SIZE {
        return true;
    }
    if spare < RULE_SIZE {
        return true;
    }
    if classes < UNTIL_CLASSES_SIZE {
        return true;
    }
    if scratch < SCRATCH_SIZE {
        return true;
    }
    false
}

// Zeros in all that is lent but `out`.
fn clear_lent(stack: &mut [u8], spare: &mut [u8], classes: &mut [u8], scratch: &mut [u8])
    ensures { LentCleared stack.old stack.new spare.old spare.new classes.old classes.new scratch.old scratch.new }
{
    clear(stack);
    clear(spare);
    clear(classes);
    clear(scratch);
}

// The pass over the bytes, and then the operations: the formula's rule stands in the first slot, or nothing is told of the stack.
fn try_formula(
    letters: usize,
    formula: &[u8],
    stack: &mut [u8],
    spare: &mut [u8],
    classes: &mut [u8],
    scratch: &mut [u8],
) -> Result<(), Fault>
    requires { LentRoom stack.old spare.old classes.old scratch.old }
    ensures tried { FormulaTried letters formula.now stack.new result }
    ensures lengths { LentLengths stack.old stack.new spare.old spare.new classes.old classes.new scratch.old scratch.new }
{
    scan(letters, formula)?;
    run_operations(letters, formula, stack, spare, classes, scratch)
}

// Copies the rule of the first slot to the front of `out`.
fn copy_out(stack: &[u8], out: &mut [u8]) -> usize
    requires stack_size_in_bounds { stack_size ≤ length stack.now }
    requires rule_size_in_bounds { rule_size ≤ length out.old }
    ensures { AtFront (file_at stack.now 0) out.old out.new result }
{
    let file = rule_in(stack, 0);
    put(file, out, 0);
    file.len()
}

// What is told of a formula that was tried; `out` is written only where nothing can be refused any more.
fn told(ran: Result<(), Fault>, stack: &[u8], out: &mut [u8]) -> Written
    requires stack_size_in_bounds { stack_size ≤ length stack.now }
    requires rule_size_in_bounds { rule_size ≤ length out.old }
    ensures { Told ran stack.now out.old out.new result }
{
    match ran {
        Ok(()) => Written::Rule(copy_out(stack, out)),
        Err(fault) => Written::Refused {
            refusal: fault.refusal,
            input: 1,
            place: fault.place,
        },
    }
}

// Writes the smallest rule with the grades of a formula in postfix form, or refuses it.
pub fn formula_rule(
    letters: usize,
    formula: &[u8],
    out: &mut [u8],
    stack: &mut [u8],
    spare: &mut [u8],
    classes: &mut [u8],
    scratch: &mut [u8],
) -> Written
    ensures { FormulaPromise letters formula.now out.old out.new stack.old stack.new spare.old spare.new classes.old classes.new scratch.old scratch.new result }
{
    if lent_short(
        out.len(),
        stack.len(),
        spare.len(),
        classes.len(),
        scratch.len(),
    ) {
        return Written::Refused {
            refusal: Refusal::BufferTooShort,
            input: 1,
            place: 0,
        };
    }
    let ran = try_formula(letters, formula, stack, spare, classes, scratch);
    let answer = told(ran, stack, out);
    clear_lent(stack, spare, classes, scratch);
    answer
}

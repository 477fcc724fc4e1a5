// The operations of a formula carried out one after the other, on its stack of rules. It stands above the library and sees only its public calls and the
// formula's promises.
#![tactic(auto)]

ghost use Rattle.answer.specs.Checks.{passed, FirstFailure};
ghost use Rattle.formula_promises.specs.Checks.{scan_checks};
ghost use Rattle.formula_slots.specs.Slots.{LentRoom, LentLengths};
ghost use Rattle.formula_run.specs.Running.{FormulaRan};

use answer::Fault;
use formula_operations::apply;
use formula_reading::read;

// Carries out every operation of a formula that the pass over its bytes let through.
pub fn run_operations(
    letters: usize,
    formula: &[u8],
    stack: &mut [u8],
    spare: &mut [u8],
    classes: &mut [u8],
    scratch: &mut [u8],
) -> Result<(), Fault>
    requires first_failure { FirstFailure (scan_checks letters formula.now) passed }
    requires lent_room { LentRoom stack.old spare.old classes.old scratch.old }
    ensures ran { FormulaRan letters formula.now stack.new result }
    ensures lengths { LentLengths stack.old stack.new spare.old spare.new classes.old classes.new scratch.old scratch.new }
{
    let mut at = 0;
    let mut height = 0;
    while at < formula.len() {
        let operation = read(formula, at).operation;
        if let Err(refusal) = apply(letters, operation, height, stack, spare, classes, scratch) {
            return Err(Fault { refusal, place: at });
        }
        at += operation.size();
        height = operation.height_after(height);
    }
    Ok(())
}

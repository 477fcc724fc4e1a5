// The pass over the bytes of a formula, operation by operation, before any rule is made. It stands above the library and sees only the formula's promises.
#![tactic(auto)]

ghost use Rattle.std.specs.Prelude.{suc, ◌≤◌, ◌<◌, length};
ghost use Rattle.answer.specs.Checks.{FirstFailure};
ghost use Rattle.formula_promises.specs.Checks.{longest_formula, program_checks, scan_checks};
ghost use Rattle.formula_scan.specs.Scanning.{ForeignAnswer, scanned_verdict, OperationChecked};

use answer::{Fault, Refusal};
use formula_promises::LONGEST_FORMULA;
use formula_reading::read;

// Where an operation that passes leads: the byte behind it, and the rules on the stack then.
#[derive(Drop)]
struct Reached {
    at: usize,
    height: usize,
}

// Whether a set has a letter that is not below `letters`.
fn foreign(letters: usize, set: usize) -> bool
    ensures { ForeignAnswer letters set result }
{
    for a in letters..64 {
        if (set >> a) % 2 == 1 {
            return true;
        }
    }
    false
}

// The checks of the operation at a byte, where so many rules stand on the stack.
fn check(letters: usize, formula: &[u8], at: usize, height: usize) -> Result<Reached, Fault>
    requires { (at < length formula.now) × (length formula.now ≤ longest_formula) × (height ≤ 8) }
    ensures { OperationChecked letters formula.now at height result }
{
    let reading = read(formula, at);
    let code = reading.code;
    if 12 < code {
        return Err(Fault {
            refusal: Refusal::EntryOutOfRange,
            place: at,
        });
    }
    let operation = reading.operation;
    let behind = at + operation.size();
    if formula.len() < behind {
        return Err(Fault {
            refusal: Refusal::Truncated,
            place: formula.len(),
        });
    }
    let grade = operation.grade();
    if 3 < grade {
        return Err(Fault {
            refusal: Refusal::EntryOutOfRange,
            place: at + 1,
        });
    }
    if foreign(letters, operation.set()) {
        return Err(Fault {
            refusal: Refusal::UnknownLetter,
            place: at + 2,
        });
    }
    let asked = operation.asks();
    if height < asked {
        return Err(Fault {
            refusal: Refusal::UnbalancedFormula,
            place: at,
        });
    }
    let left = operation.height_after(height);
    if 8 < left {
        return Err(Fault {
            refusal: Refusal::UnbalancedFormula,
            place: at,
        });
    }
    Ok(Reached {
        at: behind,
        height: left,
    })
}

// All operations, the first before the others; at the end exactly one rule is there.
fn scan_operations(letters: usize, formula: &[u8]) -> Result<(), Fault>
    requires { length formula.now ≤ longest_formula }
    ensures { FirstFailure (program_checks (suc (length formula.now)) letters formula.now 0 0) (scanned_verdict result) }
{
    let mut at = 0;
    let mut height = 0;
    while at < formula.len() {
        let reached = check(letters, formula, at, height)?;
        at = reached.at;
        height = reached.height;
    }
    if height == 1 {
        return Ok(());
    }
    Err(Fault {
        refusal: Refusal::UnbalancedFormula,
        place: formula.len(),
    })
}

// The letters, the length, and then the operations.
pub fn scan(letters: usize, formula: &[u8]) -> Result<(), Fault>
    ensures { FirstFailure (scan_checks letters formula.now) (scanned_verdict result) }
{
    if letters < 1 {
        return Err(Fault {
            refusal: Refusal::CountOutOfRange,
            place: 0,
        });
    }
    if 16 < letters {
        return Err(Fault {
            refusal: Refusal::CountOutOfRange,
            place: 0,
        });
    }
    if LONGEST_FORMULA < formula.len() {
        return Err(Fault {
            refusal: Refusal::WordLength,
            place: 0,
        });
    }
    scan_operations(letters, formula)
}

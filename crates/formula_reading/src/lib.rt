// The operation at a byte of a formula, with its code and its operands. It stands above the library and sees only the formula's promises.
#![tactic(auto)]

ghost use Rattle.std.specs.Prelude.{◌≡◌, ◌≤◌, get_or};
ghost use Rattle.formula_promises.specs.Operations.{set_at};
ghost use Rattle.formula_reading.specs.Readings.{ReadingAt};

use formula_promises::{One, Operation, Two};

// The code at a byte, the byte behind it and the number behind that, and the operation that they are.
#[derive(Clone, Copy)]
pub struct Reading {
    pub code: u8,
    pub operand: u8,
    pub number: u16,
    pub operation: Operation,
}

// A byte of a formula, and 0 behind its end.
fn byte(formula: &[u8], at: usize) -> u8
    ensures { result ≡ get_or formula.now at 0 }
{
    formula.get(at).copied().unwrap_or(0)
}

// The number behind the operand at a byte, low byte first.
fn number_at(formula: &[u8], at: usize) -> u16
    requires { at ≤ 65535 }
    ensures { result ≡ set_at formula.now at }
{
    u16::from(byte(formula, at + 2)) + 256 * u16::from(byte(formula, at + 3))
}

// The operation at a byte. A code above 12, which is no operation's, is read as a copy, so that every byte has its answer.
pub fn read(formula: &[u8], at: usize) -> Reading
    requires { at ≤ 65535 }
    ensures { ReadingAt formula.now at result }
{
    let code = byte(formula, at);
    let operand = byte(formula, at + 1);
    let number = number_at(formula, at);
    let operation = match code {
        0 => Operation::Set {
            set: number,
            grade: operand,
        },
        1 => Operation::Constant { grade: operand },
        2 => Operation::OnOne(One::Not),
        3 => Operation::OnTwo(Two::Both),
        4 => Operation::OnTwo(Two::Either),
        5 => Operation::OnTwo(Two::Without),
        6 => Operation::OnOne(One::Next),
        7 => Operation::OnTwo(Two::Until),
        8 => Operation::OnOne(One::Eventually),
        9 => Operation::OnOne(One::Always),
        10 => Operation::OnTwo(Two::Release),
        11 => Operation::OnTwo(Two::WeakUntil),
        _ => Operation::Copy { below: operand },
    };
    Reading {
        code,
        operand,
        number,
        operation,
    }
}

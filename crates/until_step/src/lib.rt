// The class for `until` of an entry's word with a letter behind it, worked out in scratch: what the entry's clamps make of the grades at each context, which
// is the same for every letter, and then the rows of it to which the letter leads the contexts.
//
// From byte 32768 on stand the grades of both rules at each context (t, z), as a clamp in a byte, at t * 64 + z; from byte 40960 on what the entry makes of
// them, and from byte 36864 on the class. The classes themselves stand in a buffer of their own, 4096 bytes each, laid out alike.
#![tactic(auto)]

ghost use Rattle.std.specs.Prelude.{◌≡◌, ◌+◌, ◌*◌, ◌<◌};
ghost use Rattle.scratch.specs.Map.{until_class_base, until_step_base};
ghost use Rattle.scratch.specs.Rows.{RowFilled, RowsFilled};
ghost use Rattle.until_step.specs.Bytes.{entry_byte, stepped_byte, step_at, letter_byte, pair_behind, StepNeeds, RowNeeds, LetterNeeds, PairNeeds};

use scratch::{
    LAID_PRODUCTS_BASE, UNTIL_CLASS_BASE, UNTIL_GRADES_BASE, UNTIL_PAIRS_BASE, UNTIL_STEP_BASE,
};
use until_clamps::clamp_over;

// The clamp of an entry at a context: of the empty word it lets every grade through.
fn entry_byte(classes: &[u8], scratch: &[u8], np: usize, from: usize, s: usize, z: usize) -> u8
    requires step_needs { StepNeeds np from scratch.now classes.now }
    requires s_lt_np { (s < np) × (z < np) }
    ensures { result ≡ entry_byte classes.now from s z }
{
    if from == 0 {
        return 12;
    }
    classes[(from - 1) * 4096 + (s * 64 + z)]
}

// What the entry makes of the grades at the contexts (s, z).
fn step_row(classes: &[u8], scratch: &mut [u8], np: usize, from: usize, s: usize)
    requires step_needs { StepNeeds np from scratch.old classes.now }
    requires s_lt_np { s < np }
    ensures { RowFilled (λ z byte. byte ≡ stepped_byte classes.now scratch.old from s z) (until_step_base + s * 64) np scratch.old scratch.new }
{
    // By index: each byte is worked out from the slice that it is written to.
    for z in 0..np {
        let clamp = entry_byte(classes, scratch, np, from, s, z);
        let grades = scratch[UNTIL_GRADES_BASE + (s * 64 + z)];
        let made = clamp_over(clamp, grades);
        scratch[UNTIL_STEP_BASE + (s * 64 + z)] = made;
    }
}

// And at every context.
pub fn step_rows(classes: &[u8], scratch: &mut [u8], np: usize, from: usize)
    requires { StepNeeds np from scratch.old classes.now }
    ensures { RowsFilled (λ s z byte. byte ≡ stepped_byte classes.now scratch.old from s z) until_step_base 64 np np scratch.old scratch.new }
{
    // By number: elements are the numbers below np.
    for s in 0..np {
        step_row(classes, scratch, np, from, s);
    }
}

// The clamps of the class at the contexts (t, z), which the letter leads to the contexts (row, z).
fn class_row(scratch: &mut [u8], np: usize, row: usize, t: usize)
    requires { RowNeeds np row t scratch.old }
    ensures { RowFilled (λ z byte. byte ≡ step_at scratch.old row z) (until_class_base + t * 64) np scratch.old scratch.new }
{
    let made = UNTIL_STEP_BASE + row * 64;
    scratch.copy_within(made..made + np, UNTIL_CLASS_BASE + t * 64);
}

// And at every context.
pub fn class_rows(scratch: &mut [u8], np: usize, element: usize)
    requires { LetterNeeds np element scratch.old }
    ensures { RowsFilled (λ t z byte. byte ≡ letter_byte scratch.old np element t z) until_class_base 64 np np scratch.old scratch.new }
{
    // By number: elements are the numbers below np.
    for t in 0..np {
        let row = scratch[LAID_PRODUCTS_BASE + (element * np + t)] as usize;
        class_row(scratch, np, row, t);
    }
}

// The pair of the entry's word with the letter behind it.
pub fn pair_behind(scratch: &[u8], np: usize, from: usize, element: usize) -> usize
    requires { PairNeeds np from element scratch.now }
    ensures { result ≡ pair_behind scratch.now np from element }
{
    if from == 0 {
        return element;
    }
    let pair = scratch[UNTIL_PAIRS_BASE + (from - 1)] as usize;
    scratch[LAID_PRODUCTS_BASE + (pair * np + element)] as usize
}

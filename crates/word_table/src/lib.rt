// The table of the classes of words that word_steps recorded: the number of each product, laid out in scratch as specs/Laying says.
//
// No class is looked at. A class that a letter makes of an entry p is found along that step: x · (p · g) is (x · p) · g.
#![tactic(auto)]

ghost use Rattle.std.specs.Prelude.{◌+◌, ◌*◌, ◌<◌};
ghost use Rattle.word_table.specs.Laying.{TableNeeds, RowLaid, AlongWord};
ghost use Rattle.scratch.specs.Map.{laid_products_base};
ghost use Rattle.scratch.specs.Rows.{RowFilled, RowsFilled};

use scratch::{LAID_PRODUCTS_BASE, STEP_LETTERS_BASE, STEP_PARENTS_BASE, STEPS_BASE};

// The number of the product of classes i and j, where those of i with the classes before j are laid out.
fn product_number(scratch: &[u8], count: usize, i: usize, j: usize) -> u8
    requires table_needs { TableNeeds scratch.now count }
    requires i_lt_count { (i < count) × (j < count) }
    requires row_laid { RowLaid count scratch.now i j }
    ensures { AlongWord count scratch.now i j result }
{
    let parent = scratch[STEP_PARENTS_BASE + j] as usize;
    let letter = scratch[STEP_LETTERS_BASE + j] as usize;
    if parent == 0 {
        return scratch[STEPS_BASE + ((i + 1) * 16 + letter)];
    }
    let before = scratch[LAID_PRODUCTS_BASE + i * count + (parent - 1)] as usize;
    scratch[STEPS_BASE + ((before + 1) * 16 + letter)]
}

// The products that begin with i.
fn lay_products_of(scratch: &mut [u8], count: usize, i: usize)
    requires table_needs { TableNeeds scratch.old count }
    requires i_lt_count { i < count }
    ensures { RowFilled (AlongWord count scratch.old i) (laid_products_base + i * count) count scratch.old scratch.new }
{
    let base = LAID_PRODUCTS_BASE + i * count;
    // By index: each byte is worked out from the slice that it is written to.
    for j in 0..count {
        let number = product_number(scratch, count, i, j);
        scratch[base + j] = number;
    }
}

// All products.
pub fn lay_products(scratch: &mut [u8], count: usize)
    requires { TableNeeds scratch.old count }
    ensures { RowsFilled (AlongWord count scratch.old) laid_products_base count count count scratch.old scratch.new }
{
    for i in 0..count {
        lay_products_of(scratch, count, i);
    }
}

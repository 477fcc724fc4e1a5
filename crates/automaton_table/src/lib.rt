// The table of an automaton's matrices: the number of each product in their list, laid out in scratch as specs/Laying says.
//
// No matrix is multiplied. A matrix that a letter makes of an entry p is found along that step: x · (p · g) is (x · p) · g. From byte
// 14336 on stands the entry from which each matrix was found, from byte 15360 on the letter by which, and from byte 12288 on where each
// letter leads from each entry, as automaton_matrix_search recorded them.
#![tactic(auto)]

ghost use Rattle.std.specs.Prelude.{ℕ, ◌+◌, ◌*◌, ◌<◌, List};
ghost use Rattle.automaton_table.specs.Laying.{StepNeeds, StepList, RowLaid, TableNumber, ProductNumber};
ghost use Rattle.scratch.specs.Map.{laid_products_base};
ghost use Rattle.scratch.specs.Rows.{RowFilled, RowsFilled};

use scratch::{LAID_PRODUCTS_BASE, STEP_LETTERS_BASE, STEP_PARENTS_BASE, STEPS_BASE};

// The number of the product of matrices i and j, where those of i with the matrices before j are laid out.
pub fn product_number(scratch: &[u8], count: usize, i: usize, j: usize) -> u8
    requires step_needs { StepNeeds scratch.now count }
    requires i_lt_count { (i < count) × (j < count) }
    requires row_laid { RowLaid count scratch.now i j }
    ensures { TableNumber count scratch.now i j result }
{
    let parent = scratch[STEP_PARENTS_BASE + j] as usize;
    let letter = scratch[STEP_LETTERS_BASE + j] as usize;
    if parent == 0 {
        return scratch[STEPS_BASE + ((i + 1) * 16 + letter)];
    }
    let before = scratch[LAID_PRODUCTS_BASE + i * count + (parent - 1)] as usize;
    scratch[STEPS_BASE + ((before + 1) * 16 + letter)]
}

// The products that begin with i.
pub fn lay_products_of(scratch: &mut [u8], count: usize, i: usize)
    requires step_needs { StepNeeds scratch.old count }
    requires i_lt_count { i < count }
    ensures { RowFilled (TableNumber count scratch.old i) (laid_products_base + i * count) count scratch.old scratch.new }
{
    let base = LAID_PRODUCTS_BASE + i * count;
    // By index: each byte is worked out from the slice that it is written to.
    for j in 0..count {
        let number = product_number(scratch, count, i, j);
        scratch[base + j] = number;
    }
}

// All products.
pub fn lay_products(scratch: &mut [u8], count: usize)
    requires { StepNeeds scratch.old count }
    ensures { (kinds : List ℕ) (n : ℕ) → StepList kinds n scratch.old count → RowsFilled (ProductNumber n count scratch.old) laid_products_base count count count scratch.old scratch.new }
{
    for i in 0..count {
        lay_products_of(scratch, count, i);
    }
}

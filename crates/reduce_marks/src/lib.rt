// The rule of the blocks, its marks: every linked pair of blocks has its leaders' outcome. All stands in one lent slice, as
// reduce_table/specs/Layout says.
#![tactic(auto)]

ghost use Rattle.std.specs.Prelude.{◌≡◌, ◌+◌, ◌*◌, ◌<◌};
ghost use Rattle.reduce_table.specs.Layout.{BlocksNeeds, laid_product, block_outcome, block_mark, Filled, Grid};
ghost use Rattle.scratch.specs.Map.{laid_marks_base};

use scratch::{LAID_MARKS_BASE, LAID_PRODUCTS_BASE, LEADERS_BASE, OUTCOMES_BASE};

// The product of two blocks, read.
pub fn laid_product(c: usize, scratch: &[u8], i: usize, j: usize) -> usize
    requires blocks_needs { BlocksNeeds 64 c scratch.now }
    requires i_lt_c { (i < c) × (j < c) }
    ensures { result ≡ laid_product c scratch.now i j }
{
    scratch[LAID_PRODUCTS_BASE + (i * c + j)] as usize
}

// The outcome of two blocks: that of their leaders.
pub fn block_outcome(c: usize, scratch: &[u8], i: usize, j: usize) -> u8
    requires blocks_needs { BlocksNeeds 64 c scratch.now }
    requires i_lt_c { (i < c) × (j < c) }
    ensures { result ≡ block_outcome scratch.now i j }
{
    let a = scratch[LEADERS_BASE + i] as usize;
    let b = scratch[LEADERS_BASE + j] as usize;
    scratch[OUTCOMES_BASE + (a * 64 + b)]
}

// The outcome of the pair of blocks where it is linked, else 0.
pub fn mark_byte(c: usize, scratch: &[u8], i: usize, j: usize) -> u8
    requires blocks_needs { BlocksNeeds 64 c scratch.now }
    requires i_lt_c { (i < c) × (j < c) }
    ensures { result ≡ block_mark c scratch.now i j }
{
    let square = laid_product(c, scratch, j, j);
    if square != j {
        return 0;
    }
    let kept = laid_product(c, scratch, i, j);
    if kept != i {
        return 0;
    }
    block_outcome(c, scratch, i, j)
}

// The marks of the pairs that begin with block i.
pub fn marks_row(c: usize, scratch: &mut [u8], i: usize)
    requires blocks_needs { BlocksNeeds 64 c scratch.old }
    requires i_lt_c { i < c }
    ensures { Filled (block_mark c scratch.old i) (laid_marks_base + i * 64) c scratch.old scratch.new }
{
    // By index: each byte is worked out from the slice that it is written to.
    for j in 0..c {
        let byte = mark_byte(c, scratch, i, j);
        scratch[LAID_MARKS_BASE + (i * 64 + j)] = byte;
    }
}

// The marks of all pairs of blocks.
pub fn lay_marks(c: usize, scratch: &mut [u8])
    requires { BlocksNeeds 64 c scratch.old }
    ensures { Grid (block_mark c scratch.old) laid_marks_base 64 c c scratch.old scratch.new }
{
    // By number: blocks are the numbers below c.
    for i in 0..c {
        marks_row(c, scratch, i);
    }
}

// The rule of the blocks, its table and letters: the product of two blocks is the block of their leaders' product. All stands in
// one lent slice, as specs/Layout says.
#![tactic(auto)]

ghost use Rattle.std.specs.Prelude.{◌≡◌, ◌+◌, ◌*◌, ◌≤◌, ◌<◌, length};
ghost use Rattle.formats.proofs.Tables.{Table};
ghost use Rattle.reduce_table.specs.Layout.{BlocksNeeds, block_product, block_image, Filled, Grid};
ghost use Rattle.scratch.specs.Map.{laid_images_base, laid_products_base};
ghost use Rattle.formats.specs.RuleChecks.{scratch_size};

use rule_table::{image, product};
use scratch::{LAID_IMAGES_BASE, LAID_PRODUCTS_BASE, LEADERS_BASE, NUMBERS_BASE};

// The number of the product of two blocks: that of the product of their leaders.
pub fn block_product(
    rule: &[u8],
    n: usize,
    k: usize,
    c: usize,
    scratch: &[u8],
    i: usize,
    j: usize,
) -> u8
    requires table { Table rule.now n k }
    requires blocks_needs { BlocksNeeds n c scratch.now }
    requires i_lt_c { (i < c) × (j < c) }
    ensures { result ≡ block_product rule.now n scratch.now i j }
{
    let a = scratch[LEADERS_BASE + i] as usize;
    let b = scratch[LEADERS_BASE + j] as usize;
    let s = product(rule, n, a, b);
    scratch[NUMBERS_BASE + s]
}

// The products of block i.
pub fn table_row(rule: &[u8], n: usize, k: usize, c: usize, scratch: &mut [u8], i: usize)
    requires table { Table rule.now n k }
    requires blocks_needs { BlocksNeeds n c scratch.old }
    requires i_lt_c { i < c }
    ensures { Filled (block_product rule.now n scratch.old i) (laid_products_base + i * c) c scratch.old scratch.new }
{
    // By index: each byte is worked out from the slice that it is written to.
    for j in 0..c {
        let number = block_product(rule, n, k, c, scratch, i, j);
        scratch[LAID_PRODUCTS_BASE + (i * c + j)] = number;
    }
}

// The products of all blocks, by rows.
pub fn lay_table(rule: &[u8], n: usize, k: usize, c: usize, scratch: &mut [u8])
    requires table { Table rule.now n k }
    requires blocks_needs { BlocksNeeds n c scratch.old }
    ensures { Grid (block_product rule.now n scratch.old) laid_products_base c c c scratch.old scratch.new }
{
    // By number: blocks are the numbers below c.
    for i in 0..c {
        table_row(rule, n, k, c, scratch, i);
    }
}

// The block of each letter.
pub fn lay_images(rule: &[u8], n: usize, k: usize, scratch: &mut [u8])
    requires table { Table rule.now n k }
    requires scratch_size_in_bounds { scratch_size ≤ length scratch.old }
    ensures { Filled (block_image rule.now n scratch.old) laid_images_base k scratch.old scratch.new }
{
    // By index: each byte is worked out from the slice that it is written to.
    for a in 0..k {
        let s = image(rule, n, a);
        let number = scratch[NUMBERS_BASE + s];
        scratch[LAID_IMAGES_BASE + a] = number;
    }
}

// The rule of the pairs of values of two rules, its table and letters: a product goes half by half, and each pair is known by its place in
// the list. All stands in one lent slice, as specs/Layout says.
#![tactic(auto)]

ghost use Rattle.std.specs.Prelude.{◌≡◌, ◌+◌, ◌*◌, ◌<◌};
ghost use Rattle.pair_list.specs.Pairs.{number_at, TwoTables};
ghost use Rattle.scratch.specs.Map.{laid_images_base, laid_products_base};
ghost use Rattle.scratch.specs.Rows.{RowFilled, RowsFilled};
ghost use Rattle.pair_table.specs.Layout.{NumberNeeds, PairsNeeds, pair_product, pair_image};

use rule_table::{image, product};
use scratch::{
    LAID_IMAGES_BASE, LAID_PRODUCTS_BASE, PAIR_LEFTS_BASE, PAIR_NUMBERS_BASE, PAIR_RIGHTS_BASE,
};

// The place of a pair with a number: one less.
fn place_of(scratch: &[u8], s: usize, t: usize) -> u8
    requires { NumberNeeds scratch.now s t }
    ensures { result + 1 ≡ number_at scratch.now s t }
{
    scratch[PAIR_NUMBERS_BASE + (s * 64 + t)] - 1
}

// The place of the product of two pairs.
fn pair_product(
    first: &[u8],
    n1: usize,
    second: &[u8],
    n2: usize,
    k: usize,
    count: usize,
    scratch: &[u8],
    i: usize,
    j: usize,
) -> u8
    requires two_tables { TwoTables first.now n1 second.now n2 k }
    requires pairs_needs { PairsNeeds first.now n1 second.now n2 k count scratch.now }
    requires i_lt_count { (i < count) × (j < count) }
    ensures { result + 1 ≡ pair_product first.now n1 second.now n2 scratch.now i j }
{
    let a = scratch[PAIR_LEFTS_BASE + i] as usize;
    let b = scratch[PAIR_LEFTS_BASE + j] as usize;
    let c = scratch[PAIR_RIGHTS_BASE + i] as usize;
    let d = scratch[PAIR_RIGHTS_BASE + j] as usize;
    let s = product(first, n1, a, b);
    let t = product(second, n2, c, d);
    place_of(scratch, s, t)
}

// The products of pair i.
fn products_row(
    first: &[u8],
    n1: usize,
    second: &[u8],
    n2: usize,
    k: usize,
    count: usize,
    scratch: &mut [u8],
    i: usize,
)
    requires two_tables { TwoTables first.now n1 second.now n2 k }
    requires pairs_needs { PairsNeeds first.now n1 second.now n2 k count scratch.old }
    requires i_lt_count { i < count }
    ensures { RowFilled (λ j byte. byte + 1 ≡ pair_product first.now n1 second.now n2 scratch.old i j) (laid_products_base + i * count) count scratch.old scratch.new }
{
    // By index: each byte is worked out from the slice that it is written to.
    for j in 0..count {
        let place = pair_product(first, n1, second, n2, k, count, scratch, i, j);
        scratch[LAID_PRODUCTS_BASE + (i * count + j)] = place;
    }
}

// The products of all pairs, by rows.
pub fn lay_products(
    first: &[u8],
    n1: usize,
    second: &[u8],
    n2: usize,
    k: usize,
    count: usize,
    scratch: &mut [u8],
)
    requires two_tables { TwoTables first.now n1 second.now n2 k }
    requires pairs_needs { PairsNeeds first.now n1 second.now n2 k count scratch.old }
    ensures { RowsFilled (λ i j byte. byte + 1 ≡ pair_product first.now n1 second.now n2 scratch.old i j) laid_products_base count count count scratch.old scratch.new }
{
    // By number: pairs are the numbers below count.
    for i in 0..count {
        products_row(first, n1, second, n2, k, count, scratch, i);
    }
}

// The pair of each letter.
pub fn lay_images(
    first: &[u8],
    n1: usize,
    second: &[u8],
    n2: usize,
    k: usize,
    count: usize,
    scratch: &mut [u8],
)
    requires two_tables { TwoTables first.now n1 second.now n2 k }
    requires pairs_needs { PairsNeeds first.now n1 second.now n2 k count scratch.old }
    ensures { RowFilled (λ x byte. byte + 1 ≡ pair_image first.now n1 second.now n2 scratch.old x) laid_images_base k scratch.old scratch.new }
{
    // By index: each byte is worked out from the slice that it is written to.
    for x in 0..k {
        let s = image(first, n1, x);
        let t = image(second, n2, x);
        let place = place_of(scratch, s, t);
        scratch[LAID_IMAGES_BASE + x] = place;
    }
}

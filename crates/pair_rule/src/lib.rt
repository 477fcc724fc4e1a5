// The rule of the pairs of values of two rules laid out in scratch and written, as pair_table/specs/Layout says.
#![tactic(auto)]

ghost use Rattle.pair_list.specs.Pairs.{TwoTables};
ghost use Rattle.pair_rule.specs.Writing.{PairsLayNeeds, PairsLaid, PairsRuleNeeds, PairsWritten};

use pair_marks::lay_marks;
use pair_table::{lay_images, lay_products};
use promises::Operation;
use rule_laid::write_laid;
use scratch::LAID_IMAGES_BASE;

// Lays the rule of the pairs out in scratch.
fn lay_pairs(
    first: &[u8],
    n1: usize,
    second: &[u8],
    n2: usize,
    k: usize,
    count: usize,
    operation: Operation,
    scratch: &mut [u8],
)
    requires two_tables { TwoTables first.now n1 second.now n2 k }
    requires pairs_lay_needs { PairsLayNeeds first.now n1 second.now n2 k count scratch.old }
    ensures { PairsLaid first.now n1 second.now n2 k count operation scratch.old scratch.new }
{
    lay_products(first, n1, second, n2, k, count, scratch);
    lay_images(first, n1, second, n2, k, count, scratch);
    lay_marks(operation, count, scratch);
}

// Writes the rule whose elements are the pairs of the list, and answers its length.
pub fn write_pairs(
    first: &[u8],
    n1: usize,
    second: &[u8],
    n2: usize,
    k: usize,
    count: usize,
    operation: Operation,
    scratch: &mut [u8],
    out: &mut [u8],
) -> usize
    requires two_tables { TwoTables first.now n1 second.now n2 k }
    requires pairs_rule_needs { PairsRuleNeeds first.now n1 second.now n2 k count scratch.old out.old }
    ensures { PairsWritten first.now n1 second.now n2 k count operation scratch.old scratch.new out.old out.new result }
{
    lay_pairs(first, n1, second, n2, k, count, operation, scratch);
    write_laid(scratch, LAID_IMAGES_BASE, count, k, out)
}

// The table of the pairs of two strong rules, and the grades of both at each context, laid out for `until`.
#![tactic(auto)]

ghost use Rattle.until_pairs.specs.Tables.{TableNeeds, TableLaid};

use pair_table::{lay_images, lay_products};
use until_grades::lay_grades;

// Lays them out from the list of the pairs and the closures of both rules' marks.
pub fn lay_table(
    first: &[u8],
    n1: usize,
    second: &[u8],
    n2: usize,
    k: usize,
    count: usize,
    scratch: &mut [u8],
)
    requires { TableNeeds first.now n1 second.now n2 k count scratch.old }
    ensures { TableLaid first.now n1 second.now n2 k count scratch.old scratch.new }
{
    lay_products(first, n1, second, n2, k, count, scratch);
    lay_images(first, n1, second, n2, k, count, scratch);
    lay_grades(first, n1, second, n2, k, count, scratch);
}

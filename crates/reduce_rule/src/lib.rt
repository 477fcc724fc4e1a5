// The rule of the blocks laid out in scratch and written, as reduce_table/specs/Layout says.
#![tactic(auto)]

ghost use Rattle.formats.proofs.Tables.{Table};
ghost use Rattle.formats.specs.Table.{morphism_at};
ghost use Rattle.reduce_rule.specs.Steps.{QuotientNeeds, QuotientWritten};

use reduce_marks::lay_marks;
use reduce_table::{lay_images, lay_table};
use rule_laid::write_laid;
use scratch::LAID_IMAGES_BASE;

// Writes the rule whose elements are the c blocks, and answers its length.
pub fn write_quotient(
    rule: &[u8],
    n: usize,
    k: usize,
    c: usize,
    scratch: &mut [u8],
    out: &mut [u8],
) -> usize
    requires table { Table rule.now n k }
    requires quotient_needs { QuotientNeeds n k c scratch.old out.old }
    ensures { QuotientWritten (morphism_at rule.now n k) c scratch.old scratch.new out.old out.new result }
{
    lay_table(rule, n, k, c, scratch);
    lay_images(rule, n, k, scratch);
    lay_marks(c, scratch);
    write_laid(scratch, LAID_IMAGES_BASE, c, k, out)
}

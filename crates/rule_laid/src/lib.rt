// A rule that is laid out in scratch (scratch/specs/Map): which pairs its products link, and the rule written as a file.
#![tactic(auto)]

ghost use Rattle.std.specs.Prelude.{◌≤◌, ◌<◌, length};
ghost use Rattle.formats.specs.RuleChecks.{scratch_size};
ghost use Rattle.rule_marks.specs.Faults.{LinkedAnswer};
ghost use Rattle.rule_laid.specs.Laid.{laid_table, LaidNeeds, LaidWritten};

use rule_writer::write_rule;
use scratch::{LAID_MARKS_BASE, LAID_PRODUCTS_BASE};

// Whether the pair (s, e) is linked by the products that are laid out.
pub fn laid_linked(scratch: &[u8], count: usize, s: usize, e: usize) -> bool
    requires count_bound { (count ≤ 64) × (scratch_size ≤ length scratch.now) }
    requires s_lt_count { (s < count) × (e < count) }
    ensures { LinkedAnswer (laid_table scratch.now count) s e result }
{
    if scratch[LAID_PRODUCTS_BASE + (e * count + e)] as usize != e {
        return false;
    }
    if scratch[LAID_PRODUCTS_BASE + (s * count + e)] as usize != s {
        return false;
    }
    true
}

// Writes the rule whose letters' elements stand from the byte `images` on, and answers how many bytes its file has.
pub fn write_laid(scratch: &[u8], images: usize, count: usize, k: usize, out: &mut [u8]) -> usize
    requires { LaidNeeds images count k scratch.now out.old }
    ensures { LaidWritten images count k scratch.now out.old out.new result }
{
    let products = &scratch[LAID_PRODUCTS_BASE..];
    let elements = &scratch[images..];
    let marks = &scratch[LAID_MARKS_BASE..];
    write_rule(products, elements, marks, count, k, out)
}

// The rule of recorded classes of words, written: its table is laid out along the words, and of the grades that stand for its pairs from byte 24576 on
// those of linked pairs stay for marks.
#![tactic(auto)]

ghost use Rattle.std.specs.Prelude.{◌+◌, ◌*◌, ◌<◌};
ghost use Rattle.scratch.specs.Map.{laid_marks_base};
ghost use Rattle.scratch.specs.Rows.{RowFilled, RowsFilled};
ghost use Rattle.word_rule.specs.Writing.{GradesNeeds, LinkedGrade, WordsNeeds, WordsWritten};

use rule_laid::{laid_linked, write_laid};
use scratch::{LAID_MARKS_BASE, STEPS_BASE};
use word_table::lay_products;

// The grade of two classes where they are linked, else 0.
fn linked_byte(scratch: &[u8], count: usize, s: usize, e: usize) -> u8
    requires grades_needs { GradesNeeds count scratch.now }
    requires s_lt_count { (s < count) × (e < count) }
    ensures { LinkedGrade count scratch.now s e result }
{
    let linked = laid_linked(scratch, count, s, e);
    if !linked {
        return 0;
    }
    scratch[LAID_MARKS_BASE + (s * 64 + e)]
}

// The marks of the pairs that begin with s.
fn clear_row(scratch: &mut [u8], count: usize, s: usize)
    requires grades_needs { GradesNeeds count scratch.old }
    requires s_lt_count { s < count }
    ensures { RowFilled (LinkedGrade count scratch.old s) (laid_marks_base + s * 64) count scratch.old scratch.new }
{
    // By index: each byte is worked out from the slice that it is written to.
    for e in 0..count {
        let mark = linked_byte(scratch, count, s, e);
        scratch[LAID_MARKS_BASE + (s * 64 + e)] = mark;
    }
}

// The marks of all pairs.
fn clear_unlinked(scratch: &mut [u8], count: usize)
    requires { GradesNeeds count scratch.old }
    ensures { RowsFilled (LinkedGrade count scratch.old) laid_marks_base 64 count count scratch.old scratch.new }
{
    // By number: elements are the numbers below count.
    for s in 0..count {
        clear_row(scratch, count, s);
    }
}

// Writes the rule of the classes, and answers how many bytes its file has.
pub fn write_words(scratch: &mut [u8], count: usize, k: usize, out: &mut [u8]) -> usize
    requires { WordsNeeds count k scratch.old out.old }
    ensures { WordsWritten count k scratch.old scratch.new out.old out.new result }
{
    lay_products(scratch, count);
    clear_unlinked(scratch, count);
    write_laid(scratch, STEPS_BASE, count, k, out)
}

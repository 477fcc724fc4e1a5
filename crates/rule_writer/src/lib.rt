// Writing a rule file into a lent buffer: the elements and the letters are copied from tables of bytes, and the marks are
// written pair by pair, each with its grade. Each function writes at a place, leaves every other byte as it was, and answers the place after what it
// wrote.
#![tactic(auto)]

ghost use Rattle.std.specs.Prelude.{◌*◌};
ghost use Rattle.formats.specs.Front.{AtFront};
ghost use Rattle.rule_bytes.specs.Writing.{Written, table_marks};
ghost use Rattle.rule_writer.specs.Writing.{RowNeeds, AllNeeds, MarksNeeds, MarksWritten, RuleNeeds, table_file};
ghost use Rattle.formats.proofs.Rows.{marks_from};

use rule_bytes::{write_counted, write_mark};

// Writes the marks that begin with s, by e.
fn write_row(marks: &[u8], n: usize, s: usize, out: &mut [u8], at: usize) -> usize
    requires { RowNeeds marks.now n s out.old at }
    ensures { Written out.old at (marks_from n (table_marks marks.now) (s * n) n) out.new result }
{
    let mut next = at;
    for e in 0..n {
        next = write_mark(marks, s, e, out, next);
    }
    next
}

// Writes the marks, by s, then by e.
fn write_all(marks: &[u8], n: usize, out: &mut [u8], at: usize) -> usize
    requires { AllNeeds marks.now n out.old at }
    ensures { Written out.old at (marks_from n (table_marks marks.now) 0 (n * n)) out.new result }
{
    let mut next = at;
    for s in 0..n {
        next = write_row(marks, n, s, out, next);
    }
    next
}

// Writes the marks' section of n elements from a table of grades that has a byte for each pair (s, e), at s * 64 + e: the pairs
// whose byte is not 0, each with that byte, and before them their count, low byte first.
pub fn write_marks(marks: &[u8], n: usize, out: &mut [u8], at: usize) -> usize
    requires { MarksNeeds marks.now n out.old at }
    ensures { MarksWritten marks.now n out.old at out.new result }
{
    let first = at + 2;
    let end = write_all(marks, n, out, first);
    let count = (end - first) / 3;
    out[at] = (count % 256) as u8;
    out[at + 1] = (count / 256) as u8;
    end
}

// Writes a rule of n elements and k letters: its products by rows, the element of each letter, and its marks. Answers the file's
// length.
pub fn write_rule(
    table: &[u8],
    images: &[u8],
    marks: &[u8],
    n: usize,
    k: usize,
    out: &mut [u8],
) -> usize
    requires { RuleNeeds table.now images.now marks.now n k out.old }
    ensures { AtFront (table_file table.now images.now marks.now n k) out.old out.new result }
{
    let letters_at = write_counted(table, n, n * n, out, 0);
    let marks_at = write_counted(images, k, k, out, letters_at);
    write_marks(marks, n, out, marks_at)
}

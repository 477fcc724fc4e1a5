// Bytes of a rule file put into a lent buffer: a copy, a count with its entries, and one mark with its grade. Each function writes at a
// place, leaves every other byte as it was, and answers the place after what it wrote.
#![tactic(auto)]

ghost use Rattle.std.specs.Prelude.{◌∷◌, take};
ghost use Rattle.rule_bytes.specs.Writing.{Written, CopyNeeds, CountedNeeds, MarkNeeds, table_marks, mark_if_any};

// Copies the first `count` bytes of a slice.
pub fn copy(from: &[u8], count: usize, out: &mut [u8], at: usize) -> usize
    requires { CopyNeeds from.now count out.old at }
    ensures { Written out.old at (take count from.now) out.new result }
{
    out[at..at + count].copy_from_slice(&from[..count]);
    at + count
}

// Writes a count of one byte, then the first `size` bytes of a slice.
pub fn write_counted(entries: &[u8], count: usize, size: usize, out: &mut [u8], at: usize) -> usize
    requires { CountedNeeds entries.now count size out.old at }
    ensures { Written out.old at (count ∷ take size entries.now) out.new result }
{
    out[at] = count as u8;
    copy(entries, size, out, at + 1)
}

// Writes the pair (s, e) and its grade where it is marked.
pub fn write_mark(marks: &[u8], s: usize, e: usize, out: &mut [u8], at: usize) -> usize
    requires { MarkNeeds marks.now s e out.old at }
    ensures { Written out.old at (mark_if_any (table_marks marks.now) s e) out.new result }
{
    let grade = marks[s * 64 + e];
    if 0 < grade {
        out[at] = s as u8;
        out[at + 1] = e as u8;
        out[at + 2] = grade;
        return at + 3;
    }
    at
}

// The file at the front of some bytes (document 02, Job 14): up to the end that its own counts give, whatever stands behind.
#![tactic(auto)]

ghost use Rattle.std.specs.Prelude.{◌≡◌, ◌<◌, get_or};
ghost use Rattle.formats.specs.RuleFile.{rule_end};
ghost use Rattle.promises.specs.FilePart.{file_part};

// A byte as a number, 0 past the end.
fn number_at(bytes: &[u8], i: usize) -> usize
    ensures is { result ≡ get_or bytes.now i 0 }
    ensures small { result < 256 }
{
    if i < bytes.len() {
        return bytes[i] as usize;
    }
    0
}

// Where the last section ends, by the counts of the elements, the letters and the marks, each of which has three bytes. Counts are bytes, so
// that no sum is too large.
fn end_of(bytes: &[u8]) -> usize
    ensures { result ≡ rule_end bytes.now }
{
    let n = number_at(bytes, 0);
    let letters_at = 1 + n * n;
    let k = number_at(bytes, letters_at);
    let marks_at = letters_at + (1 + k);
    let low = number_at(bytes, marks_at);
    let top = number_at(bytes, marks_at + 1);
    let count = low + 256 * top;
    marks_at + (2 + 3 * count)
}

// All of the bytes where there are no more.
pub fn file_part(bytes: &[u8]) -> &[u8]
    ensures result_value { result.now ≡ file_part bytes.now }
    ensures place { result.ref_ptr ≡ bytes.entry.ref_ptr }
{
    let end = end_of(bytes);
    if end < bytes.len() {
        return &bytes[..end];
    }
    bytes
}

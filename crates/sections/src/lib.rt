// Sections of the file formats: a count, then as many bytes as it asks for, each naming something that exists. What is left
// of a file is handed on as a part of the lent bytes, with the place where that part begins.
#![tactic(auto)]

ghost use Rattle.std.specs.Prelude.{◌≡◌, ◌+◌, ◌≤◌, ◌<◌, ◌^◌, length, replicate};
ghost use Rattle.formats.specs.Sections.{one_byte, two-byte};
ghost use Rattle.sections.specs.Answers.{PartZeroed, CountAnswer, EntriesAnswer};

use answer::{Fault, Refusal};
use section_bounds::first_out;

// Fills a part of a lent buffer with zeros.
pub fn zero_part(s: &mut [u8], from: usize, to: usize)
    requires { (from ≤ to) × (to ≤ length s.old) }
    ensures { PartZeroed from to s.old s.new }
{
    s[from..to].fill(0);
}

// Fills a lent buffer with zeros, whatever its length.
pub fn zero(s: &mut [u8])
    ensures { s.new ≡ replicate (length s.old) 0 }
{
    s.fill(0);
}

// Bytes that end too early: the place of the fault is the end of the input.
fn cut(rest: &[u8], at: usize) -> Fault
    requires { at + length rest.now < 2 ^ 64 }
    ensures { result ≡ record { refusal = Refusal.Truncated; place = at + length rest.now } }
{
    Fault {
        refusal: Refusal::Truncated,
        place: at + rest.len(),
    }
}

// A count of one byte, from 1 to `high`.
pub fn byte_count(rest: &[u8], at: usize, high: usize) -> Result<usize, Fault>
    requires { at + length rest.now < 2 ^ 64 }
    ensures { CountAnswer one_byte 1 high at rest.now result }
{
    if rest.len() < 1 {
        return Err(cut(rest, at));
    }
    let count = rest[0] as usize;
    if count < 1 || high < count {
        return Err(Fault {
            refusal: Refusal::CountOutOfRange,
            place: at,
        });
    }
    Ok(count)
}

// A count of two bytes, low byte first, from 0 to `high`.
pub fn wide_count(rest: &[u8], at: usize, high: usize) -> Result<usize, Fault>
    requires { at + length rest.now < 2 ^ 64 }
    ensures { CountAnswer two-byte 0 high at rest.now result }
{
    if rest.len() < 2 {
        return Err(cut(rest, at));
    }
    let number = u16::from_le_bytes([rest[0], rest[1]]) as usize;
    if high < number {
        return Err(Fault {
            refusal: Refusal::CountOutOfRange,
            place: at,
        });
    }
    Ok(number)
}

// The entries after a count of `from` bytes: all there, and each below the bound. Answers the count where they are.
pub fn entries(
    rest: &[u8],
    at: usize,
    from: usize,
    size: usize,
    bound: usize,
    count: usize,
) -> Result<usize, Fault>
    requires rest_bound { at + length rest.now < 2 ^ 64 }
    requires size_bound { from + size < 2 ^ 64 }
    ensures { EntriesAnswer from size (λ i. 0) (λ i. bound) at rest.now count result }
{
    if rest.len() < from + size {
        return Err(cut(rest, at));
    }
    match first_out(rest, from, size, bound) {
        Some(i) => Err(Fault {
            refusal: Refusal::EntryOutOfRange,
            place: at + (from + i),
        }),
        None => Ok(count),
    }
}

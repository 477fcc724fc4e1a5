// The lists of bytes that the examples of the test programs have.
//
// A list has words with a space between them: a byte, as 64; a byte that is repeated, as 16*0; or the table or the marks of a rule of
// 64 elements, by its name: `sums`, `unions`, `words`, `marks`.
#![tactic(auto)]

ghost use Rattle.std.specs.Prelude.{◌≡◌, ◌≤◌, ◌/◌, ◌%◌, max, length};
ghost use Rattle.io.specs.Counts.{IsPrefixLen};
ghost use Rattle.example_parts.specs.Parts.{part_of};
ghost use Rattle.example_parts.specs.Digits.{decimal_of, colon};
ghost use Rattle.example_lists.specs.Lists.{last_byte, list_pair_product, set_mark_bytes, entry_bytes, entries_bytes, star, word_bytes, list_bytes};
ghost use Rattle.example_lists.specs.Storing.{Stored, ListStored};

use example_parts::{decimal, part};

// Stores a number's last byte where there is room for it, and answers the place after it.
pub fn store(out: &mut [u8], at: usize, byte: usize) -> usize
    ensures { Stored out.old at (last_byte byte) out.new result }
{
    if at < out.len() {
        out[at] = (byte % 256) as u8;
        return at + 1;
    }
    out.len()
}

// The product of two pairs of a word and a remainder by 2. The words are over six letters, the last of which is followed by none and
// follows none: the letters, 25 words of two, and all that are longer in one, the last.
fn word_pair(x: usize, y: usize) -> usize
    ensures { result ≡ list_pair_product x y }
{
    let parity = (x % 2 + y % 2) % 2;
    if 9 < x || 9 < y {
        return 62 + parity;
    }
    2 * (6 + (x / 2 * 5 + y / 2)) + parity
}

// Stores a pair of sets of six letters, each letter a bit, where the second is a part of the first and has an even number of letters,
// and the grade 3.
fn store_mark(out: &mut [u8], at: usize, s: usize, e: usize) -> usize
    requires { at ≤ length out.old }
    ensures { Stored out.old at (set_mark_bytes s e) out.new result }
{
    if s | e != s {
        return at;
    }
    if (e % 2 + e / 2 % 2 + e / 4 % 2 + e / 8 % 2 + e / 16 % 2 + e / 32 % 2) % 2 != 0 {
        return at;
    }
    let next = store(out, at, s);
    let last = store(out, next, e);
    store(out, last, 3)
}

// Stores what a list that is known by its first letter has with the number i: the sum of two remainders by 64, the union of two
// sets, the product of two pairs of a word and a remainder, a mark; or a byte that is repeated.
fn entry(name: u8, byte: usize, i: usize, out: &mut [u8], at: usize) -> usize
    requires { at ≤ length out.old }
    ensures { Stored out.old at (entry_bytes name byte (i / 64) (i % 64)) out.new result }
{
    let x = i / 64;
    let y = i % 64;
    match name {
        b's' => store(out, at, (x % 64 + y) % 64),
        b'u' => store(out, at, x | y),
        b'w' => store(out, at, word_pair(x, y)),
        b'm' => store_mark(out, at, x, y),
        _ => store(out, at, byte),
    }
}

// Stores the first entries of a list that is known by its first letter.
fn entries(name: u8, byte: usize, count: usize, out: &mut [u8], at: usize) -> usize
    requires { at ≤ length out.old }
    ensures { Stored out.old at (entries_bytes name byte count) out.new result }
{
    let mut end = at;
    for i in 0..count {
        end = entry(name, byte, i, out, end);
    }
    end
}

// How often a word repeats a byte: at least once.
fn repeats(word: &[u8]) -> usize
    ensures { result ≡ max 1 (decimal_of (part_of star 0 word.now)) }
{
    decimal(part(word, b'*', 0)).max(1)
}

// Stores what a word of a list stands for.
fn put(word: &[u8], out: &mut [u8], at: usize) -> usize
    requires { at ≤ length out.old }
    ensures { Stored out.old at (word_bytes word.now) out.new result }
{
    if word.is_empty() {
        return at;
    }
    let name = word[0];
    if b'9' < name {
        return entries(name, 0, 4096, out, at);
    }
    let byte = part(word, b'*', 1);
    if byte.is_empty() {
        return store(out, at, decimal(word));
    }
    entries(name, decimal(byte), repeats(word), out, at)
}

// Reads the list that a part of a line has into bytes, as far as there is room, and answers how many were stored.
pub fn numbers(line: &[u8], k: usize, out: &mut [u8]) -> usize
    ensures prefix_len { IsPrefixLen result out.new }
    ensures list_stored { ListStored out.old (list_bytes (part_of colon k line.now)) out.new result }
{
    let list = part(line, b':', k);
    let mut at = 0;
    for word in list.split(|byte| *byte == b' ') {
        at = put(word, out, at);
    }
    at
}

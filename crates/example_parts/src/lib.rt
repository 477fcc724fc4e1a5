// The parts of a text, and what they say by a number or a letter: what the test programs read their examples by.
//
// A line of examples has parts with `:` between them: a label, a command, and lists of numbers. A line with no `:` is a comment.
#![tactic(auto)]

ghost use Rattle.std.specs.Prelude.{◌≡◌, ◌%◌, get_or, take};
ghost use Rattle.example_parts.specs.Parts.{part_of};
ghost use Rattle.example_parts.specs.Digits.{decimal_of, number_in_part, command_of, DigitAdded};

// The part of a text with the number k, where marks stand between the parts. A part that is not there is empty.
pub fn part(text: &[u8], mark: u8, k: usize) -> &[u8]
    ensures { result.now ≡ part_of mark k text.now }
{
    text.split(|byte| *byte == mark).nth(k).unwrap_or(&[])
}

// A byte of a text, 0 past its end.
pub fn byte_at(text: &[u8], i: usize) -> u8
    ensures { result ≡ get_or text.now i 0 }
{
    text.get(i).copied().unwrap_or(0)
}

// The first bytes of a buffer, or all of it where it has no more.
pub fn front(buffer: &[u8], count: usize) -> &[u8]
    ensures { result.now ≡ take count buffer.now }
{
    buffer.get(..count).unwrap_or(buffer)
}

// A line's command, which stands after a space; nothing for a line with no example.
pub fn command(line: &[u8]) -> &[u8]
    ensures { result.now ≡ command_of line.now }
{
    part(line, b':', 1).get(1..).unwrap_or(&[])
}

// A number with one more digit, at most the largest. Bytes that are no digit add nothing.
fn with_digit(n: usize, c: u8) -> usize
    ensures { DigitAdded n c result }
{
    if !c.is_ascii_digit() {
        return n;
    }
    if n < 1844674407370955161 {
        return n * 10 + usize::from(c - b'0');
    }
    usize::MAX
}

// The number that a text's digits say.
pub fn decimal(text: &[u8]) -> usize
    ensures { result ≡ decimal_of text.now }
{
    let mut n = 0;
    for byte in text {
        n = with_digit(n, *byte);
    }
    n
}

// The number that a part of a line has.
pub fn number(line: &[u8], k: usize) -> usize
    ensures { result ≡ number_in_part line.now k }
{
    decimal(part(line, b':', k))
}

// The last byte of the number that a part of a line has.
pub fn byte(line: &[u8], k: usize) -> u8
    ensures { result ≡ number_in_part line.now k % 256 }
{
    (number(line, k) % 256) as u8
}

// The text of the test programs: the examples that they read, passed on from the crates that read them, what goes over them, and the lines
// that the programs write. The logic has no word for what is written, so the functions that write promise nothing but that they end.
#![tactic(auto)]

ghost use Rattle.std.specs.Prelude.{◌≡◌, ◌<◌, ◌^◌};
ghost use Rattle.example_text.specs.Written.{written_bytes};

use answer::Refusal;
pub use example_lists::{numbers, store};
pub use example_parts::{byte, byte_at, command, front, number, part};
use promises::{LassoVerdict, Monitor, Moved, Written};
use std::io;

// Runs each line of a text, in order, until one fails.
pub fn each_line<F: FnMut(&[u8]) -> io::Result<()>>(text: &[u8], mut run: F) -> io::Result<()>
    requires { F.IsAlwaysCallable run }
{
    for line in text.split(|byte| *byte == b'\n') {
        run(line)?;
    }
    Ok(())
}

// Runs each example of a text, in order, until one fails, with the list of bytes behind its command, as far as N bytes have room for it. A
// line with no command has no example.
pub fn each_example<const N: usize, F: FnMut(&[u8], &[u8]) -> io::Result<()>>(
    text: &[u8],
    mut run: F,
) -> io::Result<()>
    requires callable { F.IsAlwaysCallable run }
    requires few_bytes { N < 2 ^ 63 }
{
    for line in text.split(|byte| *byte == b'\n') {
        let mut list = [0u8; N];
        let length = numbers(line, 2, &mut list);
        if !command(line).is_empty() {
            run(line, &list[..length])?;
        }
    }
    Ok(())
}

// The bytes of the rule that a call wrote at the front of a buffer; none where it was refused.
pub fn written_part(answer: Written, buffer: &[u8]) -> &[u8]
    ensures { result.now ≡ written_bytes answer buffer.now }
{
    match answer {
        Written::Rule(count) => front(buffer, count),
        Written::Refused { .. } => &[],
    }
}

// Writes a refusal with its number.
pub fn refused_line(
    rt: &impl Print,
    refusal: Refusal,
    input: usize,
    place: usize,
) -> io::Result<()> {
    println!(rt; "refused {} in {input} at {place}", answer::number(refusal))
}

// Writes a lasso's grade, and after how many turns its cycle settles.
pub fn verdict_line(rt: &impl Print, answer: LassoVerdict) -> io::Result<()> {
    match answer {
        LassoVerdict::Decided { grade, turns } => println!(rt; "grade {grade}, turns {turns}"),
        LassoVerdict::Refused {
            refusal,
            input,
            place,
        } => refused_line(rt, refusal, input, place),
    }
}

// Writes the monitor that a call hands back, or why it moved none, and hands it back.
pub fn monitor_line(rt: &impl Print, moved: Moved) -> io::Result<Monitor> {
    match moved {
        Moved::To(m) => {
            println!(rt; "before {} since {}", m.before, m.since)?;
            Ok(m)
        }
        Moved::Refused {
            monitor,
            refusal,
            input,
            place,
        } => {
            refused_line(rt, refusal, input, place)?;
            Ok(monitor)
        }
    }
}

// Writes what a call wrote: its bytes where they are fewer than `most`, and else how many there are and the number of its elements.
pub fn written_line(rt: &impl Print, answer: Written, out: &[u8], most: usize) -> io::Result<()> {
    match answer {
        Written::Rule(length) => {
            rule_part(rt, out, length, most)?;
            print!(rt; "\n")
        }
        Written::Refused {
            refusal,
            input,
            place,
        } => refused_line(rt, refusal, input, place),
    }
}

// The same without the line's end, of a rule that was written.
pub fn rule_part(rt: &impl Print, out: &[u8], length: usize, most: usize) -> io::Result<()> {
    print!(rt; "bytes {length}")?;
    if length < most {
        return row(rt, b":", out, length);
    }
    row(rt, b", elements", out, 1)
}

// Writes a line's label, if it has one.
pub fn label(rt: &impl Print, line: &[u8]) -> io::Result<()> {
    let name = part(line, b':', 0);
    if !name.is_empty() {
        rt.write_all(name)?;
        print!(rt; ": ")?;
    }
    Ok(())
}

// Writes the first bytes of a buffer after a word, each after a space; 0 past the buffer's end.
pub fn row(rt: &impl Print, start: &[u8], buffer: &[u8], count: usize) -> io::Result<()> {
    rt.write_all(start)?;
    for i in 0..count {
        print!(rt; " {}", byte_at(buffer, i))?;
    }
    Ok(())
}

// Reads a rule file from standard input and writes one line: its summary, or the number and the place of its refusal.
#![tactic(auto)]

ghost use Rattle.std.specs.Prelude.{◌≤◌, length, IfOk};

use rules::{RULE_SIZE, SCRATCH_SIZE, Summary};
use std::io::{self, Read};

fn line(rt: &impl Print, answer: Summary) -> io::Result<()> {
    match answer {
        Summary::Counts {
            elements,
            letters,
            marks,
            linked,
            classes,
            strong,
            reduced,
        } => {
            print!(rt; "elements {elements} letters {letters} marks {marks}")?;
            print!(rt; " linked {linked} classes {classes}")?;
            println!(rt; " strong {} reduced {reduced}", u8::from(strong))
        }
        Summary::Refused {
            refusal,
            input: _,
            place,
        } => println!(rt; "refused {} at {place}", rules::number(refusal)),
    }
}

// Reads until the buffer is full or the input ends, and answers how many bytes it put at the buffer's start. The library's `read_exact` does not
// say how many there were where the input ends first, and its `read_to_end` needs a heap, so this is a loop over `read`.
fn read_full(reader: &mut impl Read, input: &mut [u8]) -> io::Result<usize>
    ensures { IfOk result (λ n. n ≤ length input.old) }
{
    let mut n = 0;
    while n < input.len() {
        let count = reader.read(&mut input[n..])?;
        if count == 0 {
            break;
        }
        n += count;
    }
    Ok(n)
}

// 16,405 bytes of the input are enough. The longest rule has 16,404 bytes: where the counts are in their ranges the sections end by
// then, so a longer input is refused by 4 or earlier, at a place below 16,405, and no such refusal depends on a later byte.
fn main(rt: HostRuntime) -> io::Result<()> {
    let mut input = [0u8; RULE_SIZE + 1];
    let mut work = [0u8; RULE_SIZE];
    let mut scratch = [0u8; SCRATCH_SIZE];
    let n = read_full(&mut rt.reader(), &mut input)?;
    line(&rt, rules::summarize(&input[..n], &mut work, &mut scratch))
}

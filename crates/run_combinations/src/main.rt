// Runs `rules::combine` over pairs of small rules in all three ways, and writes a line for each.
#![tactic(auto)]

use rules::{Operation, RULE_SIZE, SCRATCH_SIZE};
use std::io;

fn operation_of(line: &[u8]) -> Operation {
    match example_text::command(line) {
        b"both" => Operation::Both,
        b"either" => Operation::Either,
        _ => Operation::Without,
    }
}

fn answer(
    rt: &impl Print,
    line: &[u8],
    first: &[u8],
    second: &[u8],
    scratch: &mut [u8],
) -> io::Result<()> {
    let mut out = [9u8; RULE_SIZE];
    example_text::label(rt, line)?;
    let written = rules::combine(first, second, operation_of(line), &mut out, scratch);
    example_text::written_line(rt, written, &out, 48)
}

fn run(rt: &impl Print, line: &[u8], scratch: &mut [u8]) -> io::Result<()> {
    let mut first = [0u8; RULE_SIZE];
    let mut second = [0u8; RULE_SIZE];
    let one = example_text::numbers(line, 2, &mut first);
    let two = example_text::numbers(line, 3, &mut second);
    if !example_text::command(line).is_empty() {
        answer(rt, line, &first[..one], &second[..two], scratch)?;
    }
    Ok(())
}

fn main(rt: HostRuntime) -> io::Result<()> {
    let mut scratch = [7u8; SCRATCH_SIZE];
    example_text::each_line(
        b"# W gives 3 where letter 0 comes without end; its complement gives 3 to the other lassos.\n\
        W and its complement: both: 2 0 0 0 1 2 0 1 1 0 0 0 3: 2 0 0 0 1 2 0 1 2 0 0 1 3 1 1 3\n\
        W or its complement: either: 2 0 0 0 1 2 0 1 1 0 0 0 3: 2 0 0 0 1 2 0 1 2 0 0 1 3 1 1 3\n\
        W without its complement: without: 2 0 0 0 1 2 0 1 1 0 0 0 3: 2 0 0 0 1 2 0 1 2 0 0 1 3 1 1 3\n\
        # Z with letter 0 only is strong and not closed. Its one lasso has grade 3, whatever pair shows it.\n\
        Z with letter 0 only, and itself: both: 2 0 1 1 0 1 1 1 0 0 0 3: 2 0 1 1 0 1 1 1 0 0 0 3\n\
        Z with letter 0 only, without itself: without: 2 0 1 1 0 1 1 1 0 0 0 3: 2 0 1 1 0 1 1 1 0 0 0 3\n\
        # Remainders by 64 and by 3 have 192 pairs, those by 64 twice have 64.\n\
        64 and 3: either: 64 sums 1 1 1 3*0 3: 3 0 1 2 1 2 0 2 0 1 1 1 1 0 0 0 3\n\
        64 and 64: either: 64 sums 1 1 1 3*0 3: 64 sums 1 1 1 3*0 3\n\
        1 and 64: both: 1 0 1 0 1 0 0 0 3: 64 sums 1 1 1 3*0 3\n\
        # First both files' own refusals, then 18, then 12 of the first, then of the second.\n\
        letters 2 against 1: both: 2 0 0 0 1 2 0 1 1 0 0 0 3: 2 0 1 1 0 1 1 1 0 0 0 3\n\
        a weak second: both: 2 0 0 0 1 2 0 1 1 0 0 0 3: 2 0 1 1 0 2 1 0 1 0 0 0 3\n\
        both weak: either: 2 0 1 1 0 2 1 0 1 0 0 0 3: 2 0 1 1 0 2 1 0 1 0 0 0 3\n\
        a second that is not associative: both: 2 0 1 1 0 2 1 0 1 0 0 0 3: 2 1 0 0 0 1 0 0 0\n",
        |line| run(&rt, line, &mut scratch),
    )
}

// Runs `rules::reduce_rounds` over small rules with limits below, at and above the rounds that they need, and writes a line for each.
#![tactic(auto)]

use rules::{BLOCKS_SIZE, Partition, SCRATCH_SIZE};
use std::io;

// What is said, and the blocks of a rule's elements.
fn partition_line(
    rt: &impl Print,
    answer: Partition,
    rule: &[u8],
    blocks: &[u8],
) -> io::Result<()> {
    match answer {
        Partition::Blocks { rounds, finished } => {
            print!(rt; "rounds {rounds}")?;
            if finished {
                print!(rt; ", finished")?;
            }
            example_text::row(
                rt,
                b", blocks",
                blocks,
                example_text::byte_at(rule, 0) as usize,
            )?;
            print!(rt; "\n")
        }
        Partition::Refused {
            refusal,
            input,
            place,
        } => example_text::refused_line(rt, refusal, input, place),
    }
}

fn tell(rt: &impl Print, rule: &[u8], limit: usize, scratch: &mut [u8]) -> io::Result<()> {
    let mut blocks = [9u8; BLOCKS_SIZE];
    partition_line(
        rt,
        rules::reduce_rounds(rule, limit, &mut blocks, scratch),
        rule,
        &blocks,
    )
}

// The same with a byte too few for the blocks.
fn tell_short(rt: &impl Print, rule: &[u8], limit: usize, scratch: &mut [u8]) -> io::Result<()> {
    let mut blocks = [9u8; 63];
    partition_line(
        rt,
        rules::reduce_rounds(rule, limit, &mut blocks, scratch),
        rule,
        &blocks,
    )
}

fn answer(rt: &impl Print, line: &[u8], rule: &[u8], scratch: &mut [u8]) -> io::Result<()> {
    let limit = example_text::number(line, 3);
    example_text::label(rt, line)?;
    match example_text::command(line) {
        b"short" => tell_short(rt, rule, limit, scratch),
        _ => tell(rt, rule, limit, scratch),
    }
}

fn main(rt: HostRuntime) -> io::Result<()> {
    let mut scratch = [7u8; SCRATCH_SIZE];
    example_text::each_example::<64, _>(
        b"W: rounds: 2 0 0 0 1 2 0 1 1 0 0 0 3: 0\n\
        W with all pairs: rounds: 2 0 0 0 1 2 0 1 3 0 0 0 3 0 1 3 1 1 3: 0\n\
        Z with letter 0 only: rounds: 2 0 1 1 0 1 1 1 0 0 0 3: 64\n\
        just twice, limit 0: rounds: 4 0 1 2 3 1 2 3 3 2 3 3 3 3 3 3 3 2 0 1 1 0 2 0 3: 0\n\
        just twice, limit 1: rounds: 4 0 1 2 3 1 2 3 3 2 3 3 3 3 3 3 3 2 0 1 1 0 2 0 3: 1\n\
        just twice, limit 64: rounds: 4 0 1 2 3 1 2 3 3 2 3 3 3 3 3 3 3 2 0 1 1 0 2 0 3: 64\n\
        five times, limit 0: rounds: 6 0 1 2 3 4 5 1 2 3 4 5 5 2 3 4 5 5 5 3 4 5 5 5 5 4 5 5 5 5 5 5 5 5 5 5 5 2 1 0 2 0 5 0 3 5 5 3: 0\n\
        five times, limit 1: rounds: 6 0 1 2 3 4 5 1 2 3 4 5 5 2 3 4 5 5 5 3 4 5 5 5 5 4 5 5 5 5 5 5 5 5 5 5 5 2 1 0 2 0 5 0 3 5 5 3: 1\n\
        five times, limit 2: rounds: 6 0 1 2 3 4 5 1 2 3 4 5 5 2 3 4 5 5 5 3 4 5 5 5 5 4 5 5 5 5 5 5 5 5 5 5 5 2 1 0 2 0 5 0 3 5 5 3: 2\n\
        five times, limit 3: rounds: 6 0 1 2 3 4 5 1 2 3 4 5 5 2 3 4 5 5 5 3 4 5 5 5 5 4 5 5 5 5 5 5 5 5 5 5 5 2 1 0 2 0 5 0 3 5 5 3: 3\n\
        five times, limit 4: rounds: 6 0 1 2 3 4 5 1 2 3 4 5 5 2 3 4 5 5 5 3 4 5 5 5 5 4 5 5 5 5 5 5 5 5 5 5 5 2 1 0 2 0 5 0 3 5 5 3: 4\n\
        # First 13, then the rule's own refusals, then 20, then 12.\n\
        W, limit 64: rounds: 2 0 0 0 1 2 0 1 1 0 0 0 3: 64\n\
        W, limit 65: rounds: 2 0 0 0 1 2 0 1 1 0 0 0 3: 65\n\
        Z, limit 64: rounds: 2 0 1 1 0 2 1 0 1 0 0 0 3: 64\n\
        Z, limit 65: rounds: 2 0 1 1 0 2 1 0 1 0 0 0 3: 65\n\
        M8, limit 65: rounds: 2 1 0 0 0 1 0 0 0: 65\n\
        M8, limit 65, 63 bytes: short: 2 1 0 0 0 1 0 0 0: 65\n",
        |line, rule| answer(&rt, line, rule, &mut scratch),
    )
}

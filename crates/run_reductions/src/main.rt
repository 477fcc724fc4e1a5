// Runs `rules::reduce` over document 01's small rules and over rules of 64 elements, and writes a line for each.
#![tactic(auto)]

use rules::{MAP_SIZE, RULE_SIZE, SCRATCH_SIZE, Written};
use std::io;

// What a reduction wrote: its bytes where they are few, and else how many there are and the number of its elements; and where the elements
// of the rule went, the first eight of them.
fn written_line(
    rt: &impl Print,
    out: &[u8],
    length: usize,
    map: &[u8],
    elements: usize,
) -> io::Result<()> {
    example_text::rule_part(rt, out, length, 32)?;
    if elements < 8 {
        example_text::row(rt, b"; to", map, elements)?;
    } else {
        example_text::row(rt, b"; first to", map, 8)?;
    }
    print!(rt; "\n")
}

fn reduced_line(
    rt: &impl Print,
    answer: Written,
    out: &[u8],
    map: &[u8],
    elements: usize,
) -> io::Result<()> {
    match answer {
        Written::Rule(length) => written_line(rt, out, length, map, elements),
        Written::Refused {
            refusal,
            input,
            place,
        } => example_text::refused_line(rt, refusal, input, place),
    }
}

fn tell(rt: &impl Print, rule: &[u8], scratch: &mut [u8]) -> io::Result<()> {
    let mut out = [9u8; RULE_SIZE];
    let mut map = [9u8; MAP_SIZE];
    let answer = rules::reduce(rule, &mut out, &mut map, scratch);
    reduced_line(
        rt,
        answer,
        &out,
        &map,
        example_text::byte_at(rule, 0) as usize,
    )
}

// Reduces what a reduction wrote.
fn tell_again(rt: &impl Print, rule: &[u8], scratch: &mut [u8]) -> io::Result<()> {
    let mut out = [9u8; RULE_SIZE];
    let mut map = [9u8; MAP_SIZE];
    let written = rules::reduce(rule, &mut out, &mut map, scratch);
    tell(rt, example_text::written_part(written, &out), scratch)
}

fn answer(rt: &impl Print, line: &[u8], rule: &[u8], scratch: &mut [u8]) -> io::Result<()> {
    example_text::label(rt, line)?;
    match example_text::command(line) {
        b"again" => tell_again(rt, rule, scratch),
        _ => tell(rt, rule, scratch),
    }
}

fn main(rt: HostRuntime) -> io::Result<()> {
    let mut scratch = [7u8; SCRATCH_SIZE];
    example_text::each_example::<RULE_SIZE, _>(
        b"M1 W: reduce: 2 0 0 0 1 2 0 1 1 0 0 0 3\n\
        M4 W with all pairs: reduce: 2 0 0 0 1 2 0 1 3 0 0 0 3 0 1 3 1 1 3\n\
        M6 Z: reduce: 2 0 1 1 0 2 1 0 1 0 0 0 3\n\
        M7 Z with letter 0 only: reduce: 2 0 1 1 0 1 1 1 0 0 0 3\n\
        # One endless word has the highest of its grades. With all pairs marked, W needs one element for one grade and two for two. The last rule\n\
        # is weak, though all its lassos have grade 1 or more.\n\
        Z with letter 0 only, grade 2: reduce: 2 0 1 1 0 1 1 1 0 0 0 2\n\
        Z with letter 0 only, grades 1 and 2: reduce: 2 0 1 1 0 1 1 2 0 0 0 1 1 0 2\n\
        W with all pairs, grade 2: reduce: 2 0 0 0 1 2 0 1 3 0 0 0 2 0 1 2 1 1 2\n\
        W with all pairs, grades 2 and 3: reduce: 2 0 0 0 1 2 0 1 3 0 0 0 2 0 1 3 1 1 3\n\
        W with grades 1, 2, 3: reduce: 2 0 0 0 1 2 0 1 3 0 0 0 1 0 1 2 1 1 3\n\
        Z with grades 1 and 2: reduce: 2 0 1 1 0 2 1 0 2 0 0 0 1 1 0 2\n\
        # A reduction of a reduction has as many elements.\n\
        W: reduce: 2 0 0 0 1 2 0 1 1 0 0 0 3\n\
        W again: again: 2 0 0 0 1 2 0 1 1 0 0 0 3\n\
        # From some place on only one of two letters comes. An element says which letters occur. Whatever their numbers and the order of the\n\
        # marks are, the same bytes are written, the elements with the first words 0, 1 and 0 1 in this order, the marks by s, then by e.\n\
        one letter, both first: reduce: 3 0 0 0 0 1 0 0 0 2 2 2 1 4 0 0 1 3 2 2 3 0 2 3 1 1 3\n\
        one letter, 1 before 0: reduce: 3 0 2 2 2 1 2 2 2 2 2 1 0 4 0 2 1 3 1 1 3 0 0 3 2 0 3\n\
        one letter, by first words: reduce: 3 0 2 2 2 1 2 2 2 2 2 0 1 4 0 2 1 3 2 0 3 1 1 3 0 0 3\n\
        W with its elements exchanged: reduce: 2 0 1 1 1 2 1 0 1 0 1 1 3\n\
        # A set of letters occurs again and again, with grade 3 where it is even and 0 elsewhere. No two of the 64 sets can stand for each other.\n\
        64 sets of letters: reduce: 64 unions 16 1 2 4 8 16 32 0 1 2 4 8 16 32 0 1 2 109 1 marks\n\
        # The remainders by 64 with the mark (0, 0), every letter of image 1, so that every lasso has grade 3.\n\
        64 remainders: reduce: 64 sums 16 16*1 1 3*0 3\n\
        # How often letter 0 occurs, up to five times, with grade 3 from five on. Blocks split one at a time, so three rounds are needed.\n\
        five times: reduce: 6 0 1 2 3 4 5 1 2 3 4 5 5 2 3 4 5 5 5 3 4 5 5 5 5 4 5 5 5 5 5 5 5 5 5 5 5 2 1 0 2 0 5 0 3 5 5 3\n",
        |line, rule| answer(&rt, line, rule, &mut scratch),
    )
}

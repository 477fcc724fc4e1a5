// Runs `rules::confirm` over rules, reductions and maps, right and wrong ones, and writes a line for each.
#![tactic(auto)]

use rules::{Confirmation, MAP_SIZE, RULE_SIZE, SCRATCH_SIZE};
use std::io;

fn confirmed_line(rt: &impl Print, answer: Confirmation) -> io::Result<()> {
    match answer {
        Confirmation::Yes => print!(rt; "yes\n"),
        Confirmation::No => print!(rt; "no\n"),
        Confirmation::Refused {
            refusal,
            input,
            place,
        } => example_text::refused_line(rt, refusal, input, place),
    }
}

// Asks for what `rules::reduce` writes.
fn own(rt: &impl Print, first: &[u8], scratch: &mut [u8]) -> io::Result<()> {
    let mut out = [9u8; RULE_SIZE];
    let mut map = [9u8; MAP_SIZE];
    let written = rules::reduce(first, &mut out, &mut map, scratch);
    let elements = example_text::byte_at(first, 0) as usize;
    confirmed_line(
        rt,
        rules::confirm(
            first,
            example_text::written_part(written, &out),
            example_text::front(&map, elements),
            scratch,
        ),
    )
}

fn answer(
    rt: &impl Print,
    line: &[u8],
    first: &[u8],
    second: &[u8],
    map: &[u8],
    scratch: &mut [u8],
) -> io::Result<()> {
    example_text::label(rt, line)?;
    match example_text::command(line) {
        b"own" => own(rt, first, scratch),
        _ => confirmed_line(rt, rules::confirm(first, second, map, scratch)),
    }
}

fn run(rt: &impl Print, line: &[u8], scratch: &mut [u8]) -> io::Result<()> {
    let mut first = [0u8; RULE_SIZE];
    let mut second = [0u8; RULE_SIZE];
    let mut map = [0u8; 128];
    let one = example_text::numbers(line, 2, &mut first);
    let two = example_text::numbers(line, 3, &mut second);
    let three = example_text::numbers(line, 4, &mut map);
    if !example_text::command(line).is_empty() {
        answer(
            rt,
            line,
            &first[..one],
            &second[..two],
            &map[..three],
            scratch,
        )?;
    }
    Ok(())
}

fn main(rt: HostRuntime) -> io::Result<()> {
    let mut scratch = [7u8; SCRATCH_SIZE];
    example_text::each_line(
        b"# What the library writes itself.\n\
        W: own: 2 0 0 0 1 2 0 1 1 0 0 0 3\n\
        Z with letter 0 only: own: 2 0 1 1 0 1 1 1 0 0 0 3\n\
        64 remainders: own: 64 sums 16 16*1 1 3*0 3\n\
        64 sets of letters: own: 64 unions 16 1 2 4 8 16 32 0 1 2 4 8 16 32 0 1 2 109 1 marks\n\
        # W is the smallest itself, in either numbering.\n\
        W and itself: confirm: 2 0 0 0 1 2 0 1 1 0 0 0 3: 2 0 0 0 1 2 0 1 1 0 0 0 3: 0 1\n\
        W with its elements exchanged: confirm: 2 0 0 0 1 2 0 1 1 0 0 0 3: 2 0 1 1 1 2 1 0 1 0 1 1 3: 1 0\n\
        W exchanged, and the map not: confirm: 2 0 0 0 1 2 0 1 1 0 0 0 3: 2 0 1 1 1 2 1 0 1 0 1 1 3: 0 1\n\
        # Letters 0 and 1 take turns. The pairs (3, 3) and (4, 4) of the words 0 1 and 1 0 give the pairs (0, 4) and (1, 3) their grades, so these need no\n\
        # mark.\n\
        taking turns: own: 5 2 3 2 2 0 4 2 2 1 2 2 2 2 2 2 0 2 2 3 2 2 1 2 2 4 2 0 1 2 0 3 3 3 4 4 3\n\
        all marks: confirm: 5 2 3 2 2 0 4 2 2 1 2 2 2 2 2 2 0 2 2 3 2 2 1 2 2 4 2 0 1 2 0 3 3 3 4 4 3: 5 2 3 2 2 0 4 2 2 1 2 2 2 2 2 2 0 2 2 3 2 2 1 2 2 4 2 0 1 4 0 0 4 3 1 3 3 3 3 3 4 4 3: 0 1 2 3 4\n\
        marks left out that others give: confirm: 5 2 3 2 2 0 4 2 2 1 2 2 2 2 2 2 0 2 2 3 2 2 1 2 2 4 2 0 1 4 0 0 4 3 1 3 3 3 3 3 4 4 3: 5 2 3 2 2 0 4 2 2 1 2 2 2 2 2 2 0 2 2 3 2 2 1 2 2 4 2 0 1 2 0 0 4 3 1 3 3: 0 1 2 3 4\n\
        marks left out that none gives: confirm: 5 2 3 2 2 0 4 2 2 1 2 2 2 2 2 2 0 2 2 3 2 2 1 2 2 4 2 0 1 4 0 0 4 3 1 3 3 3 3 3 4 4 3: 5 2 3 2 2 0 4 2 2 1 2 2 2 2 2 2 0 2 2 3 2 2 1 2 2 4 2 0 1 1 0 3 3 3: 0 1 2 3 4\n\
        # Z with letter 0 only has one lasso, so one element is enough.\n\
        one element: confirm: 2 0 1 1 0 1 1 1 0 0 0 3: 1 0 1 0 1 0 0 0 3: 0 0\n\
        one element too many: confirm: 2 0 1 1 0 1 1 1 0 0 0 3: 2 0 1 1 0 1 1 1 0 0 0 3: 0 1\n\
        another grade: confirm: 2 0 1 1 0 1 1 1 0 0 0 3: 1 0 1 0 1 0 0 0 2: 0 0\n\
        a byte too few: confirm: 2 0 1 1 0 1 1 1 0 0 0 3: 1 0 1 0 1 0 0 0 3: 0\n\
        a byte too many: confirm: 2 0 1 1 0 1 1 1 0 0 0 3: 1 0 1 0 1 0 0 0 3: 0 0 0\n\
        no byte: confirm: 2 0 1 1 0 1 1 1 0 0 0 3: 1 0 1 0 1 0 0 0 3\n\
        a foreign number: confirm: 2 0 1 1 0 1 1 1 0 0 0 3: 1 0 1 0 1 0 0 0 3: 0 1\n\
        # A map that is not onto, one that does not carry products, one that does not carry letters.\n\
        not onto: confirm: 1 0 2 0 0 1 0 0 0 3: 2 0 0 0 1 2 0 1 1 0 0 0 3: 0\n\
        other letters: confirm: 2 0 0 0 1 2 0 1 1 0 0 0 3: 2 0 0 0 1 2 1 0 1 0 0 0 3: 0 1\n\
        other products: confirm: 2 0 0 0 1 2 0 1 1 0 0 0 3: 2 0 0 0 1 2 0 1 1 0 0 0 3: 1 0\n\
        # No is for a weak second and for other letter counts; 12 of the first comes before any no, and the files' own refusals before 12.\n\
        letters 2 against 1: confirm: 2 0 0 0 1 2 0 1 1 0 0 0 3: 1 0 1 0 1 0 0 0 3: 0 0\n\
        a weak second: confirm: 2 0 0 0 1 2 0 1 1 0 0 0 3: 2 0 1 1 0 2 1 0 1 0 0 0 3: 0 1\n\
        a weak first: confirm: 2 0 1 1 0 2 1 0 1 0 0 0 3: 2 0 0 0 1 2 0 1 1 0 0 0 3: 0\n\
        both weak: confirm: 2 0 1 1 0 2 1 0 1 0 0 0 3: 2 0 1 1 0 2 1 0 1 0 0 0 3: 0 1\n\
        a second that is not associative: confirm: 2 0 1 1 0 2 1 0 1 0 0 0 3: 2 1 0 0 0 1 0 0 0: 0 1\n\
        a second with an element that no word has: confirm: 2 0 0 0 1 2 0 1 1 0 0 0 3: 2 0 0 0 1 1 0 0 0: 0 1\n\
        a first that is cut: confirm: 2 0 0 0: 2 1 0 0 0 1 0 0 0: 0 1\n",
        |line| run(&rt, line, &mut scratch),
    )
}

// Runs `rules::inspect` over document 01's small rules and over files with one fault or two, and writes a line for each: its
// counts, or the number and the place of its refusal. W is the file 2 0 0 0 1 2 0 1 1 0 0 0 3: a byte for the number of its
// elements, 4 for their products, 3 for the letters, 2 for the number of marks and 3 for its mark, the last its grade.
#![tactic(auto)]

use rules::{Inspected, RULE_SIZE, SCRATCH_SIZE};
use std::io;

// A file has room for one byte more than it may have.
const FILE_SIZE: usize = RULE_SIZE + 1;

fn answer_line(rt: &impl Print, answer: Inspected) -> io::Result<()> {
    match answer {
        Inspected::Rule {
            elements,
            letters,
            marks,
        } => println!(rt; "elements {elements} letters {letters} marks {marks}"),
        Inspected::Refused {
            refusal,
            input: _,
            place,
        } => println!(rt; "refused {} at {place}", rules::number(refusal)),
    }
}

// An example asks for scratch of its full size, or for scratch that is a byte too short.
fn answer(
    rt: &impl Print,
    line: &[u8],
    rule: &[u8],
    scratch: &mut [u8],
    short: &mut [u8],
) -> io::Result<()> {
    example_text::label(rt, line)?;
    match example_text::command(line) {
        b"short" => answer_line(rt, rules::inspect(rule, short)),
        _ => answer_line(rt, rules::inspect(rule, scratch)),
    }
}

fn main(rt: HostRuntime) -> io::Result<()> {
    let mut scratch = [0u8; SCRATCH_SIZE];
    let mut short = [0u8; SCRATCH_SIZE - 1];
    example_text::each_example::<FILE_SIZE, _>(
        b"# The rules of document 01, a mark of W that is not linked, and a byte after W.\n\
        W: inspect: 2 0 0 0 1 2 0 1 1 0 0 0 3\n\
        M8: inspect: 2 1 0 0 0 1 0 0 0\n\
        M9: inspect: 2 0 0 0 1 1 0 0 0\n\
        W with mark (1, 0): inspect: 2 0 0 0 1 2 0 1 1 0 1 0 3\n\
        a byte after W: inspect: 2 0 0 0 1 2 0 1 1 0 0 0 3 0\n\
        # Counts at the ends of their ranges and past them.\n\
        0 elements: inspect: 0\n\
        65 elements: inspect: 65\n\
        1 element: inspect: 1 0 1 0 0 0\n\
        0 letters: inspect: 1 0 0\n\
        17 letters: inspect: 1 0 17\n\
        # The remainders by 64, where the first letter stands for 1, of which every element is a multiple.\n\
        64 elements, 16 letters: inspect: 64 sums 16 1 17*0\n\
        # Counts of marks.\n\
        one byte of the marks' count: inspect: 2 0 0 0 1 2 0 1 1\n\
        4,096 marks, none there: inspect: 2 0 0 0 1 2 0 1 0 16\n\
        4,097 marks: inspect: 2 0 0 0 1 2 0 1 1 16\n\
        # Every cut of W.\n\
        W cut to 0: inspect\n\
        W cut to 1: inspect: 2\n\
        W cut to 2: inspect: 2 0\n\
        W cut to 3: inspect: 2 0 0\n\
        W cut to 4: inspect: 2 0 0 0\n\
        W cut to 5: inspect: 2 0 0 0 1\n\
        W cut to 6: inspect: 2 0 0 0 1 2\n\
        W cut to 7: inspect: 2 0 0 0 1 2 0\n\
        W cut to 8: inspect: 2 0 0 0 1 2 0 1\n\
        W cut to 9: inspect: 2 0 0 0 1 2 0 1 1\n\
        W cut to 10: inspect: 2 0 0 0 1 2 0 1 1 0\n\
        W cut to 11: inspect: 2 0 0 0 1 2 0 1 1 0 0\n\
        W cut to 12: inspect: 2 0 0 0 1 2 0 1 1 0 0 0\n\
        # Entries that name no element; the last of these files ends before its letters, too.\n\
        a product that is no element: inspect: 2 0 0 2 1 2 0 1 1 0 0 0 3\n\
        a letter that has no element: inspect: 2 0 0 0 1 2 0 2 1 0 0 0 3\n\
        a mark that is no pair: inspect: 2 0 0 0 1 2 0 1 1 0 0 2 3\n\
        a product that is no element, and no letters' section: inspect: 2 0 0 2 1\n\
        # Grades at the ends of their range and past them; a mark's grade comes after its pair and before the next mark.\n\
        a grade of 0: inspect: 2 0 0 0 1 2 0 1 1 0 0 0 0\n\
        a grade of 1: inspect: 2 0 0 0 1 2 0 1 1 0 0 0 1\n\
        a grade of 4: inspect: 2 0 0 0 1 2 0 1 1 0 0 0 4\n\
        a mark that is no pair, with a grade of 0: inspect: 2 0 0 0 1 2 0 1 1 0 2 0 0\n\
        a grade of 4, then a mark that is no pair: inspect: 2 0 0 0 1 2 0 1 2 0 0 0 4 2 0 3\n\
        # Marks with a fault, and with two; 7 comes before 8 pair by pair.\n\
        a pair marked twice: inspect: 2 0 0 0 1 2 0 1 2 0 0 0 3 0 0 3\n\
        a pair marked twice, with two grades: inspect: 2 0 0 0 1 2 0 1 2 0 0 0 3 0 0 1\n\
        an unlinked pair marked twice: inspect: 2 0 0 0 1 2 0 1 2 0 1 0 3 1 0 3\n\
        a pair twice, then an unlinked one: inspect: 2 0 0 0 1 2 0 1 3 0 0 0 3 0 0 3 1 0 3\n\
        a pair, an unlinked one, the pair again: inspect: 2 0 0 0 1 2 0 1 3 0 0 0 3 1 0 3 0 0 3\n\
        # The longest file has 16,404 bytes. Here it has the sets of six letters under union, and the pair (3, 3) with grade 3, 4,096 times.\n\
        16,404 bytes: inspect: 64 unions 16 1 2 4 8 16 32 10*0 0 16 12288*3\n\
        16,403 bytes: inspect: 64 unions 16 1 2 4 8 16 32 10*0 0 16 12287*3\n\
        16,405 bytes: inspect: 64 unions 16 1 2 4 8 16 32 10*0 0 16 12289*3\n\
        # Two faults of different kinds; 4 comes before 5 and 6 before 7.\n\
        a byte after M8: inspect: 2 1 0 0 0 1 0 0 0 9\n\
        M9 with mark (1, 0): inspect: 2 0 0 0 1 1 0 1 0 1 0 3\n\
        # Scratch that is a byte too short; 13 comes before all others.\n\
        W, scratch of 65,535 bytes: short: 2 0 0 0 1 2 0 1 1 0 0 0 3\n\
        an empty file, scratch of 65,535 bytes: short\n",
        |line, rule| answer(&rt, line, rule, &mut scratch, &mut short),
    )
}

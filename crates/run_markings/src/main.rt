// Runs the calls on a rule's marks, `rules::list_classes`, `rules::strong`, `rules::complement`, `rules::included` and
// `rules::verdict`, over document 01's small rules and over the largest, and writes a line for each.
#![tactic(auto)]

use rules::{
    CYCLE_SIZE, Inclusion, Listed, Monitor, RULE_SIZE, SCRATCH_SIZE, START_SIZE, Strength, Written,
};
use std::io;

fn classes_line(rt: &impl Print, answer: Listed) -> io::Result<()> {
    match answer {
        Listed::Counts {
            linked,
            classes,
            joins,
        } => println!(rt; "linked {linked} classes {classes} joins {joins}"),
        Listed::Refused {
            refusal,
            input,
            place,
        } => example_text::refused_line(rt, refusal, input, place),
    }
}

fn strength_line(rt: &impl Print, answer: Strength) -> io::Result<()> {
    match answer {
        Strength::Strong => print!(rt; "strong\n"),
        Strength::Weak => print!(rt; "weak\n"),
        Strength::Refused {
            refusal,
            input,
            place,
        } => example_text::refused_line(rt, refusal, input, place),
    }
}

// A complement is written out where it is short, and else told by its length.
fn complement_line(rt: &impl Print, answer: Written, out: &[u8]) -> io::Result<()> {
    match answer {
        Written::Rule(length) => {
            print!(rt; "complement of bytes {length}")?;
            if length < 64 {
                example_text::row(rt, b":", out, length)?;
            }
            print!(rt; "\n")
        }
        Written::Refused {
            refusal,
            input,
            place,
        } => example_text::refused_line(rt, refusal, input, place),
    }
}

// The lengths of a witness, and its letters where they are few.
fn witness_line(
    rt: &impl Print,
    u: &[u8],
    u_letters: usize,
    v: &[u8],
    v_letters: usize,
) -> io::Result<()> {
    print!(rt; "not included: u of {u_letters}, v of {v_letters}")?;
    if v_letters < 10 {
        example_text::row(rt, b": u", u, u_letters)?;
        example_text::row(rt, b" v", v, v_letters)?;
    }
    print!(rt; "\n")
}

fn inclusion_line(rt: &impl Print, answer: Inclusion, u: &[u8], v: &[u8]) -> io::Result<()> {
    match answer {
        Inclusion::Included => print!(rt; "included\n"),
        Inclusion::NotIncluded {
            u: u_letters,
            v: v_letters,
        } => witness_line(rt, u, u_letters, v, v_letters),
        Inclusion::Refused {
            refusal,
            input,
            place,
        } => example_text::refused_line(rt, refusal, input, place),
    }
}

fn classes(rt: &impl Print, rule: &[u8], scratch: &mut [u8]) -> io::Result<()> {
    let mut out = [9u8; RULE_SIZE];
    classes_line(rt, rules::list_classes(rule, &mut out, scratch))
}

fn complement(rt: &impl Print, rule: &[u8], scratch: &mut [u8]) -> io::Result<()> {
    let mut out = [9u8; RULE_SIZE];
    complement_line(rt, rules::complement(rule, &mut out, scratch), &out)
}

fn inclusion(rt: &impl Print, rule: &[u8], second: &[u8], scratch: &mut [u8]) -> io::Result<()> {
    let mut u = [9u8; START_SIZE];
    let mut v = [9u8; CYCLE_SIZE];
    inclusion_line(
        rt,
        rules::included(rule, second, &mut u, &mut v, scratch),
        &u,
        &v,
    )
}

// The verdict on the lassos with two values.
fn verdict(
    rt: &impl Print,
    rule: &[u8],
    before: usize,
    since: usize,
    scratch: &mut [u8],
) -> io::Result<()> {
    print!(rt; "before {before} since {since} ")?;
    example_text::verdict_line(rt, rules::verdict(rule, Monitor { before, since }, scratch))
}

// The marks of the second marking of an inclusion are a list of their own.
fn inclusion_of(rt: &impl Print, line: &[u8], rule: &[u8], scratch: &mut [u8]) -> io::Result<()> {
    let mut second = [0u8; 64];
    let length = example_text::numbers(line, 3, &mut second);
    inclusion(rt, rule, &second[..length], scratch)
}

fn answer(rt: &impl Print, line: &[u8], rule: &[u8], scratch: &mut [u8]) -> io::Result<()> {
    example_text::label(rt, line)?;
    match example_text::command(line) {
        b"complement" => complement(rt, rule, scratch),
        b"inclusion" => inclusion_of(rt, line, rule, scratch),
        b"list" => classes(rt, rule, scratch),
        b"strength" => strength_line(rt, rules::strong(rule, scratch)),
        _ => verdict(
            rt,
            rule,
            example_text::number(line, 3),
            example_text::number(line, 4),
            scratch,
        ),
    }
}

fn main(rt: HostRuntime) -> io::Result<()> {
    let mut scratch = [7u8; SCRATCH_SIZE];
    example_text::each_example::<4224, _>(
        b"M1 W: list: 2 0 0 0 1 2 0 1 1 0 0 0 3\n\
        M1 W: strength: 2 0 0 0 1 2 0 1 1 0 0 0 3\n\
        M1 W: complement: 2 0 0 0 1 2 0 1 1 0 0 0 3\n\
        M5, M6 Z: list: 2 0 1 1 0 2 1 0 1 0 0 0 3\n\
        M5, M6 Z: strength: 2 0 1 1 0 2 1 0 1 0 0 0 3\n\
        M5, M6 Z: complement: 2 0 1 1 0 2 1 0 1 0 0 0 3\n\
        M7 Z with letter 0 only: list: 2 0 1 1 0 1 1 1 0 0 0 3\n\
        M7 Z with letter 0 only: strength: 2 0 1 1 0 1 1 1 0 0 0 3\n\
        M7 Z with letter 0 only: complement: 2 0 1 1 0 1 1 1 0 0 0 3\n\
        # Letter 0 alone from some place on. The elements, both letters, letter 1, letter 0, are not numbered by first words, and the complement\n\
        # keeps them so; its marks stand by s, then by e, in whatever order the rule lists its own.\n\
        letter 0 alone: complement: 3 0 0 0 0 1 0 0 0 2 2 2 1 2 0 2 2 3 0 2 3\n\
        letter 0 alone, marks by s: complement: 3 0 0 0 0 1 0 0 0 2 2 2 1 2 0 0 2 3 2 2 3\n\
        # Grades 1, 2 and 3 on the linked pairs of W. Every lasso of Z with grades 1 and 2 has grade 1 or more, but equal values have grades 1 and 2.\n\
        # With letter 0 only there is one endless word, and it has the higher grade.\n\
        W with grades 1, 2, 3: strength: 2 0 0 0 1 2 0 1 3 0 0 0 1 0 1 2 1 1 3\n\
        W with grades 1, 2, 3: complement: 2 0 0 0 1 2 0 1 3 0 0 0 1 0 1 2 1 1 3\n\
        Z with grades 1 and 2: strength: 2 0 1 1 0 2 1 0 2 0 0 0 1 1 0 2\n\
        Z with grades 1 and 2: complement: 2 0 1 1 0 2 1 0 2 0 0 0 1 1 0 2\n\
        Z with letter 0 only, grade 2: strength: 2 0 1 1 0 1 1 1 0 0 0 2\n\
        Z with letter 0 only, grade 2: complement: 2 0 1 1 0 1 1 1 0 0 0 2\n\
        Z with letter 0 only, grades 1 and 2: strength: 2 0 1 1 0 1 1 2 0 0 0 1 1 0 2\n\
        Z with letter 0 only, grades 1 and 2: complement: 2 0 1 1 0 1 1 2 0 0 0 1 1 0 2\n\
        M8: list: 2 1 0 0 0 1 0 0 0\n\
        M8: strength: 2 1 0 0 0 1 0 0 0\n\
        M8: complement: 2 1 0 0 0 1 0 0 0\n\
        W in W with all pairs: inclusion: 2 0 0 0 1 2 0 1 1 0 0 0 3: 3 0 0 0 3 0 1 3 1 1 3\n\
        W with all pairs in W: inclusion: 2 0 0 0 1 2 0 1 3 0 0 0 3 0 1 3 1 1 3: 1 0 0 0 3\n\
        Z in no marks: inclusion: 2 0 1 1 0 2 1 0 1 0 0 0 3: 0 0\n\
        a pair with 3 for 2: inclusion: 2 0 0 0 1 2 0 1 3 0 0 0 1 0 1 3 1 1 3: 3 0 0 0 1 0 1 2 1 1 3\n\
        a pair with 2 for 3: inclusion: 2 0 0 0 1 2 0 1 3 0 0 0 1 0 1 2 1 1 3: 3 0 0 0 1 0 1 3 1 1 3\n\
        second marks cut short: inclusion: 2 0 0 0 1 2 0 1 1 0 0 0 3: 1 0 0\n\
        second marks not linked: inclusion: 2 0 0 0 1 2 0 1 1 0 0 0 3: 2 0 0 0 3 1 0 3\n\
        second marks with a grade of 0: inclusion: 2 0 0 0 1 2 0 1 1 0 0 0 3: 1 0 0 0 0\n\
        a second pair twice, with two grades: inclusion: 2 0 0 0 1 2 0 1 1 0 0 0 3: 2 0 0 0 3 0 0 1\n\
        W: verdict: 2 0 0 0 1 2 0 1 1 0 0 0 3: 1: 0\n\
        W: verdict: 2 0 0 0 1 2 0 1 1 0 0 0 3: 0: 1\n\
        W: verdict: 2 0 0 0 1 2 0 1 1 0 0 0 3: 64: 0\n\
        W: verdict: 2 0 0 0 1 2 0 1 1 0 0 0 3: 64: 1\n\
        W: verdict: 2 0 0 0 1 2 0 1 1 0 0 0 3: 0: 64\n\
        W: verdict: 2 0 0 0 1 2 0 1 1 0 0 0 3: 64: 64\n\
        W: verdict: 2 0 0 0 1 2 0 1 1 0 0 0 3: 2: 0\n\
        W with grades 1, 2, 3: verdict: 2 0 0 0 1 2 0 1 3 0 0 0 1 0 1 2 1 1 3: 1: 0\n\
        W with grades 1, 2, 3: verdict: 2 0 0 0 1 2 0 1 3 0 0 0 1 0 1 2 1 1 3: 0: 1\n\
        W with grades 1, 2, 3: verdict: 2 0 0 0 1 2 0 1 3 0 0 0 1 0 1 2 1 1 3: 64: 1\n\
        Z with grades 1 and 2: verdict: 2 0 1 1 0 2 1 0 2 0 0 0 1 1 0 2: 0: 0\n\
        Z with letter 0 only, grades 1 and 2: verdict: 2 0 1 1 0 1 1 2 0 0 0 1 1 0 2: 0: 1\n\
        Z: verdict: 2 0 1 1 0 2 1 0 1 0 0 0 3: 0: 0\n\
        M7 Z with letter 0 only: verdict: 2 0 1 1 0 1 1 1 0 0 0 3: 0: 1\n\
        M7 Z with letter 0 only: verdict: 2 0 1 1 0 1 1 1 0 0 0 3: 1: 0\n\
        Z without marks: verdict: 2 0 1 1 0 2 1 0 0 0: 0: 1\n\
        # The remainders by 64 under addition, with one letter of image 1 and the mark (0, 0).\n\
        cyclic group of 64: list: 64 sums 1 1 1 3*0 3\n\
        cyclic group of 64: strength: 64 sums 1 1 1 3*0 3\n\
        cyclic group of 64: complement: 64 sums 1 1 1 3*0 3\n\
        cyclic group in no marks: inclusion: 64 sums 1 1 1 3*0 3: 0 0\n\
        # Strong, and not closed. The verdict tries s + 1 states at each start value s, 2,080 in all.\n\
        cyclic group of 64, 16 letters: list: 64 sums 16 16*1 1 3*0 3\n\
        cyclic group of 64, 16 letters: strength: 64 sums 16 16*1 1 3*0 3\n\
        cyclic group of 64, 16 letters: complement: 64 sums 16 16*1 1 3*0 3\n\
        cyclic group of 64, 16 letters: verdict: 64 sums 16 16*1 1 3*0 3: 5: 7\n\
        cyclic group of 64, 16 letters: verdict: 64 sums 16 16*1 1 3*0 3: 7: 48\n\
        cyclic group of 64 without marks: verdict: 64 sums 1 1 0 0: 0: 1\n\
        # Every letter with both remainders, and four of them again. The mark is that of the longer words with remainder 0.\n\
        words and remainders by 2: list: 64 words 16 0 1 2 3 4 5 6 7 8 9 10 11 0 1 2 3 1 0 62 62 3\n\
        words and remainders by 2: strength: 64 words 16 0 1 2 3 4 5 6 7 8 9 10 11 0 1 2 3 1 0 62 62 3\n\
        words and remainders by 2: complement: 64 words 16 0 1 2 3 4 5 6 7 8 9 10 11 0 1 2 3 1 0 62 62 3\n\
        words and remainders by 2 in no marks: inclusion: 64 words 16 0 1 2 3 4 5 6 7 8 9 10 11 0 1 2 3 1 0 62 62 3: 0 0\n",
        |line, rule| answer(&rt, line, rule, &mut scratch),
    )
}

// Runs `rules::first_letter`, `constant`, `next` and `until` over small rules, and writes a line for each: the bytes that were written, or the
// grades that a lasso has by two rules, by `next` of the first and by `until` of both.
#![tactic(auto)]

use rules::{LassoVerdict, RULE_SIZE, SCRATCH_SIZE, UNTIL_CLASSES_SIZE};
use std::io;

fn first_letter(rt: &impl Print, line: &[u8]) -> io::Result<()> {
    let mut out = [9u8; RULE_SIZE];
    let answer = rules::first_letter(
        example_text::number(line, 2),
        example_text::number(line, 3),
        example_text::number(line, 4),
        &mut out,
    );
    example_text::written_line(rt, answer, &out, 80)
}

fn constant(rt: &impl Print, line: &[u8]) -> io::Result<()> {
    let mut out = [9u8; RULE_SIZE];
    let answer = rules::constant(
        example_text::number(line, 2),
        example_text::number(line, 3),
        &mut out,
    );
    example_text::written_line(rt, answer, &out, 80)
}

fn next(rt: &impl Print, first: &[u8], scratch: &mut [u8]) -> io::Result<()> {
    let mut out = [9u8; RULE_SIZE];
    let answer = rules::next(first, &mut out, scratch);
    example_text::written_line(rt, answer, &out, 80)
}

fn until(
    rt: &impl Print,
    first: &[u8],
    second: &[u8],
    classes: &mut [u8],
    scratch: &mut [u8],
) -> io::Result<()> {
    let mut out = [9u8; RULE_SIZE];
    let answer = rules::until(first, second, &mut out, classes, scratch);
    example_text::written_line(rt, answer, &out, 80)
}

// The grade of a lasso, or 9 for a refusal.
fn grade_of(answer: LassoVerdict) -> usize {
    let LassoVerdict::Decided { grade, turns: _ } = answer else {
        return 9;
    };
    grade
}

fn next_grade(first: &[u8], u: &[u8], v: &[u8], scratch: &mut [u8]) -> usize {
    let mut out = [9u8; RULE_SIZE];
    let written = rules::next(first, &mut out, scratch);
    let later = example_text::written_part(written, &out);
    grade_of(rules::member(later, u, v, scratch))
}

fn until_grade(
    first: &[u8],
    second: &[u8],
    u: &[u8],
    v: &[u8],
    classes: &mut [u8],
    scratch: &mut [u8],
) -> usize {
    let mut out = [9u8; RULE_SIZE];
    let written = rules::until(first, second, &mut out, classes, scratch);
    let either = example_text::written_part(written, &out);
    grade_of(rules::member(either, u, v, scratch))
}

// The grades of a lasso by both rules.
fn two_grades(
    rt: &impl Print,
    first: &[u8],
    second: &[u8],
    u: &[u8],
    v: &[u8],
    scratch: &mut [u8],
) -> io::Result<()> {
    let one = grade_of(rules::member(first, u, v, scratch));
    let two = grade_of(rules::member(second, u, v, scratch));
    print!(rt; "first {one}, second {two}")
}

fn grades(
    rt: &impl Print,
    line: &[u8],
    first: &[u8],
    second: &[u8],
    classes: &mut [u8],
    scratch: &mut [u8],
) -> io::Result<()> {
    let mut u = [0u8; 16];
    let mut v = [0u8; 16];
    let m = example_text::numbers(line, 4, &mut u);
    let n = example_text::numbers(line, 5, &mut v);
    two_grades(rt, first, second, &u[..m], &v[..n], scratch)?;
    let later = next_grade(first, &u[..m], &v[..n], scratch);
    let either = until_grade(first, second, &u[..m], &v[..n], classes, scratch);
    println!(rt; ", next {later}, until {either}")
}

fn answer(
    rt: &impl Print,
    line: &[u8],
    first: &[u8],
    second: &[u8],
    classes: &mut [u8],
    scratch: &mut [u8],
) -> io::Result<()> {
    example_text::label(rt, line)?;
    match example_text::command(line) {
        b"next" => next(rt, first, scratch),
        b"until" => until(rt, first, second, classes, scratch),
        b"grades" => grades(rt, line, first, second, classes, scratch),
        b"first" => first_letter(rt, line),
        _ => constant(rt, line),
    }
}

fn run(rt: &impl Print, line: &[u8], classes: &mut [u8], scratch: &mut [u8]) -> io::Result<()> {
    let mut first = [0u8; RULE_SIZE];
    let mut second = [0u8; RULE_SIZE];
    let one = example_text::numbers(line, 2, &mut first);
    let two = example_text::numbers(line, 3, &mut second);
    if !example_text::command(line).is_empty() {
        answer(rt, line, &first[..one], &second[..two], classes, scratch)?;
    }
    Ok(())
}

fn main(rt: HostRuntime) -> io::Result<()> {
    let mut classes = [5u8; UNTIL_CLASSES_SIZE];
    let mut scratch = [7u8; SCRATCH_SIZE];
    example_text::each_line(
        b"# Grades of a lasso by the first rule, by the second, by `next` of the first and by `until` of both. Letter 0 first has grade 2, letter 1 first has 3.\n\
        two letters, u none, v 0 1: grades: 2 0 0 1 1 2 0 1 2 0 0 0 2 0 1 2: 2 0 0 1 1 2 0 1 2 0 1 0 3 1 1 3: : 0 1\n\
        two letters, u 0, v 1: grades: 2 0 0 1 1 2 0 1 2 0 0 0 2 0 1 2: 2 0 0 1 1 2 0 1 2 0 1 0 3 1 1 3: 0: 1\n\
        two letters, u 0 0, v 1: grades: 2 0 0 1 1 2 0 1 2 0 0 0 2 0 1 2: 2 0 0 1 1 2 0 1 2 0 1 0 3 1 1 3: 0 0: 1\n\
        # Over three letters, letter 0 first has grade 2, letter 1 first has 1.\n\
        three letters, u none, v 0 1: grades: 2 0 0 1 1 3 0 1 1 2 0 0 0 2 0 1 2: 2 0 0 1 1 3 0 1 0 2 0 1 0 1 1 1 1: : 0 1\n\
        three letters, u 0 2, v 1: grades: 2 0 0 1 1 3 0 1 1 2 0 0 0 2 0 1 2: 2 0 0 1 1 3 0 1 0 2 0 1 0 1 1 1 1: 0 2: 1\n\
        # A rule with a group gives 3 where an even number of letters 0 comes before the first letter 1, 1 where no letter 1 comes, else 0.\n\
        letter 0 first, then the group, u none, v 0 1: grades: 2 0 0 1 1 2 0 1 2 0 0 0 2 0 1 2: 4 0 1 2 3 1 0 3 2 2 2 2 2 3 3 3 3 2 1 2 5 0 2 0 3 2 2 3 2 3 3 0 0 1 1 0 1: : 0 1\n\
        three grades, then the group, u 0, v 1: grades: 2 0 0 0 1 2 0 1 3 0 0 0 3 0 1 2 1 1 1: 4 0 1 2 3 1 0 3 2 2 2 2 2 3 3 3 3 2 1 2 5 0 2 0 3 2 2 3 2 3 3 0 0 1 1 0 1: 0: 1\n\
        the group, then three grades, u 0, v 1: grades: 4 0 1 2 3 1 0 3 2 2 2 2 2 3 3 3 3 2 1 2 5 0 2 0 3 2 2 3 2 3 3 0 0 1 1 0 1: 2 0 0 0 1 2 0 1 3 0 0 0 3 0 1 2 1 1 1: 0: 1\n\
        # The bytes that are written.\n\
        next of letter 0 first: next: 2 0 0 1 1 2 0 1 2 0 0 0 2 0 1 2\n\
        next of W, which no finite beginning changes: next: 2 0 0 0 1 2 0 1 1 0 0 0 3\n\
        next of the group: next: 4 0 1 2 3 1 0 3 2 2 2 2 2 3 3 3 3 2 1 2 5 0 2 0 3 2 2 3 2 3 3 0 0 1 1 0 1\n\
        letter 0 first until letter 1 first: until: 2 0 0 1 1 2 0 1 2 0 0 0 2 0 1 2: 2 0 0 1 1 2 0 1 2 0 1 0 3 1 1 3\n\
        letter 1 first until letter 0 first: until: 2 0 0 1 1 2 0 1 2 0 1 0 3 1 1 3: 2 0 0 1 1 2 0 1 2 0 0 0 2 0 1 2\n\
        letter 0 first until W: until: 2 0 0 1 1 2 0 1 2 0 0 0 2 0 1 2: 2 0 0 0 1 2 0 1 1 0 0 0 3\n\
        letter 0 of 2: first: 2: 1: 3\n\
        letters 0 and 2 of 3: first: 3: 5: 2\n\
        no letter: first: 3: 0: 2\n\
        every letter: first: 3: 7: 2\n\
        letter 0 with grade 0: first: 2: 1: 0\n\
        grade 1 of 2: constant: 2: 1\n\
        grade 0 of 1: constant: 1: 0\n\
        # At most 64 elements. The remainders by 15 with four letters have 64 of `next`, those by 64 with one letter 65.\n\
        next, 64: next: 15 0 1 2 3 4 5 6 7 8 9 10 11 12 13 14 1 2 3 4 5 6 7 8 9 10 11 12 13 14 0 2 3 4 5 6 7 8 9 10 11 12 13 14 0 1 3 4 5 6 7 8 9 10 11 12 13 14 0 1 2 4 5 6 7 8 9 10 11 12 13 14 0 1 2 3 5 6 7 8 9 10 11 12 13 14 0 1 2 3 4 6 7 8 9 10 11 12 13 14 0 1 2 3 4 5 7 8 9 10 11 12 13 14 0 1 2 3 4 5 6 8 9 10 11 12 13 14 0 1 2 3 4 5 6 7 9 10 11 12 13 14 0 1 2 3 4 5 6 7 8 10 11 12 13 14 0 1 2 3 4 5 6 7 8 9 11 12 13 14 0 1 2 3 4 5 6 7 8 9 10 12 13 14 0 1 2 3 4 5 6 7 8 9 10 11 13 14 0 1 2 3 4 5 6 7 8 9 10 11 12 14 0 1 2 3 4 5 6 7 8 9 10 11 12 13 4 1 2 3 4 0 0\n\
        next, 65: next: 64 sums 1 1 1 3*0 3\n\
        until, 64: until: 64 sums 1 1 1 3*0 3: 64 sums 1 1 1 3*0 3\n\
        # First both files' own refusals, then 18, then 12 of the first, then of the second, then 19.\n\
        a weak rule: next: 2 0 1 1 0 2 1 0 1 0 0 0 3\n\
        a rule that is cut: next: 2 0 0\n\
        letters 2 against 1: until: 2 0 0 0 1 2 0 1 1 0 0 0 3: 2 0 1 1 0 1 1 1 0 0 0 3\n\
        a weak first: until: 2 0 1 1 0 2 1 0 1 0 0 0 3: 2 0 0 0 1 2 0 1 1 0 0 0 3\n\
        a weak second: until: 2 0 0 0 1 2 0 1 1 0 0 0 3: 2 0 1 1 0 2 1 0 1 0 0 0 3\n\
        both weak: until: 2 0 1 1 0 2 1 0 1 0 0 0 3: 2 0 1 1 0 2 1 0 1 0 0 0 3\n\
        a second that is not associative: until: 2 0 1 1 0 2 1 0 1 0 0 0 3: 2 1 0 0 0 1 0 0 0\n\
        64 and 3: until: 64 sums 1 1 1 3*0 3: 3 0 1 2 1 2 0 2 0 1 1 1 1 0 0 0 3\n\
        letter 2 of 2: first: 2: 4: 3\n\
        0 letters: first: 0: 0: 3\n\
        17 letters: constant: 17: 3\n\
        grade 4: first: 2: 1: 4\n\
        grade 4 of every lasso: constant: 2: 4\n",
        |line| run(&rt, line, &mut classes, &mut scratch),
    )
}

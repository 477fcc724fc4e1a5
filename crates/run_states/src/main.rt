// Runs `rules::state_kind` and `rules::successors` over the automata of small rules, weak ones too, and writes a line for each.
#![tactic(auto)]

use rules::{SCRATCH_SIZE, SUCCESSORS_SIZE, StateKind, SuccessorList};
use std::io;

fn kind_line(rt: &impl Print, answer: StateKind) -> io::Result<()> {
    match answer {
        StateKind::Plain => print!(rt; "plain\n"),
        StateKind::Initial => print!(rt; "initial\n"),
        StateKind::Final => print!(rt; "final\n"),
        StateKind::Refused {
            refusal,
            input,
            place,
        } => example_text::refused_line(rt, refusal, input, place),
    }
}

fn list_line(rt: &impl Print, answer: SuccessorList, out: &[u8]) -> io::Result<()> {
    match answer {
        SuccessorList::Listed(count) => {
            example_text::row(rt, b"leads to", out, count)?;
            print!(rt; "\n")
        }
        SuccessorList::Refused {
            refusal,
            input,
            place,
        } => example_text::refused_line(rt, refusal, input, place),
    }
}

fn tell_list(
    rt: &impl Print,
    rule: &[u8],
    s: usize,
    e: usize,
    letter: u8,
    scratch: &mut [u8],
) -> io::Result<()> {
    let mut out = [9u8; SUCCESSORS_SIZE];
    list_line(
        rt,
        rules::successors(rule, s, e, letter, &mut out, scratch),
        &out,
    )
}

// The last number of a line is the least grade for a kind, and the letter for the states that it leads to.
fn answer(rt: &impl Print, line: &[u8], rule: &[u8], scratch: &mut [u8]) -> io::Result<()> {
    let s = example_text::number(line, 3);
    let e = example_text::number(line, 4);
    let last = example_text::byte(line, 5);
    example_text::label(rt, line)?;
    match example_text::command(line) {
        b"kind" => kind_line(rt, rules::state_kind(rule, s, e, last, scratch)),
        _ => tell_list(rt, rule, s, e, last, scratch),
    }
}

fn main(rt: HostRuntime) -> io::Result<()> {
    let mut scratch = [7u8; SCRATCH_SIZE];
    example_text::each_example::<64, _>(
        b"W (0, 0): kind: 2 0 0 0 1 2 0 1 1 0 0 0 3: 0: 0: 3\n\
        W (0, 1): kind: 2 0 0 0 1 2 0 1 1 0 0 0 3: 0: 1: 1\n\
        W (none, 1): kind: 2 0 0 0 1 2 0 1 1 0 0 0 3: 64: 1: 1\n\
        W graded (0, 1), least 2: kind: 2 0 0 0 1 2 0 1 3 0 0 0 3 0 1 2 1 1 1: 0: 1: 2\n\
        W graded (0, 1), least 3: kind: 2 0 0 0 1 2 0 1 3 0 0 0 3 0 1 2 1 1 1: 0: 1: 3\n\
        W (none, 0) by 0: list: 2 0 0 0 1 2 0 1 1 0 0 0 3: 64: 0: 0\n\
        W (none, 0) by 1: list: 2 0 0 0 1 2 0 1 1 0 0 0 3: 64: 0: 1\n\
        W (1, 1) by 0: list: 2 0 0 0 1 2 0 1 1 0 0 0 3: 1: 1: 0\n\
        W (1, 1) by 1: list: 2 0 0 0 1 2 0 1 1 0 0 0 3: 1: 1: 1\n\
        # A pair that is not linked is a state too, where both equations count. From (1, 0) a letter leads where it gives 1, or 1 times 0.\n\
        W (1, 0) by 0: list: 2 0 0 0 1 2 0 1 1 0 0 0 3: 1: 0: 0\n\
        W (1, 0) by 1: list: 2 0 0 0 1 2 0 1 1 0 0 0 3: 1: 0: 1\n\
        # Z is weak, and has an automaton as well. 1 times 1 is 0, so 1 is not idempotent.\n\
        Z (0, 0): kind: 2 0 1 1 0 2 1 0 1 0 0 0 3: 0: 0: 1\n\
        Z (1, 0): kind: 2 0 1 1 0 2 1 0 1 0 0 0 3: 1: 0: 1\n\
        Z (none, 0) by 0: list: 2 0 1 1 0 2 1 0 1 0 0 0 3: 64: 0: 0\n\
        Z (1, 0) by 0: list: 2 0 1 1 0 2 1 0 1 0 0 0 3: 1: 0: 0\n\
        Z (0, 1): kind: 2 0 1 1 0 2 1 0 1 0 0 0 3: 0: 1: 1\n\
        # First the rule's own refusals, then 3 for the least grade, then 17, then 10.\n\
        Z (0, 1), least 0: kind: 2 0 1 1 0 2 1 0 1 0 0 0 3: 0: 1: 0\n\
        Z (65, 0), least 4: kind: 2 0 1 1 0 2 1 0 1 0 0 0 3: 65: 0: 4\n\
        Z (2, 0) by 2: list: 2 0 1 1 0 2 1 0 1 0 0 0 3: 2: 0: 2\n\
        Z (0, 0) by 2: list: 2 0 1 1 0 2 1 0 1 0 0 0 3: 0: 0: 2\n\
        M8 (9, 9) by 9: list: 2 1 0 0 0 1 0 0 0: 9: 9: 9\n",
        |line, rule| answer(&rt, line, rule, &mut scratch),
    )
}

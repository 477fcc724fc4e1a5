// Runs `rules::automaton_rule` over document 01's automata and over automata at the limit of 64 matrices, and writes a line for each.
#![tactic(auto)]

use rules::{MAP_SIZE, RULE_SIZE, SCRATCH_SIZE, Written};
use std::io;

// The bytes of the rule that a call wrote. For a refusal this writes its line, and there are none.
fn written<'a>(rt: &impl Print, answer: Written, out: &'a [u8]) -> io::Result<&'a [u8]> {
    if let Written::Refused {
        refusal,
        input,
        place,
    } = answer
    {
        example_text::refused_line(rt, refusal, input, place)?;
    }
    Ok(example_text::written_part(answer, out))
}

// The number of elements of a rule, and its bytes where they are few; nothing where there is no rule.
fn rule_line(rt: &impl Print, rule: &[u8]) -> io::Result<()> {
    if !rule.is_empty() {
        print!(rt; "bytes {}", rule.len())?;
        example_text::row(rt, b", elements", rule, 1)?;
        if rule.len() < 32 {
            example_text::row(rt, b":", rule, rule.len())?;
        }
        print!(rt; "\n")?;
    }
    Ok(())
}

fn reduce(rt: &impl Print, rule: &[u8], scratch: &mut [u8]) -> io::Result<()> {
    let mut out = [9u8; RULE_SIZE];
    let mut map = [9u8; MAP_SIZE];
    let answer = rules::reduce(rule, &mut out, &mut map, scratch);
    rule_line(rt, written(rt, answer, &out)?)
}

// Translates an automaton. The command says whether its rule is written, reduced, or asked for the lasso of letter 0.
fn tell(rt: &impl Print, line: &[u8], automaton: &[u8], scratch: &mut [u8]) -> io::Result<()> {
    let mut out = [9u8; RULE_SIZE];
    let answer = rules::automaton_rule(automaton, &mut out, scratch);
    let rule = written(rt, answer, &out)?;
    match example_text::command(line) {
        b"member" => example_text::verdict_line(rt, rules::member(rule, &[0], &[0], scratch)),
        b"reduce" => reduce(rt, rule, scratch),
        _ => rule_line(rt, rule),
    }
}

// Translates every part that a file begins with, but not the whole.
fn cuts(rt: &impl Print, line: &[u8], file: &[u8], scratch: &mut [u8]) -> io::Result<()> {
    for n in 0..file.len() {
        print!(rt; "cut to {n}: ")?;
        tell(rt, line, example_text::front(file, n), scratch)?;
    }
    Ok(())
}

fn answer(rt: &impl Print, line: &[u8], file: &[u8], scratch: &mut [u8]) -> io::Result<()> {
    example_text::label(rt, line)?;
    match example_text::command(line) {
        b"cuts" => cuts(rt, line, file, scratch),
        _ => tell(rt, line, file, scratch),
    }
}

// The idle automaton has an initial state that idles and a final one that loops, so that nothing is accepted. M10 with its states exchanged
// and its transitions in another order has the same rule, byte by byte; with its letters exchanged it has another, whose elements have the
// first words 0, 1 and 1 0.
fn main(rt: HostRuntime) -> io::Result<()> {
    let mut scratch = [7u8; SCRATCH_SIZE];
    example_text::each_example::<256, _>(
        b"M10: translate: 2 1 2 2 4 0 0 0 1 0 1 0 1 0 1 1 1 0\n\
        M10 reduced: reduce: 2 1 2 2 4 0 0 0 1 0 1 0 1 0 1 1 1 0\n\
        M10, u 0, v 0: member: 2 1 2 2 4 0 0 0 1 0 1 0 1 0 1 1 1 0\n\
        M10, states exchanged: translate: 2 2 1 2 4 0 0 1 1 1 0 0 1 1 1 0 0 0\n\
        M10, states exchanged, reduced: reduce: 2 2 1 2 4 0 0 1 1 1 0 0 1 1 1 0 0 0\n\
        M10, letters exchanged: translate: 2 1 2 2 4 0 0 1 1 1 0 0 1 1 1 0 0 0\n\
        : cuts: 2 1 2 2 4 0 0 0 1 0 1 0 1 0 1 1 1 0\n\
        idle: translate: 2 1 2 1 2 0 0 0 0 1 0 1\n\
        idle, u 0, v 0: member: 2 1 2 1 2 0 0 0 0 1 0 1\n\
        64 matrices: translate: 6 1 2 0 0 2 0 2 24 0 0 0 1 0 0 2 0 0 4 1 0 1 1 0 2 1 0 3 1 1 0 1 1 1 1 1 5 2 0 4 2 1 1 2 1 3 2 1 5 3 0 5 3 1 0 3 1 1 3 1 2 3 1 4 3 1 5 4 0 2 4 0 3 5 0 4 5 0 5 5 1 2\n\
        65 matrices: translate: 6 3 0 2 2 0 0 2 22 0 0 1 1 0 1 2 0 1 3 0 1 5 1 0 0 1 0 4 1 1 1 2 0 0 2 0 1 2 1 0 2 1 2 2 1 4 3 0 3 3 0 4 3 0 5 4 0 2 5 0 1 5 0 2 5 0 3 5 1 2 5 1 3 5 1 4\n",
        |line, file| answer(&rt, line, file, &mut scratch),
    )
}

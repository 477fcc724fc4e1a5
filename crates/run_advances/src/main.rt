// Runs `rules::advance` and `rules::advance_word` on one monitor, with the rule as the input of number 5, and writes a line for each.
#![tactic(auto)]

use rules::{Advanced, Monitor, SCRATCH_SIZE, Step};
use std::io;

fn advanced_line(rt: &impl Print, line: &[u8], answer: Advanced) -> io::Result<Monitor> {
    example_text::label(rt, line)?;
    match answer {
        Advanced::To {
            monitor,
            grade,
            turns,
        } => {
            print!(rt; "before {} since {}: ", monitor.before, monitor.since)?;
            println!(rt; "grade {grade}, turns {turns}")?;
            Ok(monitor)
        }
        Advanced::Refused {
            monitor,
            refusal,
            input,
            place,
        } => {
            example_text::refused_line(rt, refusal, input, place)?;
            Ok(monitor)
        }
    }
}

// A word of events.
fn advanced_by_word(
    rt: &impl Print,
    line: &[u8],
    rule: &[u8],
    m: Monitor,
    scratch: &mut [u8],
) -> io::Result<Monitor> {
    let mut letters = [0u8; 64];
    let count = example_text::numbers(line, 3, &mut letters);
    advanced_line(
        rt,
        line,
        rules::advance_word(rule, 5, m, &letters[..count], scratch),
    )
}

// A step.
fn advanced(
    rt: &impl Print,
    line: &[u8],
    rule: &[u8],
    m: Monitor,
    step: Step,
    scratch: &mut [u8],
) -> io::Result<Monitor> {
    advanced_line(rt, line, rules::advance(rule, 5, m, step, scratch))
}

// `put` puts another monitor in place.
fn run(rt: &impl Print, line: &[u8], m: Monitor, scratch: &mut [u8]) -> io::Result<Monitor> {
    let mut rule = [0u8; 64];
    let length = example_text::numbers(line, 2, &mut rule);
    let letter = example_text::byte(line, 3);
    match example_text::command(line) {
        b"put" => Ok(Monitor {
            before: example_text::number(line, 2),
            since: example_text::number(line, 3),
        }),
        b"event" => advanced(rt, line, &rule[..length], m, Step::Event(letter), scratch),
        b"mark" => advanced(rt, line, &rule[..length], m, Step::Mark, scratch),
        b"stay" => advanced(rt, line, &rule[..length], m, Step::Stay, scratch),
        b"word" => advanced_by_word(rt, line, &rule[..length], m, scratch),
        _ => Ok(m),
    }
}

fn main(rt: HostRuntime) -> io::Result<()> {
    let mut scratch = [7u8; SCRATCH_SIZE];
    let mut m = rules::fresh();
    example_text::each_line(
        b"# A monitor of W: as it is, by a letter, by words, by a mark. Grade 4 and no turns where nothing came since.\n\
        stay: stay: 2 0 0 0 1 2 0 1 1 0 0 0 3\n\
        letter 1: event: 2 0 0 0 1 2 0 1 1 0 0 0 3: 1\n\
        word 1 1: word: 2 0 0 0 1 2 0 1 1 0 0 0 3: 1 1\n\
        mark: mark: 2 0 0 0 1 2 0 1 1 0 0 0 3\n\
        no letter: word: 2 0 0 0 1 2 0 1 1 0 0 0 3: \n\
        word 1 0 1: word: 2 0 0 0 1 2 0 1 1 0 0 0 3: 1 0 1\n\
        no letter: word: 2 0 0 0 1 2 0 1 1 0 0 0 3: \n\
        # A letter that W lacks, alone, at the front of a word and at its end: nothing moves.\n\
        letter 2: event: 2 0 0 0 1 2 0 1 1 0 0 0 3: 2\n\
        word 2 0: word: 2 0 0 0 1 2 0 1 1 0 0 0 3: 2 0\n\
        word 0 1 2: word: 2 0 0 0 1 2 0 1 1 0 0 0 3: 0 1 2\n\
        stay: stay: 2 0 0 0 1 2 0 1 1 0 0 0 3\n\
        # Z is weak: 12 before 10, and 3 before 12. 11 is not here: it takes a word of 16,777,217 letters.\n\
        Z, letter 9: event: 2 0 1 1 0 2 1 0 1 0 0 0 3: 9\n\
        Z, word 9: word: 2 0 1 1 0 2 1 0 1 0 0 0 3: 9\n\
        Z, mark: mark: 2 0 1 1 0 2 1 0 1 0 0 0 3\n\
        : put: 9: 9\n\
        Z, letter 9: event: 2 0 1 1 0 2 1 0 1 0 0 0 3: 9\n\
        M8, word 9: word: 2 1 0 0 0 1 0 0 0: 9\n\
        # A letter of order two: a turn of it settles nothing, and two do.\n\
        : put: 64: 64\n\
        word 0 0 0: word: 2 0 1 1 0 1 1 0 0: 0 0 0\n\
        letter 0: event: 2 0 1 1 0 1 1 0 0: 0\n",
        |line| {
            m = run(&rt, line, m, &mut scratch)?;
            Ok(())
        },
    )
}

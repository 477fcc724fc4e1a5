// Runs `rules::event_in_place` on a lent monitor beside `rules::event` on the same monitor by value, and writes a line of what both
// leave. The monitor that was lent is the next event's; `put` puts another in its place.
#![tactic(auto)]

use rules::{InPlaceAnswer, Monitor, Moved, SCRATCH_SIZE};
use std::io;

// The answer of a call that was lent a monitor, with the monitor that it left.
fn with_monitor(told: InPlaceAnswer, monitor: Monitor) -> Moved {
    match told {
        InPlaceAnswer::Done => Moved::To(monitor),
        InPlaceAnswer::Refused {
            refusal,
            input,
            place,
        } => Moved::Refused {
            monitor,
            refusal,
            input,
            place,
        },
    }
}

// Lends a monitor of its own, and hands it back as it was left.
fn lent(rule: &[u8], mut m: Monitor, letter: u8, scratch: &mut [u8]) -> Moved {
    let told = rules::event_in_place(rule, &mut m, letter, scratch);
    with_monitor(told, m)
}

// The monitor that a call left, after a refusal is written.
fn left(rt: &impl Print, moved: Moved) -> io::Result<Monitor> {
    match moved {
        Moved::To(m) => Ok(m),
        Moved::Refused {
            monitor,
            refusal,
            input,
            place,
        } => {
            let number = rules::number(refusal);
            print!(rt; "refused {number} in {input} at {place}, ")?;
            Ok(monitor)
        }
    }
}

fn written(rt: &impl Print, start: &str, moved: Moved) -> io::Result<Monitor> {
    rt.print(start)?;
    let m = left(rt, moved)?;
    print!(rt; "before {} since {}", m.before, m.since)?;
    Ok(m)
}

fn event(
    rt: &impl Print,
    rule: &[u8],
    m: Monitor,
    letter: u8,
    scratch: &mut [u8],
) -> io::Result<Monitor> {
    written(rt, "by value ", rules::event(rule, m, letter, scratch))?;
    let next = written(rt, "; lent ", lent(rule, m, letter, scratch))?;
    print!(rt; "\n")?;
    Ok(next)
}

fn run(rt: &impl Print, line: &[u8], m: Monitor, scratch: &mut [u8]) -> io::Result<Monitor> {
    let mut rule = [0u8; 64];
    let length = example_text::numbers(line, 2, &mut rule);
    let letter = example_text::byte(line, 3);
    match example_text::command(line) {
        b"event" => {
            example_text::label(rt, line)?;
            event(rt, &rule[..length], m, letter, scratch)
        }
        b"put" => Ok(Monitor {
            before: example_text::number(line, 2),
            since: example_text::number(line, 3),
        }),
        _ => Ok(m),
    }
}

fn main(rt: HostRuntime) -> io::Result<()> {
    let mut scratch = [7u8; SCRATCH_SIZE];
    let mut m = rules::fresh();
    example_text::each_line(
        b"# Events of W from a fresh monitor on, a letter that is none of W's, and a rule that does not associate.\n\
        W, 1: event: 2 0 0 0 1 2 0 1 1 0 0 0 3: 1\n\
        W, 1: event: 2 0 0 0 1 2 0 1 1 0 0 0 3: 1\n\
        W, 0: event: 2 0 0 0 1 2 0 1 1 0 0 0 3: 0\n\
        W, 1: event: 2 0 0 0 1 2 0 1 1 0 0 0 3: 1\n\
        W, 2: event: 2 0 0 0 1 2 0 1 1 0 0 0 3: 2\n\
        M8, 0: event: 2 1 0 0 0 1 0 0 0: 0\n\
        # Events of Z from a fresh monitor on, and from one that has seen a mark.\n\
        : put: 64: 64\n\
        Z, 0: event: 2 0 1 1 0 2 1 0 1 0 0 0 3: 0\n\
        Z, 0: event: 2 0 1 1 0 2 1 0 1 0 0 0 3: 0\n\
        Z, 1: event: 2 0 1 1 0 2 1 0 1 0 0 0 3: 1\n\
        Z, 255: event: 2 0 1 1 0 2 1 0 1 0 0 0 3: 255\n\
        : put: 1: 0\n\
        Z, 0: event: 2 0 1 1 0 2 1 0 1 0 0 0 3: 0\n\
        Z, 2: event: 2 0 1 1 0 2 1 0 1 0 0 0 3: 2\n\
        # Monitors with values that Z does not have.\n\
        : put: 2: 0\n\
        Z, 0: event: 2 0 1 1 0 2 1 0 1 0 0 0 3: 0\n\
        : put: 0: 65\n\
        Z, 0: event: 2 0 1 1 0 2 1 0 1 0 0 0 3: 0\n",
        |line| {
            m = run(&rt, line, m, &mut scratch)?;
            Ok(())
        },
    )
}

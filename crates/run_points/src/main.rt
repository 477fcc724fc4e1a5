// Runs `rules::keep` and `rules::return_to` among events, marks and verdicts, on one monitor and its points, and writes a line for each.
#![tactic(auto)]

use rules::{Monitor, Moved, POINTS_SIZE, SCRATCH_SIZE};
use std::io;

fn monitor_line(rt: &impl Print, line: &[u8], moved: Moved) -> io::Result<Monitor> {
    example_text::label(rt, line)?;
    example_text::monitor_line(rt, moved)
}

// Calls that are not handed the points.
fn moved(
    rt: &impl Print,
    line: &[u8],
    rule: &[u8],
    m: Monitor,
    scratch: &mut [u8],
) -> io::Result<Monitor> {
    match example_text::command(line) {
        b"event" => monitor_line(
            rt,
            line,
            rules::event(rule, m, example_text::byte(line, 3), scratch),
        ),
        b"mark" => monitor_line(rt, line, rules::mark(rule, m, scratch)),
        b"verdict" => {
            example_text::label(rt, line)?;
            example_text::verdict_line(rt, rules::verdict(rule, m, scratch))?;
            Ok(m)
        }
        _ => Ok(m),
    }
}

// The two calls that are.
fn pointed(
    rt: &impl Print,
    line: &[u8],
    rule: &[u8],
    m: Monitor,
    points: &mut [u8],
    scratch: &mut [u8],
) -> io::Result<Monitor> {
    let name = example_text::number(line, 3);
    match example_text::command(line) {
        b"keep" => monitor_line(rt, line, rules::keep(rule, m, name, points, scratch)),
        b"return" => monitor_line(rt, line, rules::return_to(rule, m, name, points, scratch)),
        _ => moved(rt, line, rule, m, scratch),
    }
}

// A byte of the points as a foreign hand would set it.
fn set_byte(line: &[u8], points: &mut [u8]) {
    let place = example_text::number(line, 2);
    if place < points.len() {
        points[place] = example_text::byte(line, 3);
    }
}

// `put` puts another monitor in place, `byte` another byte of the points, and `show` writes them.
fn run(
    rt: &impl Print,
    line: &[u8],
    m: Monitor,
    points: &mut [u8],
    scratch: &mut [u8],
) -> io::Result<Monitor> {
    let mut rule = [0u8; 64];
    let length = example_text::numbers(line, 2, &mut rule);
    match example_text::command(line) {
        b"put" => Ok(Monitor {
            before: example_text::number(line, 2),
            since: example_text::number(line, 3),
        }),
        b"byte" => {
            set_byte(line, points);
            Ok(m)
        }
        b"show" => {
            example_text::row(rt, b"points", points, points.len())?;
            print!(rt; "\n")?;
            Ok(m)
        }
        _ => pointed(rt, line, &rule[..length], m, points, scratch),
    }
}

fn main(rt: HostRuntime) -> io::Result<()> {
    let mut points = [0u8; POINTS_SIZE];
    let mut scratch = [7u8; SCRATCH_SIZE];
    let mut m = rules::fresh();
    example_text::each_line(
        b"# A log of W, kept as 7 after letter 1, a mark and letter 0; then a mark and letter 1; then back, twice.\n\
        letter 1: event: 2 0 0 0 1 2 0 1 1 0 0 0 3: 1\n\
        mark: mark: 2 0 0 0 1 2 0 1 1 0 0 0 3\n\
        letter 0: event: 2 0 0 0 1 2 0 1 1 0 0 0 3: 0\n\
        verdict: verdict: 2 0 0 0 1 2 0 1 1 0 0 0 3\n\
        keep 7: keep: 2 0 0 0 1 2 0 1 1 0 0 0 3: 7\n\
        mark: mark: 2 0 0 0 1 2 0 1 1 0 0 0 3\n\
        letter 1: event: 2 0 0 0 1 2 0 1 1 0 0 0 3: 1\n\
        verdict: verdict: 2 0 0 0 1 2 0 1 1 0 0 0 3\n\
        keep 2: keep: 2 0 0 0 1 2 0 1 1 0 0 0 3: 2\n\
        return 7: return: 2 0 0 0 1 2 0 1 1 0 0 0 3: 7\n\
        verdict: verdict: 2 0 0 0 1 2 0 1 1 0 0 0 3\n\
        letter 2: event: 2 0 0 0 1 2 0 1 1 0 0 0 3: 2\n\
        return 7: return: 2 0 0 0 1 2 0 1 1 0 0 0 3: 7\n\
        return 2: return: 2 0 0 0 1 2 0 1 1 0 0 0 3: 2\n\
        verdict: verdict: 2 0 0 0 1 2 0 1 1 0 0 0 3\n\
        : show\n\
        # A keep over a kept name.\n\
        keep 7: keep: 2 0 0 0 1 2 0 1 1 0 0 0 3: 7\n\
        return 7: return: 2 0 0 0 1 2 0 1 1 0 0 0 3: 7\n\
        : show\n\
        # A monitor that W does not have. First the rule's own refusals, then 15, then 16, then 3.\n\
        : put: 9: 9\n\
        M8, keep 8: keep: 2 1 0 0 0 1 0 0 0: 8\n\
        keep 8: keep: 2 0 0 0 1 2 0 1 1 0 0 0 3: 8\n\
        return 8: return: 2 0 0 0 1 2 0 1 1 0 0 0 3: 8\n\
        return 0: return: 2 0 0 0 1 2 0 1 1 0 0 0 3: 0\n\
        return 7: return: 2 0 0 0 1 2 0 1 1 0 0 0 3: 7\n\
        keep 7: keep: 2 0 0 0 1 2 0 1 1 0 0 0 3: 7\n\
        # A byte under a name never kept is not looked at, and one under a kept name is.\n\
        : put: 64: 64\n\
        : byte: 1: 9\n\
        return 7: return: 2 0 0 0 1 2 0 1 1 0 0 0 3: 7\n\
        : byte: 0: 255\n\
        return 7: return: 2 0 0 0 1 2 0 1 1 0 0 0 3: 7\n\
        keep 0: keep: 2 0 0 0 1 2 0 1 1 0 0 0 3: 0\n\
        : show\n",
        |line| {
            m = run(&rt, line, m, &mut points, &mut scratch)?;
            Ok(())
        },
    )
}

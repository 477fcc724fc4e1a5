// Runs `rules::member`, `rules::stretch` and the calls on a monitor over document 01's small rules, and writes a line for
// each. A word is written as its letters in a row.
#![tactic(auto)]

use rules::{Monitor, SCRATCH_SIZE};
use std::io;

// A word has room for one letter more than it may have.
fn member(rt: &impl Print, line: &[u8], rule: &[u8], scratch: &mut [u8]) -> io::Result<()> {
    let mut u = [0u8; 4225];
    let mut v = [0u8; 4225];
    let m = example_text::numbers(line, 3, &mut u);
    let n = example_text::numbers(line, 4, &mut v);
    example_text::label(rt, line)?;
    example_text::verdict_line(rt, rules::member(rule, &u[..m], &v[..n], scratch))
}

fn word_line(rt: &impl Print, word: &[u8]) -> io::Result<()> {
    for letter in word {
        rt.print(*letter)?;
    }
    print!(rt; "\n")
}

fn stretch(rt: &impl Print, line: &[u8], u: &[u8]) -> io::Result<()> {
    let mut v = [0u8; 4225];
    let n = example_text::numbers(line, 3, &mut v);
    example_text::label(rt, line)?;
    word_line(
        rt,
        rules::stretch(u, &v[..n], example_text::number(line, 4)),
    )
}

// Events and marks move the monitor on, and `put` puts another in its place.
fn moved(
    rt: &impl Print,
    line: &[u8],
    rule: &[u8],
    m: Monitor,
    scratch: &mut [u8],
) -> io::Result<Monitor> {
    match example_text::command(line) {
        b"event" => example_text::monitor_line(
            rt,
            rules::event(rule, m, example_text::byte(line, 3), scratch),
        ),
        b"mark" => example_text::monitor_line(rt, rules::mark(rule, m, scratch)),
        b"put" => Ok(Monitor {
            before: example_text::number(line, 3),
            since: example_text::number(line, 4),
        }),
        _ => Ok(m),
    }
}

fn run(rt: &impl Print, line: &[u8], m: Monitor, scratch: &mut [u8]) -> io::Result<Monitor> {
    let mut first = [0u8; 4225];
    let length = example_text::numbers(line, 2, &mut first);
    match example_text::command(line) {
        b"lasso" => {
            member(rt, line, &first[..length], scratch)?;
            Ok(m)
        }
        b"stretch" => {
            stretch(rt, line, &first[..length])?;
            Ok(m)
        }
        _ => moved(rt, line, &first[..length], m, scratch),
    }
}

fn main(rt: HostRuntime) -> io::Result<()> {
    let mut scratch = [7u8; SCRATCH_SIZE];
    let mut m = rules::fresh();
    example_text::each_line(
        b"M2 W, u 1, v 0: lasso: 2 0 0 0 1 2 0 1 1 0 0 0 3: 1: 0\n\
        M3 W, u 0, v 1: lasso: 2 0 0 0 1 2 0 1 1 0 0 0 3: 0: 1\n\
        W, u 0, v 0 1: lasso: 2 0 0 0 1 2 0 1 1 0 0 0 3: 0: 0 1\n\
        M6 Z, u 0, v 1: lasso: 2 0 1 1 0 2 1 0 1 0 0 0 3: 0: 1\n\
        M6 Z, u 0, v 0 0: lasso: 2 0 1 1 0 2 1 0 1 0 0 0 3: 0: 0 0\n\
        M7 Z with letter 0 only, u 0, v 0: lasso: 2 0 1 1 0 1 1 1 0 0 0 3: 0: 0\n\
        Z, u 0, v 0: lasso: 2 0 1 1 0 2 1 0 1 0 0 0 3: 0: 0\n\
        Z without marks, u 0, v 0: lasso: 2 0 1 1 0 2 1 0 0 0: 0: 0\n\
        # The remainders by 4 under addition, with letters of image 1 and 2 and the mark (0, 0). A weak rule; both v have the value 2.\n\
        remainders by 4, u 0, v 1: lasso: 4 0 1 2 3 1 2 3 0 2 3 0 1 3 0 1 2 2 1 2 1 0 0 0 3: 0: 1\n\
        remainders by 4, u 0, v 0 0: lasso: 4 0 1 2 3 1 2 3 0 2 3 0 1 3 0 1 2 2 1 2 1 0 0 0 3: 0: 0 0\n\
        # An element says which letters occur. Only letter 1 has grade 3; both, then only letter 1, grade 2; both, then only letter 0, grade 1; the\n\
        # others have no mark.\n\
        every grade, u 0, v 0: lasso: 3 0 2 2 2 1 2 2 2 2 2 0 1 3 0 2 0 1 2 1 2 1 1 3: 0: 0\n\
        every grade, u 0, v 0 1: lasso: 3 0 2 2 2 1 2 2 2 2 2 0 1 3 0 2 0 1 2 1 2 1 1 3: 0: 0 1\n\
        every grade, u 1, v 0: lasso: 3 0 2 2 2 1 2 2 2 2 2 0 1 3 0 2 0 1 2 1 2 1 1 3: 1: 0\n\
        every grade, u 0, v 1: lasso: 3 0 2 2 2 1 2 2 2 2 2 0 1 3 0 2 0 1 2 1 2 1 1 3: 0: 1\n\
        every grade, u 1, v 1: lasso: 3 0 2 2 2 1 2 2 2 2 2 0 1 3 0 2 0 1 2 1 2 1 1 3: 1: 1\n\
        # Z with grade 1 on (0, 0) and 2 on (1, 0), a weak rule. The last two lassos have starts and cycles of equal values.\n\
        Z with grades 1 and 2, u 0, v 0: lasso: 2 0 1 1 0 2 1 0 2 0 0 0 1 1 0 2: 0: 0\n\
        Z with grades 1 and 2, u 1, v 1: lasso: 2 0 1 1 0 2 1 0 2 0 0 0 1 1 0 2: 1: 1\n\
        Z with grades 1 and 2, u 1, v 0 0: lasso: 2 0 1 1 0 2 1 0 2 0 0 0 1 1 0 2: 1: 0 0\n\
        # The remainders by 64 under addition, with one letter of image 1 and the mark (0, 0), then without it.\n\
        cyclic group of 64, u 0, v 0: lasso: 64 sums 1 1 1 3*0 3: 0: 0\n\
        cyclic group of 64, u 63 letters, v 0: lasso: 64 sums 1 1 1 3*0 3: 63*0: 0\n\
        cyclic group of 64, u 0, v 32 letters: lasso: 64 sums 1 1 1 3*0 3: 0: 32*0\n\
        cyclic group of 64 without marks, u 0, v 0: lasso: 64 sums 1 1 0 0: 0: 0\n\
        a foreign letter in u: lasso: 2 0 0 0 1 2 0 1 1 0 0 0 3: 0 1 2: 0 2\n\
        a foreign letter in v: lasso: 2 0 0 0 1 2 0 1 1 0 0 0 3: 0 1: 0 2\n\
        W, no letter in u, v 0: lasso: 2 0 0 0 1 2 0 1 1 0 0 0 3: : 0\n\
        W, no letter in u, v 1: lasso: 2 0 0 0 1 2 0 1 1 0 0 0 3: : 1\n\
        Z, no letter in u, v 1: lasso: 2 0 1 1 0 2 1 0 1 0 0 0 3: : 1\n\
        M10's rule, no letter in u, v 0: lasso: 3 0 2 2 0 1 2 0 2 2 2 0 1 2 0 0 0 3 2 2 3: : 0\n\
        M10's rule, no letter in u, v 1: lasso: 3 0 2 2 0 1 2 0 2 2 2 0 1 2 0 0 0 3 2 2 3: : 1\n\
        no letter in u, and a foreign one in v: lasso: 2 0 0 0 1 2 0 1 1 0 0 0 3: : 2\n\
        no letter in v: lasso: 2 0 0 0 1 2 0 1 1 0 0 0 3: 2:\n\
        no letter in u or v: lasso: 2 0 0 0 1 2 0 1 1 0 0 0 3: :\n\
        a rule that does not associate: lasso: 2 1 0 0 0 1 0 0 0: :\n\
        u of 4,224 letters: lasso: 2 0 0 0 1 2 0 1 1 0 0 0 3: 4224*0: 0\n\
        v of 4,224 letters: lasso: 2 0 0 0 1 2 0 1 1 0 0 0 3: 1: 4224*0\n\
        u of 4,225 letters: lasso: 2 0 0 0 1 2 0 1 1 0 0 0 3: 4225*0: 0\n\
        v of 4,225 letters: lasso: 2 0 0 0 1 2 0 1 1 0 0 0 3: 1: 4225*0\n\
        stretch at 0: stretch: 1 2 3: 4 5 6 7: 0\n\
        stretch at 2: stretch: 1 2 3: 4 5 6 7: 2\n\
        stretch at 3: stretch: 1 2 3: 4 5 6 7: 3\n\
        stretch at 9: stretch: 1 2 3: 4 5 6 7: 9\n\
        stretch at the largest position: stretch: 1 2 3: 4 5 6 7: 18446744073709551615\n\
        stretch with no start: stretch: : 4 5 6 7: 0\n\
        stretch with no start at 6: stretch: : 4 5 6 7: 6\n\
        stretch with no cycle: stretch: 1 2 3: : 0\n\
        stretch with a long start: stretch: 4225*9: 1: 0\n\
        stretch with a long cycle: stretch: 1: 4225*9: 0\n\
        # Events and marks of Z, whose letter 0 stands for 1 and letter 1 for 0, from a fresh monitor on.\n\
        : mark: 2 0 1 1 0 2 1 0 1 0 0 0 3\n\
        : event: 2 0 1 1 0 2 1 0 1 0 0 0 3: 0\n\
        : event: 2 0 1 1 0 2 1 0 1 0 0 0 3: 2\n\
        : mark: 2 0 1 1 0 2 1 0 1 0 0 0 3\n\
        : event: 2 0 1 1 0 2 1 0 1 0 0 0 3: 1\n\
        : mark: 2 0 1 1 0 2 1 0 1 0 0 0 3\n\
        # Monitors with values that Z does not have.\n\
        : put: : 2: 0\n\
        : event: 2 0 1 1 0 2 1 0 1 0 0 0 3: 0\n\
        : put: : 64: 65\n\
        : mark: 2 0 1 1 0 2 1 0 1 0 0 0 3\n",
        |line| {
            m = run(&rt, line, m, &mut scratch)?;
            Ok(())
        },
    )
}

// Runs `formula_call::formula_rule` over formulas in bytes, and writes a line for each: the smallest rule of its meaning, or the refusal.
#![tactic(auto)]

use formula_call::STACK_SIZE;
use rules::{RULE_SIZE, SCRATCH_SIZE, UNTIL_CLASSES_SIZE};
use std::io;

fn answer(
    rt: &impl Print,
    line: &[u8],
    formula: &[u8],
    stack: &mut [u8],
    spare: &mut [u8],
    classes: &mut [u8],
    scratch: &mut [u8],
) -> io::Result<()> {
    let mut out = [9u8; RULE_SIZE];
    example_text::label(rt, line)?;
    let written = formula_call::formula_rule(
        example_text::number(line, 2),
        formula,
        &mut out,
        stack,
        spare,
        classes,
        scratch,
    );
    example_text::written_line(rt, written, &out, 80)
}

fn run(
    rt: &impl Print,
    line: &[u8],
    stack: &mut [u8],
    spare: &mut [u8],
    classes: &mut [u8],
    scratch: &mut [u8],
) -> io::Result<()> {
    let mut formula = [0u8; 128];
    let length = example_text::numbers(line, 3, &mut formula);
    if !example_text::command(line).is_empty() {
        answer(rt, line, &formula[..length], stack, spare, classes, scratch)?;
    }
    Ok(())
}

fn main(rt: HostRuntime) -> io::Result<()> {
    let mut stack = [3u8; STACK_SIZE];
    let mut spare = [4u8; RULE_SIZE];
    let mut classes = [5u8; UNTIL_CLASSES_SIZE];
    let mut scratch = [7u8; SCRATCH_SIZE];
    example_text::each_line(
        b"# A set is 0, its grade and two bytes; a constant 1 and its grade. Over two letters the set of letter 0 is 1 0, that of letter 1 is 2 0.\n\
        letter 0: formula: 2: 0 3 1 0\n\
        every lasso: formula: 2: 1 3\n\
        # The sample `letter-0-without-end` is always (eventually letter 0).\n\
        letter 0 without end: formula: 2: 0 3 1 0 8 9\n\
        # Not, both, either, without; each of the two operands shows.\n\
        not letter 0, over three letters: formula: 3: 0 3 1 0 2\n\
        letter 0 and grade 2: formula: 2: 0 3 1 0 1 2 3\n\
        letter 0 or grade 2: formula: 2: 0 3 1 0 1 2 4\n\
        letter 0 without grade 2: formula: 2: 0 3 1 0 1 2 5\n\
        grade 2 without letter 0: formula: 2: 1 2 0 3 1 0 5\n\
        # Next, until, and their operands the other way round.\n\
        next letter 0: formula: 2: 0 3 1 0 6\n\
        letter 0 until letter 1, over three: formula: 3: 0 3 1 0 0 3 2 0 7\n\
        letter 1 until letter 0, over three: formula: 3: 0 3 2 0 0 3 1 0 7\n\
        # Release and weak until are not until.\n\
        letter 0 release letter 1, over three: formula: 3: 0 3 1 0 0 3 2 0 10\n\
        letter 0 weak until letter 1, over three: formula: 3: 0 3 1 0 0 3 2 0 11\n\
        # A copy of the top, and of the one below it.\n\
        f or next f: formula: 2: 0 3 1 0 12 0 6 4\n\
        f until (g or next f): formula: 3: 0 3 1 0 0 3 2 0 12 1 6 4 7\n\
        # Refused are letters, codes, operands that are cut off, grades, letters of a set, the stack, and what is left at the end.\n\
        no letters: formula: 0: 1 3\n\
        17 letters: formula: 17: 1 3\n\
        an unknown code behind a set: formula: 2: 0 3 1 0 13\n\
        a set that is cut off: formula: 2: 1 3 0 3 1\n\
        grade 4: formula: 2: 1 3 1 4\n\
        letter 2 of 2: formula: 2: 1 3 0 3 4 0\n\
        both of one: formula: 2: 1 3 3\n\
        a copy from below the stack: formula: 2: 1 3 12 1\n\
        nine on the stack: formula: 2: 1 3 1 3 1 3 1 3 1 3 1 3 1 3 1 3 1 3\n\
        two at the end: formula: 2: 1 3 1 3\n\
        no byte: formula: 2:\n\
        # A step that would be too large is refused at its own byte.\n\
        five times next: formula: 2: 0 3 1 0 6 6 6 6 6\n\
        too many pairs: formula: 3: 0 3 1 0 6 6 6 6 0 3 2 0 6 6 6 6 3\n",
        |line| {
            run(
                &rt,
                line,
                &mut stack,
                &mut spare,
                &mut classes,
                &mut scratch,
            )
        },
    )
}

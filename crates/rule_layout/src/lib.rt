// The three sections of a rule file in a row: each is read from the rest of the file that the one before leaves.
#![tactic(auto)]

ghost use Rattle.std.specs.Prelude.{◌+◌, ◌<◌, ◌^◌, length};
ghost use Rattle.formats.specs.RuleFile.{elements_section, letters_section, marks_section};
ghost use Rattle.sections.specs.Answers.{SectionAnswer};
ghost use Rattle.rule_layout.specs.Answers.{LayoutAnswer};

use answer::Fault;
use section_triples::triples;
use sections::{byte_count, entries, wide_count};

// The elements' section, at the front of the file.
fn elements_section(rule: &[u8]) -> Result<usize, Fault>
    ensures { SectionAnswer elements_section 0 rule.now result }
{
    let n = byte_count(rule, 0, 64)?;
    entries(rule, 0, 1, n * n, n, n)
}

// The letters' section of a rule of n elements, in the rest of the file from byte `at` on.
fn letters_section(rest: &[u8], at: usize, n: usize) -> Result<usize, Fault>
    requires { at + length rest.now < 2 ^ 64 }
    ensures { SectionAnswer (letters_section n) at rest.now result }
{
    let k = byte_count(rest, at, 16)?;
    entries(rest, at, 1, k, n, k)
}

// The marks' section of a rule of n elements: a mark is a pair of elements and a grade, 1 to 3.
pub fn marks_section(rest: &[u8], at: usize, n: usize) -> Result<usize, Fault>
    requires { at + length rest.now < 2 ^ 64 }
    ensures { SectionAnswer (marks_section n) at rest.now result }
{
    let c = wide_count(rest, at, 4096)?;
    triples(rest, at, c, n, n, 4, 1)
}

// The counts of a rule file.
#[derive(Clone, Copy)]
pub struct Shape {
    pub elements: usize,
    pub letters: usize,
    pub marks: usize,
}

// Reads the three sections in a row, each from the rest that the one before leaves.
pub fn read_layout(rule: &[u8]) -> Result<Shape, Fault>
    ensures { LayoutAnswer rule.now result }
{
    let n = elements_section(rule)?;
    let letters_at = 1 + n * n;
    let rest = &rule[letters_at..];
    let k = letters_section(rest, letters_at, n)?;
    let used = 1 + k;
    let marks_at = letters_at + used;
    let last = &rest[used..];
    let c = marks_section(last, marks_at, n)?;
    Ok(Shape {
        elements: n,
        letters: k,
        marks: c,
    })
}

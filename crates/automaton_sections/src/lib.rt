// The sections of an automaton file, one after the other: each hands the rest of the file on as a part that begins in its middle.
#![tactic(auto)]

ghost use Rattle.std.specs.Prelude.{◌+◌, ◌<◌, ◌^◌, length};
ghost use Rattle.sections.specs.Answers.{SectionAnswer};
ghost use Rattle.formats.specs.AutomatonFile.{states_section, automaton_letters_section, transitions_section};
ghost use Rattle.automaton_sections.specs.Sections.{LayoutAnswer};

use answer::Fault;
use section_triples::triples;
use sections::{byte_count, entries, wide_count};

// The states' section, at the front of the file: a kind is 0, 1, 2 or 3.
pub fn states_section(bytes: &[u8]) -> Result<usize, Fault>
    ensures { SectionAnswer states_section 0 bytes.now result }
{
    let m = byte_count(bytes, 0, 6)?;
    entries(bytes, 0, 1, m, 4, m)
}

// The letters' section, a count only, in the rest of the file from byte `at` on.
pub fn letters_section(rest: &[u8], at: usize) -> Result<usize, Fault>
    requires { at + length rest.now < 2 ^ 64 }
    ensures { SectionAnswer automaton_letters_section at rest.now result }
{
    byte_count(rest, at, 16)
}

// The transitions' section of an automaton of m states and k letters.
pub fn transitions_section(rest: &[u8], at: usize, m: usize, k: usize) -> Result<usize, Fault>
    requires { at + length rest.now < 2 ^ 64 }
    ensures { SectionAnswer (transitions_section m k) at rest.now result }
{
    let c = wide_count(rest, at, 576)?;
    triples(rest, at, c, m, k, m, 0)
}

// The counts of an automaton file.
#[derive(Clone, Copy)]
pub struct Counts {
    pub states: usize,
    pub letters: usize,
    pub transitions: usize,
}

// Reads the three sections in a row, each from the rest that the one before leaves.
pub fn read_layout(bytes: &[u8]) -> Result<Counts, Fault>
    ensures { LayoutAnswer bytes.now result }
{
    let m = states_section(bytes)?;
    let letters_at = 1 + m;
    let rest = &bytes[letters_at..];
    let k = letters_section(rest, letters_at)?;
    let transitions_at = letters_at + 1;
    let last = &rest[1..];
    let c = transitions_section(last, transitions_at, m, k)?;
    Ok(Counts {
        states: m,
        letters: k,
        transitions: c,
    })
}

// Compares the rule of an automaton with its paths, over all words of up to three letters: two words have the same value in the rule
// exactly if they have the same paths. A word has an entry for each pair of states: 0 where no path leads from the first to the
// second, 2 where one does that meets a final state, its ends among them, else 1.
//
// Word 0 has no letters, and word 16 · w + a + 1 is word w with the letter a after it: those of up to three letters are below 4,369.
// The entry of word w for the states p and q is at 36 · w + 6 · p + q.
#![tactic(auto)]

ghost use Rattle.std.specs.Prelude.{◌<◌};

use rules::{RULE_SIZE, SCRATCH_SIZE};
use std::io;

// The entry of a path that goes on to a state, by the one that it had before.
fn entry_to(file: &[u8], state: usize, before: u8) -> u8 {
    if 2 <= example_text::byte_at(file, 1 + state % 6) {
        return 2;
    }
    before
}

// The entry at a place. With no letters a path leads from each state to itself.
fn entry_at(file: &[u8], entries: &[u8], place: usize) -> u8 {
    if 36 <= place {
        return example_text::byte_at(entries, place);
    }
    if place % 7 != 0 {
        return 0;
    }
    entry_to(file, place / 7, 1)
}

// Keeps the greater of an entry and another.
fn keep_greater(entries: &mut [u8], place: usize, entry: u8) {
    if example_text::byte_at(entries, place) < entry {
        example_text::store(entries, place, entry as usize);
    }
}

// Lets the paths of word k / 16 from p to r go on by a transition (r, a, q), to give those of word k + 1, if a is its last letter. The
// number counts the words, for each the states p, and for each the 24 transitions.
fn step(file: &[u8], entries: &mut [u8], number: usize) {
    let k = number / 144;
    let row = 6 * (number / 24 % 6);
    let transition = 10 + 3 * (number % 24);
    let r = example_text::byte_at(file, transition) as usize;
    let q = example_text::byte_at(file, transition + 2) as usize;
    let before = entry_at(file, entries, 36 * (k / 16) + row + r);
    if example_text::byte_at(file, transition + 1) as usize == k % 16 {
        if before != 0 {
            keep_greater(entries, 36 * (k + 1) + row + q, entry_to(file, q, before));
        }
    }
}

fn steps(file: &[u8], entries: &mut [u8]) {
    for number in 0..628992 {
        step(file, entries, number);
    }
}

// The element of word k + 1, by that of word k / 16. The rule has 64 elements: a byte for their number, their products, the number of
// letters, and the letters.
fn value(rule: &[u8], values: &[u8], k: usize) -> u8 {
    let image = example_text::byte_at(rule, 4098 + k % 16);
    if k < 16 {
        return image;
    }
    let before = example_text::byte_at(values, k / 16) as usize;
    example_text::byte_at(rule, 1 + 64 * before + image as usize)
}

fn evaluate(rule: &[u8], values: &mut [u8]) {
    for k in 0..4368 {
        let element = value(rule, values, k);
        example_text::store(values, k + 1, element as usize);
    }
}

// 1 for an entry that is other than the one that a word with the same value had. A cell holds one more than the entry, 0 where none
// is known, and then the entry is kept.
fn differs(entries: &[u8], values: &[u8], known: &mut [u8], place: usize) -> usize
    ensures { result < 2 }
{
    let cell = 36 * example_text::byte_at(values, place / 36) as usize + place % 36;
    let kept = example_text::byte_at(known, cell) as usize;
    let entry = example_text::byte_at(entries, place) as usize + 1;
    if kept == 0 {
        example_text::store(known, cell, entry);
        return 0;
    }
    if kept == entry {
        return 0;
    }
    1
}

// How many entries of the words with a letter differ.
fn count_differing(entries: &[u8], values: &[u8], known: &mut [u8]) -> usize {
    let mut count = 0;
    for place in 36..157284 {
        count += differs(entries, values, known, place);
    }
    count
}

// 1 for two elements with the same entries. An element that no word has, or that is not there, has none.
fn alike(known: &[u8], x: usize, y: usize) -> usize
    ensures { result < 2 }
{
    let first = 36 * (x % 64);
    let second = 36 * (y % 128);
    for i in 0..36 {
        if example_text::byte_at(known, first + i) != example_text::byte_at(known, second + i) {
            return 0;
        }
    }
    if example_text::byte_at(known, first) == 0 {
        return 0;
    }
    1
}

// How many elements x are alike one that is d after it, where 64 · d + x goes through a range.
fn count_alike(known: &[u8], from: usize, to: usize) -> usize {
    let mut count = 0;
    for i in from..to {
        count += alike(known, i % 64, i % 64 + i / 64);
    }
    count
}

// An element that some word has is alike itself, so that the first range counts those.
fn counts_line(rt: &impl Print, entries: &[u8], values: &[u8]) -> io::Result<()> {
    let mut known = [0u8; 2304];
    let count = count_differing(entries, values, &mut known);
    let met = count_alike(&known, 0, 64);
    let alike = count_alike(&known, 64, 4096);
    println!(rt; "entries that differ {count}, elements met {met}, alike {alike}")
}

fn compare(rt: &impl Print, file: &[u8], rule: &[u8]) -> io::Result<()> {
    let mut entries = [0u8; 157284];
    let mut values = [0u8; 4369];
    steps(file, &mut entries);
    evaluate(rule, &mut values);
    counts_line(rt, &entries, &values)
}

fn run(rt: &impl Print, line: &[u8]) -> io::Result<()> {
    let mut file = [0u8; 82];
    let mut rule = [9u8; RULE_SIZE];
    let mut scratch = [7u8; SCRATCH_SIZE];
    example_text::numbers(line, 2, &mut file);
    example_text::label(rt, line)?;
    let answer = rules::automaton_rule(&file, &mut rule, &mut scratch);
    example_text::written_line(rt, answer, &rule, 0)?;
    compare(rt, &file, &rule)
}

// An automaton with 64 matrices and two final states, where a word can have several paths from p to q. The counts change if an end of
// a path does not count, or if the first or the last path that is found decides.
fn main(rt: HostRuntime) -> io::Result<()> {
    run(
        &rt,
        b"six states, 16 letters: paths: 6 3 0 0 0 0 2 16 24 0 1 0 0 1 0 2 1 1 2 1 1 5 0 2 4 2 2 4 5 2 4 1 3 0 5 4 4 0 5 4 0 6 2 0 6 4 2 7 1 0 8 2 2 9 0 0 10 0 0 10 1 5 10 2 5 10 3 4 11 4 0 12 1 0 12 3 5 13 0 3 14 1",
    )
}

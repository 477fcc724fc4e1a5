// The rules that all formulas begin with: `first_letter`, whose grade goes by the first letter, and `constant`. A word's value is the element of its first
// letter, so each product is its left factor; element 0 is that of letter 0.
#![tactic(auto)]

ghost use Rattle.std.specs.Prelude.{◌≡◌, ◌≤◌, ◌<◌, length};
ghost use Rattle.formats.specs.RuleChecks.{rule_size};
ghost use Rattle.promises.specs.declared.Written.TheVariants.{Refused};
ghost use Rattle.temporal_promises.specs.Formed.{WrittenAs};
ghost use Rattle.temporal_promises.specs.FirstLetter.{in_set, FirstLetterHas, SmallestFor, FirstLetterPromise, ConstantPromise};
ghost use Rattle.first_letter_call.specs.Elements.{element_in, grade_in, FirstForeign, FirstOther, ElementsFilled};
ghost use Rattle.first_letter_call.specs.Writing.{SectionsNeeds, SectionsWritten, RuleWritten};

use answer::Refusal;
use formats::RULE_SIZE;
use promises::Written;
use rule_bytes::write_counted;

// A refusal of the one input.
fn refused(refusal: Refusal, place: usize) -> Written
    ensures { result ≡ Refused refusal 1 place }
{
    Written::Refused {
        refusal,
        input: 1,
        place,
    }
}

// Whether a letter is in a set.
fn in_set(set: usize, a: usize) -> bool
    requires { a < 64 }
    ensures { result ≡ in_set set a }
{
    (set >> a) % 2 == 1
}

// The least letter of a set that is not below `letters`, or 64.
fn first_foreign(letters: usize, set: usize) -> usize
    ensures { FirstForeign letters set result }
{
    for a in letters..64 {
        if in_set(set, a) {
            return a;
        }
    }
    64
}

// The element of a letter: 0 where it is in the set exactly if letter 0 is, else 1.
fn element_in(set: usize, a: usize) -> u8
    requires { a < 64 }
    ensures { result ≡ element_in set a }
{
    if in_set(set, 0) {
        if in_set(set, a) {
            return 0;
        }
        return 1;
    }
    if in_set(set, a) {
        return 1;
    }
    0
}

// The least letter with the element 1, or k where all have 0.
fn first_other(set: usize, k: usize) -> usize
    requires { k ≤ 16 }
    ensures { FirstOther set k result }
{
    for a in 0..k {
        if element_in(set, a) == 1 {
            return a;
        }
    }
    k
}

// The elements of 16 letters.
fn elements_in(set: usize) -> [u8; 16]
    ensures { ElementsFilled set 16 result }
{
    let mut elements = [0u8; 16];
    for a in 0..16 {
        elements[a] = element_in(set, a);
    }
    elements
}

// Writes the three sections of such a rule with n elements: of its marks, what stands behind the low byte of their count.
fn write_sections(
    n: usize,
    k: usize,
    elements: &[u8],
    marks: &[u8],
    count: usize,
    size: usize,
    out: &mut [u8],
) -> usize
    requires { SectionsNeeds n k elements.now marks.now count size out.old }
    ensures { SectionsWritten n k elements.now marks.now count size out.old out.new result }
{
    let table = [0u8, 0, 1, 1];
    let letters_at = write_counted(&table, n, n * n, out, 0);
    let marks_at = write_counted(elements, k, k, out, letters_at);
    write_counted(marks, count, size, out, marks_at)
}

// Writes the rule of one element, with a grade.
fn write_one(k: usize, grade: usize, out: &mut [u8]) -> usize
    requires { (1 ≤ k) × (k ≤ 16) × (grade ≤ 3) × (rule_size ≤ length out.old) }
    ensures { RuleWritten 1 k (λ x. 0) (λ s. grade) out.old out.new result }
{
    let elements = [0u8; 16];
    let marks = [0, 0, 0, grade as u8];
    if grade == 0 {
        return write_sections(1, k, &elements, &marks, 0, 1, out);
    }
    write_sections(1, k, &elements, &marks, 1, 4, out)
}

// Writes the rule of two elements, of which the letters of a set have one.
fn write_two(k: usize, set: usize, grade: usize, out: &mut [u8]) -> usize
    requires { (1 ≤ k) × (k ≤ 16) × (1 ≤ grade) × (grade ≤ 3) × (rule_size ≤ length out.old) }
    ensures { RuleWritten 2 k (element_in set) (grade_in set grade) out.old out.new result }
{
    let elements = elements_in(set);
    let g = grade as u8;
    if in_set(set, 0) {
        let marks = [0, 0, 0, g, 0, 1, g];
        return write_sections(2, k, &elements, &marks, 2, 7, out);
    }
    let marks = [0, 1, 0, g, 1, 1, g];
    write_sections(2, k, &elements, &marks, 2, 7, out)
}

// Writes the rule of a first letter: of one element where all letters are in the set or none, or where the grade is 0.
fn write_first(k: usize, set: usize, grade: usize, out: &mut [u8]) -> usize
    requires { (1 ≤ k) × (k ≤ 16) × (grade ≤ 3) × (rule_size ≤ length out.old) }
    ensures { WrittenAs (SmallestFor k (FirstLetterHas set grade)) out.old out.new result }
{
    if grade == 0 {
        return write_one(k, 0, out);
    }
    let other = first_other(set, k);
    if other < k {
        return write_two(k, set, grade, out);
    }
    if in_set(set, 0) {
        return write_one(k, grade, out);
    }
    write_one(k, 0, out)
}

// Writes the rule that gives a lasso the grade where its first letter is in the set, else 0; or refuses its numbers.
pub fn first_letter(letters: usize, set: usize, grade: usize, out: &mut [u8]) -> Written
    ensures { FirstLetterPromise letters set grade out.old out.new result }
{
    if out.len() < RULE_SIZE {
        return refused(Refusal::BufferTooShort, 0);
    }
    if letters < 1 {
        return refused(Refusal::CountOutOfRange, 0);
    }
    if 16 < letters {
        return refused(Refusal::CountOutOfRange, 0);
    }
    if 3 < grade {
        return refused(Refusal::EntryOutOfRange, 0);
    }
    let foreign = first_foreign(letters, set);
    if foreign < 64 {
        return refused(Refusal::UnknownLetter, foreign);
    }
    Written::Rule(write_first(letters, set, grade, out))
}

// Writes the rule that gives every lasso the grade, or refuses its numbers.
pub fn constant(letters: usize, grade: usize, out: &mut [u8]) -> Written
    ensures { ConstantPromise letters grade out.old out.new result }
{
    if out.len() < RULE_SIZE {
        return refused(Refusal::BufferTooShort, 0);
    }
    if letters < 1 {
        return refused(Refusal::CountOutOfRange, 0);
    }
    if 16 < letters {
        return refused(Refusal::CountOutOfRange, 0);
    }
    if 3 < grade {
        return refused(Refusal::EntryOutOfRange, 0);
    }
    Written::Rule(write_one(letters, grade, out))
}

// Why a call refuses. A call's answer is an enum of its own, whose refused case holds one of these with the input that it
// lies in and its place there; its number in the table of documents 01 and 02, which goes on from 23, is `number`.
#![tactic(auto)]

ghost use Rattle.std.specs.Prelude.{◌≡◌};
ghost use Rattle.answer.specs.Refusals.{number_of};

#[derive(Clone, Copy)]
pub enum Refusal {
    // Document 01: cut short. The bytes end inside a count or a section.
    Truncated = 1,
    // Document 01: miscount. A count lies outside its range.
    CountOutOfRange = 2,
    // Document 01: off the table. An entry names no element, state, letter or state kind, or a
    // monitor's value no element.
    EntryOutOfRange = 3,
    // Document 01: overrun. Bytes follow the last section.
    TrailingBytes = 4,
    // Document 01: not associative.
    NotAssociative = 5,
    // Document 01: unreached. An element is no word's value.
    Unreachable = 6,
    // Document 01: unlinked. A marked pair is not linked.
    NotLinked = 7,
    // Document 01: repeated. A pair or a transition stands twice.
    Duplicate = 8,
    // Document 01: foreign letter.
    UnknownLetter = 10,
    // Document 01: word length. A word has too many letters, a cycle has none, or a monitor has no value since its last mark.
    WordLength = 11,
    // Document 01: weak. The rule is not strong.
    NotStrong = 12,
    // Document 01: short buffer.
    BufferTooShort = 13,
    // Document 01: too rich. An automaton has too many matrices.
    TooManyMatrices = 14,
    // Document 02, Job 1: name above 7.
    NameOutOfRange = 15,
    // Document 02, Job 1: return to a name never kept.
    NameNeverKept = 16,
    // Document 02, Job 5: no such state.
    NoSuchState = 17,
    // Document 02, Job 7: letter counts differ.
    LettersDiffer = 18,
    // Document 02, Job 7: more than 64 reached pairs.
    TooManyPairs = 19,
    // Document 02, Job 9: limit above 64.
    LimitOutOfRange = 20,
    // Document 02, Job 14: entering under a name above 7 or taken.
    NameNotFree = 21,
    // Document 02, Job 14: leaving a name not there.
    NameNotPresent = 22,
    // More than 64 classes of words, each an element of the rule of `next` or `until`.
    TooManyClasses = 23,
    // A formula in postfix form that lacks operands, has too many rules at once, or does not end with exactly one.
    UnbalancedFormula = 24,
}

// The number of a refusal in the table. 9 is no refusal's number.
pub fn number(r: Refusal) -> u8
    ensures { result ≡ number_of r }
{
    r as u8
}

// A check that fails in an input, and its place there.
#[derive(Clone, Copy)]
pub struct Fault {
    pub refusal: Refusal,
    pub place: usize,
}

impl Fault {
    // What a call answers that finds the fault in the input of the given number.
    pub fn in_input(self, input: usize) -> Refused
        ensures { result ≡ record { refusal = self.refusal; input = input; place = self.place } }
    {
        Refused {
            refusal: self.refusal,
            input,
            place: self.place,
        }
    }
}

// Why a call refuses: the check that fails, the number of the input that it lies in, and its place there.
#[derive(Clone, Copy)]
pub struct Refused {
    pub refusal: Refusal,
    pub input: usize,
    pub place: usize,
}

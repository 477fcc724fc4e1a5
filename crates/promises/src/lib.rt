// What the calls answer, and the monitor; the promises are in specs/.
// Each call's answer is an enum of its own with the refusal in its last case, and no Result: a rule of the project, by which a reader sees all that a
// call can say in one place, and each case has its number in the promises.
#![tactic(auto)]

use answer::Refusal;

// A rule file's counts, or its refusal.
#[derive(Drop)]
pub enum Inspected {
    Rule {
        elements: usize,
        letters: usize,
        marks: usize,
    },
    Refused {
        refusal: Refusal,
        input: usize,
        place: usize,
    },
}

// The bytes of the result of list_classes, and the number there of a pair without a class, as specs/Classes has them.
pub const CLASSES_SIZE: usize = 8192;

pub const NO_CLASS: usize = 65535;

// The bytes of a monitor's named points, and how many names there are, as specs/Points has them.
pub const POINTS_SIZE: usize = 24;

pub const NAMES_COUNT: usize = 8;

// The linked pairs, the classes, and the joins, which are the first less the second.
#[derive(Drop)]
pub enum Listed {
    Counts {
        linked: usize,
        classes: usize,
        joins: usize,
    },
    Refused {
        refusal: Refusal,
        input: usize,
        place: usize,
    },
}

#[derive(Drop)]
pub enum Strength {
    Strong,
    Weak,
    Refused {
        refusal: Refusal,
        input: usize,
        place: usize,
    },
}

// A rule that a call wrote, by the number of its bytes.
#[derive(Clone, Copy)]
pub enum Written {
    Rule(usize),
    Refused {
        refusal: Refusal,
        input: usize,
        place: usize,
    },
}

// The bytes of u and v that included asks for, as specs/Inclusion has them.
pub const START_SIZE: usize = 64;

pub const CYCLE_SIZE: usize = 4224;

#[derive(Drop)]
pub enum Inclusion {
    Included,
    NotIncluded {
        u: usize,
        v: usize,
    },
    Refused {
        refusal: Refusal,
        input: usize,
        place: usize,
    },
}

// The bytes of the result of reduce_rounds, and how many rounds its limit may allow, as specs/Rounds has them.
pub const BLOCKS_SIZE: usize = 64;

pub const MOST_ROUNDS: usize = 64;

// What is made of two rules: their grades' lower, their higher, or the lower of the first's and 3 less the second's.
#[derive(Clone, Copy)]
pub enum Operation {
    Both,
    Either,
    Without,
}

// The bytes of the map that reduce hands out, as specs/Reduce has them.
pub const MAP_SIZE: usize = 64;

// Whether a reduction made elsewhere is right.
#[derive(Drop)]
pub enum Confirmation {
    Yes,
    No,
    Refused {
        refusal: Refusal,
        input: usize,
        place: usize,
    },
}

// How many rounds were done after round 0, and whether one more would change nothing.
#[derive(Drop)]
pub enum Partition {
    Blocks {
        rounds: usize,
        finished: bool,
    },
    Refused {
        refusal: Refusal,
        input: usize,
        place: usize,
    },
}

// The bytes of the result of successors, as specs/RuleAutomaton has them.
pub const SUCCESSORS_SIZE: usize = 65;

// The kind of a state of a rule's automaton.
#[derive(Drop)]
pub enum StateKind {
    Plain,
    Initial,
    Final,
    Refused {
        refusal: Refusal,
        input: usize,
        place: usize,
    },
}

// How many states a state's transitions by a letter lead to.
#[derive(Drop)]
pub enum SuccessorList {
    Listed(usize),
    Refused {
        refusal: Refusal,
        input: usize,
        place: usize,
    },
}

// The grade of a lasso, or of the lassos with a monitor's values, 0 to 3, and how many turns of its cycle together have a value that repeating no
// longer changes.
#[derive(Drop)]
pub enum LassoVerdict {
    Decided {
        grade: usize,
        turns: usize,
    },
    Refused {
        refusal: Refusal,
        input: usize,
        place: usize,
    },
}

// Each an element, or 64 for none.
#[derive(Clone, Copy)]
pub struct Monitor {
    pub before: usize,
    pub since: usize,
}

// What a call makes of a monitor; a refused call hands it back as it was.
#[derive(Clone, Copy)]
pub enum Moved {
    To(Monitor),
    Refused {
        monitor: Monitor,
        refusal: Refusal,
        input: usize,
        place: usize,
    },
}

// What moves a monitor, or leaves it.
#[derive(Clone, Copy)]
pub enum Step {
    Event(u8),
    Mark,
    Stay,
}

// A monitor that was moved, with the grade of the lassos that have its values and the number of turns for the value of its since, or 4 and 0
// where its since is none; a refused call hands it back as it was.
#[derive(Drop)]
pub enum Advanced {
    To {
        monitor: Monitor,
        grade: usize,
        turns: usize,
    },
    Refused {
        monitor: Monitor,
        refusal: Refusal,
        input: usize,
        place: usize,
    },
}

// How many letters a word of events may have, as specs/EventWords has it.
pub const LONGEST_LOG: usize = 16777216;

// What a call that is lent a monitor answers: the monitor has moved, or the refusal.
#[derive(Drop)]
pub enum InPlaceAnswer {
    Done,
    Refused {
        refusal: Refusal,
        input: usize,
        place: usize,
    },
}

#[derive(Drop)]
pub enum Summary {
    Counts {
        elements: usize,
        letters: usize,
        marks: usize,
        linked: usize,
        classes: usize,
        strong: bool,
        reduced: usize,
    },
    Refused {
        refusal: Refusal,
        input: usize,
        place: usize,
    },
}

// A part of a lasso's word in numbers: 1 for u or 2 for v, where it begins there, and how many letters it has.
#[derive(Drop)]
pub struct StretchPlace {
    pub word: usize,
    pub from: usize,
    pub letters: usize,
}

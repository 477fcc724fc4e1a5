// Answers that count, packed into one number: what a file has, the bytes of a rule, classes, rounds, successors.
//
// A function for each answer, though some read alike: each answer is a type of its own with cases of its own, so that a trait over them would ask for the
// same match in each `impl`, and for its law beside.
#![tactic(auto)]

ghost use Rattle.std.specs.Prelude.{◌≡◌};
ghost use Rattle.packing_counts.specs.Counts.{pack_inspected, pack_listed, pack_written, pack_partition, pack_successors, pack_stretch};

use packing::{pack_fields, pack_refusal};
use promises::{Inspected, Listed, Partition, StretchPlace, SuccessorList, Written};

pub fn pack_inspected(answer: Inspected) -> u64
    ensures { result ≡ pack_inspected answer }
{
    match answer {
        Inspected::Rule {
            elements,
            letters,
            marks,
        } => pack_fields(elements, letters, marks),
        Inspected::Refused {
            refusal,
            input,
            place,
        } => pack_refusal(refusal, input, place),
    }
}

pub fn pack_listed(answer: Listed) -> u64
    ensures { result ≡ pack_listed answer }
{
    match answer {
        Listed::Counts {
            linked,
            classes,
            joins,
        } => pack_fields(linked, classes, joins),
        Listed::Refused {
            refusal,
            input,
            place,
        } => pack_refusal(refusal, input, place),
    }
}

pub fn pack_written(answer: Written) -> u64
    ensures { result ≡ pack_written answer }
{
    match answer {
        Written::Rule(length) => pack_fields(length, 0, 0),
        Written::Refused {
            refusal,
            input,
            place,
        } => pack_refusal(refusal, input, place),
    }
}

// The rounds done, and 1 where they are finished.
pub fn pack_partition(answer: Partition) -> u64
    ensures { result ≡ pack_partition answer }
{
    match answer {
        Partition::Blocks { rounds, finished } => pack_fields(rounds, usize::from(finished), 0),
        Partition::Refused {
            refusal,
            input,
            place,
        } => pack_refusal(refusal, input, place),
    }
}

pub fn pack_successors(answer: SuccessorList) -> u64
    ensures { result ≡ pack_successors answer }
{
    match answer {
        SuccessorList::Listed(count) => pack_fields(count, 0, 0),
        SuccessorList::Refused {
            refusal,
            input,
            place,
        } => pack_refusal(refusal, input, place),
    }
}

pub fn pack_stretch(place: StretchPlace) -> u64
    ensures { result ≡ pack_stretch place }
{
    pack_fields(place.word, place.from, place.letters)
}

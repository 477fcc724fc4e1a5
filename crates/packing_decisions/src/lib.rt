// Answers that decide, packed into one number: strong or weak, a grade, inclusion, yes or no, the kind of a state.
//
// A function for each answer, as in packing_counts: a trait over the answers would ask for the same match in each `impl`, and for its law beside.
#![tactic(auto)]

ghost use Rattle.std.specs.Prelude.{◌≡◌};
ghost use Rattle.packing_decisions.specs.Decisions.{pack_strength, pack_lasso_verdict, pack_inclusion, pack_confirmation, pack_kind};

use packing::{pack_fields, pack_refusal};
use promises::{Confirmation, Inclusion, LassoVerdict, StateKind, Strength};

pub fn pack_strength(answer: Strength) -> u64
    ensures { result ≡ pack_strength answer }
{
    match answer {
        Strength::Strong => pack_fields(1, 0, 0),
        Strength::Weak => pack_fields(0, 0, 0),
        Strength::Refused {
            refusal,
            input,
            place,
        } => pack_refusal(refusal, input, place),
    }
}

// The grade of lassos, and the turns that settle its cycle.
pub fn pack_lasso_verdict(answer: LassoVerdict) -> u64
    ensures { result ≡ pack_lasso_verdict answer }
{
    match answer {
        LassoVerdict::Decided { grade, turns } => pack_fields(grade, turns, 0),
        LassoVerdict::Refused {
            refusal,
            input,
            place,
        } => pack_refusal(refusal, input, place),
    }
}

pub fn pack_inclusion(answer: Inclusion) -> u64
    ensures { result ≡ pack_inclusion answer }
{
    match answer {
        Inclusion::Included => pack_fields(1, 0, 0),
        Inclusion::NotIncluded { u, v } => pack_fields(0, u, v),
        Inclusion::Refused {
            refusal,
            input,
            place,
        } => pack_refusal(refusal, input, place),
    }
}

// 1 for yes.
pub fn pack_confirmation(answer: Confirmation) -> u64
    ensures { result ≡ pack_confirmation answer }
{
    match answer {
        Confirmation::Yes => pack_fields(1, 0, 0),
        Confirmation::No => pack_fields(0, 0, 0),
        Confirmation::Refused {
            refusal,
            input,
            place,
        } => pack_refusal(refusal, input, place),
    }
}

// The kind of a state as automaton files have it: 0 plain, 1 initial, 2 final.
pub fn pack_kind(answer: StateKind) -> u64
    ensures { result ≡ pack_kind answer }
{
    match answer {
        StateKind::Plain => pack_fields(0, 0, 0),
        StateKind::Initial => pack_fields(1, 0, 0),
        StateKind::Final => pack_fields(2, 0, 0),
        StateKind::Refused {
            refusal,
            input,
            place,
        } => pack_refusal(refusal, input, place),
    }
}

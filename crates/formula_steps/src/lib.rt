// The steps on a formula's stack: what is made of the rules in slots is reduced into a slot. It stands above the library and sees only its public calls.
#![tactic(auto)]

ghost use Rattle.std.specs.Prelude.{◌≡◌, ℕ, ◌≤◌, length};
ghost use Rattle.formats.specs.RuleChecks.{rule_size, scratch_size};
ghost use Rattle.temporal_promises.specs.Until.{until_classes_size};
ghost use Rattle.formula_promises.specs.Operations.{op_next, op_until};
ghost use Rattle.formula_promises.specs.Checks.{stack_size};
ghost use Rattle.formula_slots.specs.Kept.{OthersKept};
ghost use Rattle.formula_makings.specs.Makings.{two_of};
ghost use Rattle.formula_steps.specs.Steps.{ReducedInto, is_refusal, PassedOn, Negated, OneStep, TwoStep};

use formula_makings::{combine_of, complement_of, next_of, until_of};
use formula_slots::rule_in;
use promises::{Operation, Written};
use rules::{RULE_SIZE, reduce};

// Reduces the rule in spare into a slot. The map goes to classes, and is not asked for.
fn reduce_into(spare: &[u8], slot: usize, stack: &mut [u8], classes: &mut [u8], scratch: &mut [u8])
    requires slot_bound { slot ≤ 8 }
    requires rule_size_in_bounds { rule_size ≤ length spare.now }
    requires stack_size_in_bounds { stack_size ≤ length stack.old }
    requires until_classes_size_in_bounds { until_classes_size ≤ length classes.old }
    requires scratch_size_in_bounds { scratch_size ≤ length scratch.old }
    ensures reduced { ReducedInto slot spare.now stack.new }
    ensures kept { OthersKept slot slot stack.old stack.new }
{
    let from = RULE_SIZE * slot;
    let to = from + RULE_SIZE;
    reduce(rule_in(spare, 0), &mut stack[from..to], classes, scratch);
}

// Whether the library refused.
pub fn is_refusal(answer: Written) -> bool
    ensures { result ≡ is_refusal answer }
{
    match answer {
        Written::Rule(_) => false,
        Written::Refused {
            refusal: _,
            input: _,
            place: _,
        } => true,
    }
}

// Reduces what was made in spare into a slot, unless it was refused. It reads like formula_derived::negate_made: a form for both would take the step as a
// closure that all buffers are lent to again, and its promise would be that of the closure.
fn settle(
    made: Written,
    spare: &[u8],
    slot: usize,
    stack: &mut [u8],
    classes: &mut [u8],
    scratch: &mut [u8],
) -> Written
    requires slot_bound { slot ≤ 8 }
    requires rule_size_in_bounds { rule_size ≤ length spare.now }
    requires stack_size_in_bounds { stack_size ≤ length stack.old }
    requires until_classes_size_in_bounds { until_classes_size ≤ length classes.old }
    requires scratch_size_in_bounds { scratch_size ≤ length scratch.old }
    ensures settled { PassedOn (ReducedInto slot spare.now stack.new) made result }
    ensures kept { OthersKept slot slot stack.old stack.new }
{
    if is_refusal(made) {
        return made;
    }
    reduce_into(spare, slot, stack, classes, scratch);
    made
}

// Negates the rule in a slot.
pub fn negate(
    slot: usize,
    stack: &mut [u8],
    spare: &mut [u8],
    classes: &mut [u8],
    scratch: &mut [u8],
)
    requires slot_bound { slot ≤ 8 }
    requires stack_size_in_bounds { stack_size ≤ length stack.old }
    requires rule_size_in_bounds { rule_size ≤ length spare.old }
    requires until_classes_size_in_bounds { until_classes_size ≤ length classes.old }
    requires scratch_size_in_bounds { scratch_size ≤ length scratch.old }
    ensures negated { Negated slot stack.old stack.new }
    ensures kept { OthersKept slot slot stack.old stack.new }
{
    complement_of(stack, slot, spare, scratch);
    reduce_into(spare, slot, stack, classes, scratch);
}

// Puts `next` of the rule in a slot in its place.
pub fn next_in(
    slot: usize,
    stack: &mut [u8],
    spare: &mut [u8],
    classes: &mut [u8],
    scratch: &mut [u8],
) -> Written
    requires slot_bound { slot ≤ 8 }
    requires stack_size_in_bounds { stack_size ≤ length stack.old }
    requires rule_size_in_bounds { rule_size ≤ length spare.old }
    requires until_classes_size_in_bounds { until_classes_size ≤ length classes.old }
    requires scratch_size_in_bounds { scratch_size ≤ length scratch.old }
    ensures step { (letters : ℕ) → OneStep letters op_next slot stack.old stack.new result }
    ensures kept { OthersKept slot slot stack.old stack.new }
{
    let made = next_of(stack, slot, spare, scratch);
    settle(made, spare, slot, stack, classes, scratch)
}

// Combines the rules in two slots into a slot.
pub fn combine_into(
    first: usize,
    second: usize,
    operation: Operation,
    slot: usize,
    stack: &mut [u8],
    spare: &mut [u8],
    classes: &mut [u8],
    scratch: &mut [u8],
) -> Written
    requires first_bound { first ≤ 8 }
    requires second_bound { second ≤ 8 }
    requires slot_bound { slot ≤ 8 }
    requires stack_size_in_bounds { stack_size ≤ length stack.old }
    requires rule_size_in_bounds { rule_size ≤ length spare.old }
    requires until_classes_size_in_bounds { until_classes_size ≤ length classes.old }
    requires scratch_size_in_bounds { scratch_size ≤ length scratch.old }
    ensures step { (letters : ℕ) → TwoStep letters (two_of operation) first second slot stack.old stack.new result }
    ensures kept { OthersKept slot slot stack.old stack.new }
{
    let made = combine_of(stack, first, second, operation, spare, scratch);
    settle(made, spare, slot, stack, classes, scratch)
}

// Puts the rule in a slot until that in another into a slot.
pub fn until_into(
    first: usize,
    second: usize,
    slot: usize,
    stack: &mut [u8],
    spare: &mut [u8],
    classes: &mut [u8],
    scratch: &mut [u8],
) -> Written
    requires first_bound { first ≤ 8 }
    requires second_bound { second ≤ 8 }
    requires slot_bound { slot ≤ 8 }
    requires stack_size_in_bounds { stack_size ≤ length stack.old }
    requires rule_size_in_bounds { rule_size ≤ length spare.old }
    requires until_classes_size_in_bounds { until_classes_size ≤ length classes.old }
    requires scratch_size_in_bounds { scratch_size ≤ length scratch.old }
    ensures step { (letters : ℕ) → TwoStep letters op_until first second slot stack.old stack.new result }
    ensures kept { OthersKept slot slot stack.old stack.new }
{
    let made = until_of(stack, first, second, spare, classes, scratch);
    settle(made, spare, slot, stack, classes, scratch)
}

// The derived operations of a formula, made of the others: eventually f = 3 until f; always f = not (3 until not f); f release g = not (not f until not g);
// f weak until g = (f until g) or always f. Each inner result is reduced. It stands above the library and sees only its public calls.
#![tactic(auto)]

ghost use Rattle.std.specs.Prelude.{ℕ, ◌≤◌, ◌<◌, length};
ghost use Rattle.formats.specs.RuleChecks.{rule_size, scratch_size};
ghost use Rattle.temporal_promises.specs.Until.{until_classes_size};
ghost use Rattle.formula_promises.specs.Operations.{op_eventually, op_always, op_release, op_weak_until};
ghost use Rattle.formula_promises.specs.Checks.{stack_size};
ghost use Rattle.formula_slots.specs.Kept.{OthersKept};
ghost use Rattle.formula_pushes.specs.Pushes.{RuleNeeds};
ghost use Rattle.formula_steps.specs.Steps.{PassedOn, Negated, OneStep, TwoStep};
ghost use Rattle.formula_derived.specs.Derived.{BothNegated, EventuallyNot, UntilNegated, OrAlways, KeptBelow};

use formula_pushes::constant_into;
use formula_steps::{combine_into, is_refusal, negate, until_into};
use promises::{Operation, Written};

// Negates what was made in a slot, unless it was refused. It reads like formula_steps::settle: a form for both would take the step as a closure that all
// buffers are lent to again, and its promise would be that of the closure.
fn negate_made(
    made: Written,
    slot: usize,
    stack: &mut [u8],
    spare: &mut [u8],
    classes: &mut [u8],
    scratch: &mut [u8],
) -> Written
    requires slot_bound { slot ≤ 8 }
    requires stack_size_in_bounds { stack_size ≤ length stack.old }
    requires rule_size_in_bounds { rule_size ≤ length spare.old }
    requires until_classes_size_in_bounds { until_classes_size ≤ length classes.old }
    requires scratch_size_in_bounds { scratch_size ≤ length scratch.old }
    ensures negated { PassedOn (Negated slot stack.old stack.new) made result }
    ensures kept { OthersKept slot slot stack.old stack.new }
{
    if is_refusal(made) {
        return made;
    }
    negate(slot, stack, spare, classes, scratch);
    made
}

// Puts `eventually` of the rule in a slot in its place. A free slot takes the constant.
pub fn eventually_in(
    letters: usize,
    slot: usize,
    free: usize,
    stack: &mut [u8],
    spare: &mut [u8],
    classes: &mut [u8],
    scratch: &mut [u8],
) -> Written
    requires rule_needs { RuleNeeds letters 3 }
    requires slot_lt_free { slot < free }
    requires free_bound { free ≤ 8 }
    requires stack_size_in_bounds { stack_size ≤ length stack.old }
    requires rule_size_in_bounds { rule_size ≤ length spare.old }
    requires until_classes_size_in_bounds { until_classes_size ≤ length classes.old }
    requires scratch_size_in_bounds { scratch_size ≤ length scratch.old }
    ensures step { OneStep letters op_eventually slot stack.old stack.new result }
    ensures kept { OthersKept slot free stack.old stack.new }
{
    constant_into(letters, 3, free, stack);
    until_into(free, slot, slot, stack, spare, classes, scratch)
}

// Puts `eventually` of the negation of the rule in a slot in its place. A free slot takes the constant.
fn eventually_not_in(
    letters: usize,
    slot: usize,
    free: usize,
    stack: &mut [u8],
    spare: &mut [u8],
    classes: &mut [u8],
    scratch: &mut [u8],
) -> Written
    requires rule_needs { RuleNeeds letters 3 }
    requires slot_lt_free { slot < free }
    requires free_bound { free ≤ 8 }
    requires stack_size_in_bounds { stack_size ≤ length stack.old }
    requires rule_size_in_bounds { rule_size ≤ length spare.old }
    requires until_classes_size_in_bounds { until_classes_size ≤ length classes.old }
    requires scratch_size_in_bounds { scratch_size ≤ length scratch.old }
    ensures step { EventuallyNot letters slot stack.old stack.new result }
    ensures kept { OthersKept slot free stack.old stack.new }
{
    negate(slot, stack, spare, classes, scratch);
    eventually_in(letters, slot, free, stack, spare, classes, scratch)
}

// Puts `always` of the rule in a slot in its place. A free slot takes the constant.
pub fn always_in(
    letters: usize,
    slot: usize,
    free: usize,
    stack: &mut [u8],
    spare: &mut [u8],
    classes: &mut [u8],
    scratch: &mut [u8],
) -> Written
    requires rule_needs { RuleNeeds letters 3 }
    requires slot_lt_free { slot < free }
    requires free_bound { free ≤ 8 }
    requires stack_size_in_bounds { stack_size ≤ length stack.old }
    requires rule_size_in_bounds { rule_size ≤ length spare.old }
    requires until_classes_size_in_bounds { until_classes_size ≤ length classes.old }
    requires scratch_size_in_bounds { scratch_size ≤ length scratch.old }
    ensures step { OneStep letters op_always slot stack.old stack.new result }
    ensures kept { OthersKept slot free stack.old stack.new }
{
    let made = eventually_not_in(letters, slot, free, stack, spare, classes, scratch);
    negate_made(made, slot, stack, spare, classes, scratch)
}

// Negates the rules in two slots.
fn negate_both(
    first: usize,
    second: usize,
    stack: &mut [u8],
    spare: &mut [u8],
    classes: &mut [u8],
    scratch: &mut [u8],
)
    requires first_lt_second { first < second }
    requires second_bound { second ≤ 8 }
    requires stack_size_in_bounds { stack_size ≤ length stack.old }
    requires rule_size_in_bounds { rule_size ≤ length spare.old }
    requires until_classes_size_in_bounds { until_classes_size ≤ length classes.old }
    requires scratch_size_in_bounds { scratch_size ≤ length scratch.old }
    ensures negated { BothNegated first second stack.old stack.new }
    ensures kept { OthersKept first second stack.old stack.new }
{
    negate(first, stack, spare, classes, scratch);
    negate(second, stack, spare, classes, scratch);
}

// Puts `until` of the negations of the rules in two slots in the first's place. The second's place has its negation then.
fn until_negated_in(
    first: usize,
    second: usize,
    stack: &mut [u8],
    spare: &mut [u8],
    classes: &mut [u8],
    scratch: &mut [u8],
) -> Written
    requires first_lt_second { first < second }
    requires second_bound { second ≤ 8 }
    requires stack_size_in_bounds { stack_size ≤ length stack.old }
    requires rule_size_in_bounds { rule_size ≤ length spare.old }
    requires until_classes_size_in_bounds { until_classes_size ≤ length classes.old }
    requires scratch_size_in_bounds { scratch_size ≤ length scratch.old }
    ensures step { (letters : ℕ) → UntilNegated letters first second stack.old stack.new result }
    ensures kept { OthersKept first second stack.old stack.new }
{
    negate_both(first, second, stack, spare, classes, scratch);
    until_into(first, second, first, stack, spare, classes, scratch)
}

// Puts `release` of the rules in two slots in the first's place. The second's place is free then.
pub fn release_in(
    first: usize,
    second: usize,
    stack: &mut [u8],
    spare: &mut [u8],
    classes: &mut [u8],
    scratch: &mut [u8],
) -> Written
    requires first_lt_second { first < second }
    requires second_bound { second ≤ 8 }
    requires stack_size_in_bounds { stack_size ≤ length stack.old }
    requires rule_size_in_bounds { rule_size ≤ length spare.old }
    requires until_classes_size_in_bounds { until_classes_size ≤ length classes.old }
    requires scratch_size_in_bounds { scratch_size ≤ length scratch.old }
    ensures step { (letters : ℕ) → TwoStep letters op_release first second first stack.old stack.new result }
    ensures kept { OthersKept first second stack.old stack.new }
{
    let made = until_negated_in(first, second, stack, spare, classes, scratch);
    negate_made(made, first, stack, spare, classes, scratch)
}

// Puts the rule in another slot or `always` of the rule in a slot in the latter's place. A free slot takes the constant.
fn or_always_in(
    letters: usize,
    first: usize,
    free: usize,
    other: usize,
    stack: &mut [u8],
    spare: &mut [u8],
    classes: &mut [u8],
    scratch: &mut [u8],
) -> Written
    requires rule_needs { RuleNeeds letters 3 }
    requires first_lt_free { first < free }
    requires free_lt_other { free < other }
    requires other_bound { other ≤ 8 }
    requires stack_size_in_bounds { stack_size ≤ length stack.old }
    requires rule_size_in_bounds { rule_size ≤ length spare.old }
    requires until_classes_size_in_bounds { until_classes_size ≤ length classes.old }
    requires scratch_size_in_bounds { scratch_size ≤ length scratch.old }
    ensures step { OrAlways letters first other stack.old stack.new result }
    ensures kept { OthersKept first free stack.old stack.new }
{
    let always = always_in(letters, first, free, stack, spare, classes, scratch);
    if is_refusal(always) {
        return always;
    }
    let either = Operation::Either;
    combine_into(other, first, either, first, stack, spare, classes, scratch)
}

// Puts `weak until` of the rules in two slots in the first's place. The second's place and a free slot take what is between.
pub fn weak_until_in(
    letters: usize,
    first: usize,
    second: usize,
    free: usize,
    stack: &mut [u8],
    spare: &mut [u8],
    classes: &mut [u8],
    scratch: &mut [u8],
) -> Written
    requires rule_needs { RuleNeeds letters 3 }
    requires first_lt_second { first < second }
    requires second_lt_free { second < free }
    requires free_bound { free ≤ 8 }
    requires stack_size_in_bounds { stack_size ≤ length stack.old }
    requires rule_size_in_bounds { rule_size ≤ length spare.old }
    requires until_classes_size_in_bounds { until_classes_size ≤ length classes.old }
    requires scratch_size_in_bounds { scratch_size ≤ length scratch.old }
    ensures step { TwoStep letters op_weak_until first second first stack.old stack.new result }
    ensures kept { KeptBelow first stack.old stack.new }
{
    let until = until_into(first, second, free, stack, spare, classes, scratch);
    if is_refusal(until) {
        return until;
    }
    or_always_in(letters, first, second, free, stack, spare, classes, scratch)
}

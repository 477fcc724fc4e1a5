// The operations of a formula, one after the other on its stack of rules. It stands above the library and sees only its public calls.
#![tactic(auto)]

ghost use Rattle.std.specs.Prelude.{◌≡◌, ◌+◌, ◌≤◌, ◌<◌, length};
ghost use Rattle.formats.specs.RuleChecks.{rule_size, scratch_size};
ghost use Rattle.temporal_promises.specs.Until.{until_classes_size};
ghost use Rattle.formula_promises.specs.Checks.{stack_size};
ghost use Rattle.formula_promises.specs.Values.{meant_of_one, meant_of_two, meant};
ghost use Rattle.formula_slots.specs.Slots.{LentRoom, LentLengths};
ghost use Rattle.formula_pushes.specs.Pushes.{RuleNeeds};
ghost use Rattle.formula_derived.specs.Derived.{KeptBelow};
ghost use Rattle.formula_operations.specs.Applying.{ApplyNeeds, OperationApplied};
ghost use Rattle.formula_operations.specs.Groups.{applied_of, OneApplied, TwoApplied};

use answer::Refusal;
use formula_derived::{always_in, eventually_in, release_in, weak_until_in};
use formula_promises::{One, Operation, Two};
use formula_pushes::{constant_into, copy_into, set_into};
use formula_steps::{combine_into, negate, next_in, until_into};
use promises::Written;

// A step's answer, as the operation tells it: only why it is refused.
fn told(made: Written) -> Result<(), Refusal>
    ensures { result ≡ applied_of made }
{
    match made {
        Written::Rule(_) => Ok(()),
        Written::Refused {
            refusal,
            input: _,
            place: _,
        } => Err(refusal),
    }
}

// An operation on the rule in a slot. The slot above is free.
fn on_one(
    letters: usize,
    operation: One,
    slot: usize,
    stack: &mut [u8],
    spare: &mut [u8],
    classes: &mut [u8],
    scratch: &mut [u8],
) -> Result<(), Refusal>
    requires rule_needs { RuleNeeds letters 3 }
    requires slot_bound { slot < 8 }
    requires stack_size_in_bounds { stack_size ≤ length stack.old }
    requires rule_size_in_bounds { rule_size ≤ length spare.old }
    requires until_classes_size_in_bounds { until_classes_size ≤ length classes.old }
    requires scratch_size_in_bounds { scratch_size ≤ length scratch.old }
    ensures made { OneApplied letters (meant_of_one operation) slot stack.old stack.new result }
    ensures kept { KeptBelow slot stack.old stack.new }
{
    let free = slot + 1;
    match operation {
        One::Not => {
            negate(slot, stack, spare, classes, scratch);
            Ok(())
        }
        One::Next => told(next_in(slot, stack, spare, classes, scratch)),
        One::Eventually => told(eventually_in(letters, slot, free, stack, spare, classes, scratch)),
        One::Always => told(always_in(letters, slot, free, stack, spare, classes, scratch)),
    }
}

// An operation on the rules in two slots, one above the other. The slot above them is free.
fn on_two(
    letters: usize,
    operation: Two,
    first: usize,
    second: usize,
    stack: &mut [u8],
    spare: &mut [u8],
    classes: &mut [u8],
    scratch: &mut [u8],
) -> Result<(), Refusal>
    requires rule_needs { RuleNeeds letters 3 }
    requires second_value { second ≡ first + 1 }
    requires second_bound { second < 8 }
    requires stack_size_in_bounds { stack_size ≤ length stack.old }
    requires rule_size_in_bounds { rule_size ≤ length spare.old }
    requires until_classes_size_in_bounds { until_classes_size ≤ length classes.old }
    requires scratch_size_in_bounds { scratch_size ≤ length scratch.old }
    ensures made { TwoApplied letters (meant_of_two operation) first second stack.old stack.new result }
    ensures kept { KeptBelow first stack.old stack.new }
{
    match operation {
        Two::Both => told(combine_into(
            first,
            second,
            promises::Operation::Both,
            first,
            stack,
            spare,
            classes,
            scratch,
        )),
        Two::Either => told(combine_into(
            first,
            second,
            promises::Operation::Either,
            first,
            stack,
            spare,
            classes,
            scratch,
        )),
        Two::Without => told(combine_into(
            first,
            second,
            promises::Operation::Without,
            first,
            stack,
            spare,
            classes,
            scratch,
        )),
        Two::Until => told(until_into(first, second, first, stack, spare, classes, scratch)),
        Two::Release => told(release_in(first, second, stack, spare, classes, scratch)),
        Two::WeakUntil => {
            let free = second + 1;
            told(weak_until_in(letters, first, second, free, stack, spare, classes, scratch))
        }
    }
}

// Carries an operation out on a stack of so many rules.
pub fn apply(
    letters: usize,
    operation: Operation,
    height: usize,
    stack: &mut [u8],
    spare: &mut [u8],
    classes: &mut [u8],
    scratch: &mut [u8],
) -> Result<(), Refusal>
    requires apply_needs { ApplyNeeds letters (meant operation) height }
    requires lent_room { LentRoom stack.old spare.old classes.old scratch.old }
    ensures applied { OperationApplied letters (meant operation) height stack.old stack.new result }
    ensures lengths { LentLengths stack.old stack.new spare.old spare.new classes.old classes.new scratch.old scratch.new }
{
    match operation {
        Operation::Set { set, grade } => {
            set_into(letters, usize::from(set), usize::from(grade), height, stack);
            Ok(())
        }
        Operation::Constant { grade } => {
            constant_into(letters, usize::from(grade), height, stack);
            Ok(())
        }
        Operation::Copy { below } => {
            copy_into(height - 1 - usize::from(below), height, stack, spare);
            Ok(())
        }
        Operation::OnOne(one) => {
            let top = height - 1;
            on_one(letters, one, top, stack, spare, classes, scratch)
        }
        Operation::OnTwo(two) => {
            let top = height - 1;
            let first = top - 1;
            on_two(letters, two, first, top, stack, spare, classes, scratch)
        }
    }
}

// What is made of the rules on a formula's stack, each by one library call, and is not yet reduced. It stands above the library and sees only its
// public calls.
#![tactic(auto)]

ghost use Rattle.std.specs.Prelude.{◌+◌, ◌*◌, ◌≤◌, length};
ghost use Rattle.formats.specs.RuleChecks.{rule_size, scratch_size};
ghost use Rattle.temporal_promises.specs.Until.{until_classes_size};
ghost use Rattle.board_promises.specs.Boards.{file_at};
ghost use Rattle.formula_promises.specs.Operations.{op_next, op_until};
ghost use Rattle.formula_makings.specs.Makings.{two_of, ComplementMade, OneMade, TwoMade};

use formula_slots::rule_in;
use promises::{Operation, Written};
use rules::{combine, complement, next, until};

// The complement of the rule in a slot.
pub fn complement_of(stack: &[u8], slot: usize, spare: &mut [u8], scratch: &mut [u8])
    requires rule_size_in_bounds { rule_size * slot + rule_size ≤ length stack.now }
    requires rule_size_in_bounds_2 { rule_size ≤ length spare.old }
    requires scratch_size_in_bounds { scratch_size ≤ length scratch.old }
    ensures { ComplementMade (file_at stack.now slot) (file_at spare.new 0) }
{
    complement(rule_in(stack, slot), spare, scratch);
}

// `next` of the rule in a slot.
pub fn next_of(stack: &[u8], slot: usize, spare: &mut [u8], scratch: &mut [u8]) -> Written
    requires rule_size_in_bounds { rule_size * slot + rule_size ≤ length stack.now }
    requires rule_size_in_bounds_2 { rule_size ≤ length spare.old }
    requires scratch_size_in_bounds { scratch_size ≤ length scratch.old }
    ensures { OneMade op_next (file_at stack.now slot) (file_at spare.new 0) result }
{
    next(rule_in(stack, slot), spare, scratch)
}

// The rules in two slots, combined.
pub fn combine_of(
    stack: &[u8],
    first: usize,
    second: usize,
    operation: Operation,
    spare: &mut [u8],
    scratch: &mut [u8],
) -> Written
    requires rule_size_in_bounds { rule_size * first + rule_size ≤ length stack.now }
    requires rule_size_in_bounds_2 { rule_size * second + rule_size ≤ length stack.now }
    requires rule_size_in_bounds_3 { rule_size ≤ length spare.old }
    requires scratch_size_in_bounds { scratch_size ≤ length scratch.old }
    ensures { TwoMade (two_of operation) (file_at stack.now first) (file_at stack.now second) (file_at spare.new 0) result }
{
    let one = rule_in(stack, first);
    let other = rule_in(stack, second);
    combine(one, other, operation, spare, scratch)
}

// The rule in a slot until that in another.
pub fn until_of(
    stack: &[u8],
    first: usize,
    second: usize,
    spare: &mut [u8],
    classes: &mut [u8],
    scratch: &mut [u8],
) -> Written
    requires rule_size_in_bounds { rule_size * first + rule_size ≤ length stack.now }
    requires rule_size_in_bounds_2 { rule_size * second + rule_size ≤ length stack.now }
    requires rule_size_in_bounds_3 { rule_size ≤ length spare.old }
    requires until_classes_size_in_bounds { until_classes_size ≤ length classes.old }
    requires scratch_size_in_bounds { scratch_size ≤ length scratch.old }
    ensures { TwoMade op_until (file_at stack.now first) (file_at stack.now second) (file_at spare.new 0) result }
{
    let kept = rule_in(stack, first);
    let reached = rule_in(stack, second);
    until(kept, reached, spare, classes, scratch)
}

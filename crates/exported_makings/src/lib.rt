// What C and Rust are told of rules that are made, reduced and taken apart: each call's answer, packed into one number.
#![tactic(auto)]

ghost use Rattle.promises.specs.Automaton.{RulePromise};
ghost use Rattle.promises.specs.Combine.{CombinePromise};
ghost use Rattle.promises.specs.Confirm.{ConfirmPromise};
ghost use Rattle.promises.specs.Reduce.{ReducePromise};
ghost use Rattle.promises.specs.Rounds.{RoundsPromise};
ghost use Rattle.promises.specs.RuleAutomaton.{KindPromise, SuccessorsPromise};
ghost use Rattle.promises.specs.declared.Operation.TheVariants.{Both, Either, Without};
ghost use Rattle.temporal_promises.specs.FirstLetter.{FirstLetterPromise, ConstantPromise};
ghost use Rattle.temporal_promises.specs.Next.{NextPromise};
ghost use Rattle.temporal_promises.specs.Until.{UntilPromise};
ghost use Rattle.packing_counts.specs.Counts.{written_contents, partition_contents, successors_contents};
ghost use Rattle.packing_decisions.specs.Decisions.{confirmation_contents, kind_contents};
ghost use Rattle.packing.specs.Exports.{Exported};

use packing_counts::{pack_partition, pack_successors, pack_written};
use packing_decisions::{pack_confirmation, pack_kind};
use promises::Operation;

// How many bytes the reduction has, which stands in `out`; in `map` for each element of the rule the number of the element that it went to.
pub fn reduce(rule: &[u8], out: &mut [u8], map: &mut [u8], scratch: &mut [u8]) -> u64
    ensures { Exported (ReducePromise rule.now out.old out.new map.old map.new scratch.old scratch.new) written_contents result }
{
    pack_written(rules::reduce(rule, out, map, scratch))
}

// 1 if the second rule is the first one reduced by the map, else 0.
pub fn confirm(first: &[u8], second: &[u8], map: &[u8], scratch: &mut [u8]) -> u64
    ensures { Exported (ConfirmPromise first.now second.now map.now scratch.old scratch.new) confirmation_contents result }
{
    pack_confirmation(rules::confirm(first, second, map, scratch))
}

// How many bytes the rule with the lower of two grades has, which stands in `out`.
pub fn both(first: &[u8], second: &[u8], out: &mut [u8], scratch: &mut [u8]) -> u64
    ensures { Exported (CombinePromise first.now second.now Both out.old out.new scratch.old scratch.new) written_contents result }
{
    pack_written(rules::combine(first, second, Operation::Both, out, scratch))
}

// The same with the higher of two grades.
pub fn either(first: &[u8], second: &[u8], out: &mut [u8], scratch: &mut [u8]) -> u64
    ensures { Exported (CombinePromise first.now second.now Either out.old out.new scratch.old scratch.new) written_contents result }
{
    pack_written(rules::combine(first, second, Operation::Either, out, scratch))
}

// The same with the lower of the first grade and 3 less the second.
pub fn without(first: &[u8], second: &[u8], out: &mut [u8], scratch: &mut [u8]) -> u64
    ensures { Exported (CombinePromise first.now second.now Without out.old out.new scratch.old scratch.new) written_contents result }
{
    pack_written(rules::combine(first, second, Operation::Without, out, scratch))
}

// How many bytes the rule that gives a grade where the first letter is in a set has, which stands in `out`.
pub fn first_letter(letters: usize, set: usize, grade: usize, out: &mut [u8]) -> u64
    ensures { Exported (FirstLetterPromise letters set grade out.old out.new) written_contents result }
{
    pack_written(rules::first_letter(letters, set, grade, out))
}

// The same of the rule that gives every lasso a grade.
pub fn constant(letters: usize, grade: usize, out: &mut [u8]) -> u64
    ensures { Exported (ConstantPromise letters grade out.old out.new) written_contents result }
{
    pack_written(rules::constant(letters, grade, out))
}

// The same of the rule that gives the grade of the word without its first letter.
pub fn next(rule: &[u8], out: &mut [u8], scratch: &mut [u8]) -> u64
    ensures { Exported (NextPromise rule.now out.old out.new scratch.old scratch.new) written_contents result }
{
    pack_written(rules::next(rule, out, scratch))
}

// The same of the rule of the first rule until the second.
pub fn until(
    first: &[u8],
    second: &[u8],
    out: &mut [u8],
    classes: &mut [u8],
    scratch: &mut [u8],
) -> u64
    ensures { Exported (UntilPromise first.now second.now out.old out.new classes.old classes.new scratch.old scratch.new) written_contents result }
{
    pack_written(rules::until(first, second, out, classes, scratch))
}

// How many rounds of the reduction were done within the limit, and 1 if one more would change nothing; the blocks in `blocks`.
pub fn reduce_rounds(rule: &[u8], limit: usize, blocks: &mut [u8], scratch: &mut [u8]) -> u64
    ensures { Exported (RoundsPromise rule.now limit blocks.old blocks.new scratch.old scratch.new) partition_contents result }
{
    pack_partition(rules::reduce_rounds(rule, limit, blocks, scratch))
}

// How many bytes the rule made from an automaton has, which stands in `out`.
pub fn automaton_rule(automaton: &[u8], out: &mut [u8], scratch: &mut [u8]) -> u64
    ensures { Exported (RulePromise automaton.now out.old out.new scratch.old scratch.new) written_contents result }
{
    pack_written(rules::automaton_rule(automaton, out, scratch))
}

// The kind of a state of the rule's automaton for a least grade: 0 plain, 1 initial, 2 final.
pub fn state_kind(rule: &[u8], s: usize, e: usize, least: u8, scratch: &mut [u8]) -> u64
    ensures { Exported (KindPromise rule.now s e least scratch.old scratch.new) kind_contents result }
{
    pack_kind(rules::state_kind(rule, s, e, least, scratch))
}

// How many states a letter leads to from a state of the rule's automaton; the states in `out`.
pub fn successors(
    rule: &[u8],
    s: usize,
    e: usize,
    letter: u8,
    out: &mut [u8],
    scratch: &mut [u8],
) -> u64
    ensures { Exported (SuccessorsPromise rule.now s e letter out.old out.new scratch.old scratch.new) successors_contents result }
{
    pack_successors(rules::successors(rule, s, e, letter, out, scratch))
}

// What is put on a formula's stack: the rule of a set of first letters, of a constant, and a copy. It stands above the library and sees only its public
// calls.
#![tactic(auto)]

ghost use Rattle.std.specs.Prelude.{◌+◌, ◌*◌, ◌≤◌, length};
ghost use Rattle.formats.specs.RuleChecks.{rule_size};
ghost use Rattle.board_promises.specs.Boards.{file_at};
ghost use Rattle.formula_promises.specs.Checks.{stack_size};
ghost use Rattle.formula_slots.specs.Kept.{OthersKept};
ghost use Rattle.formula_pushes.specs.Pushes.{RuleNeeds, KnownLetters, SetFile, ConstantFile, Copied};

use board_buffers::put;
use formula_slots::rule_in;
use rules::{RULE_SIZE, constant, first_letter};

// Puts the rule of a set of first letters in a slot.
pub fn set_into(letters: usize, set: usize, grade: usize, slot: usize, stack: &mut [u8])
    requires rule_needs { RuleNeeds letters grade }
    requires known_letters { KnownLetters letters set }
    requires slot_bound { slot ≤ 8 }
    requires stack_size_in_bounds { stack_size ≤ length stack.old }
    ensures made { SetFile letters set grade (file_at stack.new slot) }
    ensures kept { OthersKept slot slot stack.old stack.new }
{
    let from = RULE_SIZE * slot;
    let to = from + RULE_SIZE;
    first_letter(letters, set, grade, &mut stack[from..to]);
}

// Puts the rule of a constant in a slot.
pub fn constant_into(letters: usize, grade: usize, slot: usize, stack: &mut [u8])
    requires rule_needs { RuleNeeds letters grade }
    requires slot_bound { slot ≤ 8 }
    requires stack_size_in_bounds { stack_size ≤ length stack.old }
    ensures made { ConstantFile letters grade (file_at stack.new slot) }
    ensures kept { OthersKept slot slot stack.old stack.new }
{
    let from = RULE_SIZE * slot;
    let to = from + RULE_SIZE;
    constant(letters, grade, &mut stack[from..to]);
}

// Copies the rule in a slot to spare.
fn copy_of(stack: &[u8], slot: usize, spare: &mut [u8])
    requires rule_size_in_bounds { rule_size * slot + rule_size ≤ length stack.now }
    requires rule_size_in_bounds_2 { rule_size ≤ length spare.old }
    ensures { Copied (file_at stack.now slot) (file_at spare.new 0) }
{
    put(rule_in(stack, slot), spare, 0);
}

// Copies the rule in a slot to another.
pub fn copy_into(from: usize, slot: usize, stack: &mut [u8], spare: &mut [u8])
    requires from_bound { from ≤ 8 }
    requires slot_bound { slot ≤ 8 }
    requires stack_size_in_bounds { stack_size ≤ length stack.old }
    requires rule_size_in_bounds { rule_size ≤ length spare.old }
    ensures copied { Copied (file_at stack.old from) (file_at stack.new slot) }
    ensures kept { OthersKept slot slot stack.old stack.new }
{
    copy_of(stack, from, spare);
    put(rule_in(spare, 0), stack, slot);
}

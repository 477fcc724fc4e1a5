// The slots of a formula's stack, each with room for a rule file. It stands above the library and sees only its public calls.
#![tactic(auto)]

ghost use Rattle.std.specs.Prelude.{◌≡◌, ◌+◌, ◌*◌, ◌≤◌, length};
ghost use Rattle.formats.specs.RuleChecks.{rule_size};
ghost use Rattle.board_promises.specs.Boards.{file_at};

use rules::{RULE_SIZE, file_part};

// The rule that stands in a slot.
pub fn rule_in(stack: &[u8], slot: usize) -> &[u8]
    requires { rule_size * slot + rule_size ≤ length stack.now }
    ensures file { result.now ≡ file_at stack.now slot }
    ensures short { length result.now ≤ rule_size }
{
    let from = RULE_SIZE * slot;
    let to = from + RULE_SIZE;
    file_part(&stack[from..to])
}

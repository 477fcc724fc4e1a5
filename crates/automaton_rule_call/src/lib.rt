// The call for the rule of an automaton: the file is checked, then its rule made, by the table of products where there are two states.
#![tactic(auto)]

ghost use Rattle.automaton_translation.specs.Promise.{ReadHere, MadePromise};
ghost use Rattle.promises.specs.Automaton.{RulePromise};

use answer::{Refusal, Refused};
use automaton_file::read_automaton;
use automaton_ready_table::make_ready_rule;
use automaton_translation::make_rule;
use formats::RULE_SIZE;
use promises::Written;

// The rule of an automaton that was read: by the table of products where it has two states, without a table else.
fn translate(automaton: &[u8], n: usize, k: usize, out: &mut [u8], scratch: &mut [u8]) -> Written
    requires { ReadHere automaton.now n k out.old scratch.old }
    ensures { MadePromise automaton.now out.old out.new scratch.old scratch.new result }
{
    if n == 2 {
        return make_ready_rule(automaton, n, k, out, scratch);
    }
    make_rule(automaton, n, k, out, scratch, &automaton[..0])
}

// Checks an automaton and writes its rule, or refuses it. Scratch ends as zeros, but where a buffer is too short.
pub fn automaton_rule(automaton: &[u8], out: &mut [u8], scratch: &mut [u8]) -> Written
    ensures { RulePromise automaton.now out.old out.new scratch.old scratch.new result }
{
    if out.len() < RULE_SIZE {
        return Written::Refused {
            refusal: Refusal::BufferTooShort,
            input: 1,
            place: 0,
        };
    }
    match read_automaton(automaton, 1, scratch) {
        Ok(counts) => translate(automaton, counts.states, counts.letters, out, scratch),
        Err(
            Refused {
                refusal,
                input,
                place,
            },
        ) => Written::Refused {
            refusal,
            input,
            place,
        },
    }
}

// What moves a monitor once its rule and its values are checked: an event or a mark, and a word of events with its own checks.
#![tactic(auto)]

ghost use Rattle.std.specs.Prelude.{◌≡◌, ◌≤◌, ◌<◌, length, drop};
ghost use Rattle.theory.specs.Words.{Over};
ghost use Rattle.formats.proofs.Tables.{Table};
ghost use Rattle.formats.specs.Table.{morphism_at};
ghost use Rattle.promises.specs.EventWords.{after_word};
ghost use Rattle.promises.specs.Advance.{after_step, ForeignStep};
ghost use Rattle.monitor_state.specs.Ready.{GoodMonitor};
ghost use Rattle.monitor_steps.specs.Steps.{Along, LogAnswer};

use answer::{Fault, Refusal};
use monitor_state::join;
use promises::{LONGEST_LOG, Monitor, Step};
use rule_table::{image, product};
use section_bounds::first_out;

// The monitor after a step that is not foreign.
pub fn moved(rule: &[u8], n: usize, k: usize, monitor: Monitor, step: Step) -> Monitor
    requires table { Table rule.now n k }
    requires good_monitor { GoodMonitor n monitor }
    requires fact { ForeignStep k step → ⊥ }
    ensures moved { result ≡ after_step (morphism_at rule.now n k) monitor step }
    ensures good { GoodMonitor n result }
{
    let before = monitor.before;
    let since = monitor.since;
    match step {
        Step::Event(letter) => {
            let next = join(rule, n, k, since, image(rule, n, letter as usize));
            Monitor {
                before,
                since: next,
            }
        }
        Step::Mark => {
            let next = join(rule, n, k, before, since);
            Monitor {
                before: next,
                since: 64,
            }
        }
        Step::Stay => monitor,
    }
}

// The first check of a word of events that fails: its length, and then its letters.
pub fn log_fault(word: &[u8], k: usize) -> Result<(), Fault>
    ensures { LogAnswer k word.now result }
{
    if LONGEST_LOG < word.len() {
        return Err(Fault {
            refusal: Refusal::WordLength,
            place: 0,
        });
    }
    match first_out(word, 0, word.len(), k) {
        Some(i) => Err(Fault {
            refusal: Refusal::UnknownLetter,
            place: i,
        }),
        None => Ok(()),
    }
}

// What the letters of a word from a place on make of a since that is an element: each is one product.
fn along(rule: &[u8], n: usize, k: usize, since: usize, word: &[u8], from: usize) -> usize
    requires table { Table rule.now n k }
    requires since_lt_n { since < n }
    requires over { Over k word.now }
    requires from_in_bounds { from ≤ length word.now }
    ensures { Along (morphism_at rule.now n k) since (drop from word.now) result }
{
    let mut value = since;
    for letter in &word[from..] {
        value = product(rule, n, value, image(rule, n, *letter as usize));
    }
    value
}

// The monitor after a word of events whose letters are known. A since that is none is the first letter's element before the others come.
pub fn moved_by_word(rule: &[u8], n: usize, k: usize, monitor: Monitor, word: &[u8]) -> Monitor
    requires table { Table rule.now n k }
    requires good_monitor { GoodMonitor n monitor }
    requires over { Over k word.now }
    ensures moved { result ≡ after_word (morphism_at rule.now n k) monitor word.now }
    ensures good { GoodMonitor n result }
{
    let before = monitor.before;
    let since = monitor.since;
    if word.len() == 0 {
        return monitor;
    }
    if since == 64 {
        let first = image(rule, n, word[0] as usize);
        let next = along(rule, n, k, first, word, 1);
        return Monitor {
            before,
            since: next,
        };
    }
    let next = along(rule, n, k, since, word, 0);
    Monitor {
        before,
        since: next,
    }
}

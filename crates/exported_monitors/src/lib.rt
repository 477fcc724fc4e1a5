// What C and Rust are told of monitors: each call's answer, packed into one number.
#![tactic(auto)]

ghost use Rattle.std.specs.Prelude.{◌≡◌};
ghost use Rattle.promises.specs.Advance.{AdvancePromise, AdvanceWordPromise};
ghost use Rattle.promises.specs.Feed.{FeedPromise};
ghost use Rattle.promises.specs.Monitor.{fresh_monitor};
ghost use Rattle.promises.specs.Moves.{EventPromise, MarkPromise};
ghost use Rattle.promises.specs.Points.{KeepPromise, ReturnPromise};
ghost use Rattle.promises.specs.Verdict.{VerdictPromise};
ghost use Rattle.promises.specs.declared.Step.TheVariants.{Event, Mark, Stay};
ghost use Rattle.packing_decisions.specs.Decisions.{lasso_verdict_contents};
ghost use Rattle.packing_monitors.specs.Monitors.{pack_monitor, moved_contents, advanced_contents};
ghost use Rattle.packing.specs.Exports.{Exported};

use packing::pack_fields;
use packing_decisions::pack_lasso_verdict;
use packing_monitors::{pack_advanced, pack_moved};
use promises::{Monitor, Step};

// The values of a monitor that has seen nothing.
pub fn fresh() -> u64
    ensures { result ≡ pack_monitor fresh_monitor }
{
    let m = rules::fresh();
    pack_fields(m.before, m.since, 0)
}

// The values of a monitor after an event.
pub fn event(rule: &[u8], before: usize, since: usize, letter: u8, scratch: &mut [u8]) -> u64
    ensures { Exported (EventPromise rule.now (record { before = before; since = since }) letter scratch.old scratch.new) moved_contents result }
{
    pack_moved(rules::event(rule, Monitor { before, since }, letter, scratch))
}

// The values of a monitor after a mark.
pub fn mark(rule: &[u8], before: usize, since: usize, scratch: &mut [u8]) -> u64
    ensures { Exported (MarkPromise rule.now (record { before = before; since = since }) scratch.old scratch.new) moved_contents result }
{
    pack_moved(rules::mark(rule, Monitor { before, since }, scratch))
}

// The values of a monitor after an event for each letter of a word.
pub fn feed(rule: &[u8], before: usize, since: usize, word: &[u8], scratch: &mut [u8]) -> u64
    ensures { Exported (FeedPromise rule.now (record { before = before; since = since }) word.now scratch.old scratch.new) moved_contents result }
{
    pack_moved(rules::feed(rule, Monitor { before, since }, word, scratch))
}

// The values of a monitor that is kept under a name in `points`.
pub fn keep(
    rule: &[u8],
    before: usize,
    since: usize,
    name: usize,
    points: &mut [u8],
    scratch: &mut [u8],
) -> u64
    ensures { Exported (KeepPromise rule.now (record { before = before; since = since }) name points.old points.new scratch.old scratch.new) moved_contents result }
{
    pack_moved(rules::keep(rule, Monitor { before, since }, name, points, scratch))
}

// The values of the monitor that was kept under a name.
pub fn return_to(
    rule: &[u8],
    before: usize,
    since: usize,
    name: usize,
    points: &[u8],
    scratch: &mut [u8],
) -> u64
    ensures { Exported (ReturnPromise rule.now (record { before = before; since = since }) name points.now scratch.old scratch.new) moved_contents result }
{
    pack_moved(rules::return_to(rule, Monitor { before, since }, name, points, scratch))
}

// The grade of the lassos with the monitor's values, 0 to 3, and how many turns settle the value of since.
pub fn verdict(rule: &[u8], before: usize, since: usize, scratch: &mut [u8]) -> u64
    ensures { Exported (VerdictPromise rule.now (record { before = before; since = since }) scratch.old scratch.new) lasso_verdict_contents result }
{
    pack_lasso_verdict(rules::verdict(rule, Monitor { before, since }, scratch))
}

// The values of a monitor after an event, and the grade of the lassos with these values, 0 to 3, with 256 times the turns that settle the value of since. This and the three calls
// below answer grade 4 and no turns where since is none.
pub fn advance_event(
    rule: &[u8],
    before: usize,
    since: usize,
    letter: u8,
    scratch: &mut [u8],
) -> u64
    ensures { Exported (AdvancePromise 1 rule.now (record { before = before; since = since }) (Event letter) scratch.old scratch.new) advanced_contents result }
{
    pack_advanced(rules::advance(
        rule,
        1,
        Monitor { before, since },
        Step::Event(letter),
        scratch,
    ))
}

// The same after a mark.
pub fn advance_mark(rule: &[u8], before: usize, since: usize, scratch: &mut [u8]) -> u64
    ensures { Exported (AdvancePromise 1 rule.now (record { before = before; since = since }) Mark scratch.old scratch.new) advanced_contents result }
{
    pack_advanced(rules::advance(rule, 1, Monitor { before, since }, Step::Mark, scratch))
}

// The same of the monitor as it is.
pub fn advance_stay(rule: &[u8], before: usize, since: usize, scratch: &mut [u8]) -> u64
    ensures { Exported (AdvancePromise 1 rule.now (record { before = before; since = since }) Stay scratch.old scratch.new) advanced_contents result }
{
    pack_advanced(rules::advance(rule, 1, Monitor { before, since }, Step::Stay, scratch))
}

// The same after an event for each letter of a word.
pub fn advance_word(
    rule: &[u8],
    before: usize,
    since: usize,
    word: &[u8],
    scratch: &mut [u8],
) -> u64
    ensures { Exported (AdvanceWordPromise 1 rule.now (record { before = before; since = since }) word.now scratch.old scratch.new) advanced_contents result }
{
    pack_advanced(rules::advance_word(rule, 1, Monitor { before, since }, word, scratch))
}

// A rule that is strong and a monitor of it, before a call moves the monitor and grades it: one check of the rule and one decision of its strength serve both, where
// an event and a verdict would take two of each. The closure of the marks stays in scratch, and the grade of a monitor's values is one look there.
#![tactic(auto)]

ghost use Rattle.std.specs.Prelude.{◌≤◌, length};
ghost use Rattle.theory.specs.Rules.{Lawful};
ghost use Rattle.formats.proofs.Tables.{Table};
ghost use Rattle.formats.specs.Table.{morphism_at};
ghost use Rattle.formats.specs.RuleChecks.{scratch_size};
ghost use Rattle.monitor_state.specs.Ready.{GoodMonitor};
ghost use Rattle.monitor_standing.specs.Standing.{GradeRead, TurnsRead, StandingAnswer};

use answer::{Refusal, Refused};
use mark_strong::decide;
use monitor_judging::{Looked, values_grade};
use monitor_state::out_of_range;
use promises::Monitor;
use rule_check::check;
use rule_layout::Shape;
use sections::zero;
use verdict_call::start_element;

// Checks a rule, which is the input of the given number, a monitor's values and the rule's strength. Where it is refused scratch ends as zeros, but where it is too
// short.
pub fn check_standing(
    rule: &[u8],
    input: usize,
    monitor: Monitor,
    scratch: &mut [u8],
) -> Result<Shape, Refused>
    ensures { StandingAnswer input rule.now monitor scratch.old scratch.new result }
{
    let shape = check(rule, input, scratch)?;
    if out_of_range(shape.elements, monitor) {
        zero(scratch);
        return Err(Refused {
            refusal: Refusal::EntryOutOfRange,
            input,
            place: 0,
        });
    }
    if !decide(rule, shape.elements, shape.letters, scratch) {
        zero(scratch);
        return Err(Refused {
            refusal: Refusal::NotStrong,
            input,
            place: 0,
        });
    }
    Ok(shape)
}

// The grade of a monitor's values by the closure in the second table of marks, and the turns of its since; 4 and 0 where its since is none.
pub fn monitor_grade(rule: &[u8], n: usize, k: usize, monitor: Monitor, scratch: &[u8]) -> Looked
    requires table { Table rule.now n k }
    requires lawful { Lawful (morphism_at rule.now n k) }
    requires good_monitor { GoodMonitor n monitor }
    requires scratch_size_in_bounds { scratch_size ≤ length scratch.now }
    ensures grade { GradeRead (morphism_at rule.now n k) scratch.now monitor result.grade }
    ensures turns { TurnsRead (morphism_at rule.now n k) monitor result.turns }
{
    let since = monitor.since;
    if since == 64 {
        return Looked { grade: 4, turns: 0 };
    }
    let start = start_element(monitor);
    values_grade(rule, n, k, scratch, start, since)
}

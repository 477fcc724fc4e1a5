// The checks of the calls that are handed a monitor's named points (document 02, Job 1): the name, and then the monitor's values with
// those under every kept name.
#![tactic(auto)]

ghost use Rattle.std.specs.Prelude.{◌≤◌, ◌<◌, length};
ghost use Rattle.promises.specs.Points.{names_count, points_size};
ghost use Rattle.monitor_point_checks.specs.PointChecks.{keep_faults, return_faults, NameAnswer, PointsAnswer, ValuesAnswer, PointFault};

use answer::{Fault, Refusal};
use monitor_state::out_of_range;
use promises::{Monitor, NAMES_COUNT};

// Whether a name was kept with a value that is neither an element nor 64.
fn name_out_of_range(n: usize, points: &[u8], name: usize) -> bool
    requires { (points_size ≤ length points.now) × (name < names_count) }
    ensures { NameAnswer n points.now name result }
{
    if points[3 * name] == 0 {
        return false;
    }
    let before = points[3 * name + 1] as usize;
    let since = points[3 * name + 2] as usize;
    out_of_range(n, Monitor { before, since })
}

// Whether any name was.
fn points_out_of_range(n: usize, points: &[u8]) -> bool
    requires { points_size ≤ length points.now }
    ensures { PointsAnswer n points.now result }
{
    // By number: names are the numbers below NAMES_COUNT.
    for name in 0..NAMES_COUNT {
        if name_out_of_range(n, points, name) {
            return true;
        }
    }
    false
}

// Whether a value of the monitor or of a kept name is neither an element nor 64.
fn values_out_of_range(n: usize, m: Monitor, points: &[u8]) -> bool
    requires { points_size ≤ length points.now }
    ensures { ValuesAnswer n m points.now result }
{
    if out_of_range(n, m) {
        return true;
    }
    points_out_of_range(n, points)
}

// What a keep is refused for, once the rule has passed.
pub fn keep_fault(n: usize, m: Monitor, name: usize, points: &[u8]) -> Result<(), Fault>
    requires { points_size ≤ length points.now }
    ensures { PointFault (keep_faults n m name points.now) result }
{
    if NAMES_COUNT <= name {
        return Err(Fault {
            refusal: Refusal::NameOutOfRange,
            place: 0,
        });
    }
    if values_out_of_range(n, m, points) {
        return Err(Fault {
            refusal: Refusal::EntryOutOfRange,
            place: 0,
        });
    }
    Ok(())
}

// What a return is refused for, once the rule has passed.
pub fn return_fault(n: usize, m: Monitor, name: usize, points: &[u8]) -> Result<(), Fault>
    requires { points_size ≤ length points.now }
    ensures { PointFault (return_faults n m name points.now) result }
{
    if NAMES_COUNT <= name {
        return Err(Fault {
            refusal: Refusal::NameOutOfRange,
            place: 0,
        });
    }
    if points[3 * name] == 0 {
        return Err(Fault {
            refusal: Refusal::NameNeverKept,
            place: 0,
        });
    }
    if values_out_of_range(n, m, points) {
        return Err(Fault {
            refusal: Refusal::EntryOutOfRange,
            place: 0,
        });
    }
    Ok(())
}

// An event on a monitor that is lent: the new since is stored in it.
#![tactic(auto)]

ghost use Rattle.std.specs.Prelude.{◌≡◌};
ghost use Rattle.event_in_place_call.specs.InPlace.{since_of, told_of};
ghost use Rattle.promises.specs.InPlace.{EventInPlace};

use event_and_mark_call::event;
use promises::{InPlaceAnswer, Monitor, Moved};

// The number since of the monitor that a call hands back.
fn since_of(moved: Moved) -> usize
    ensures { result ≡ since_of moved }
{
    match moved {
        Moved::To(g) => g.since,
        Moved::Refused {
            monitor,
            refusal,
            input,
            place,
        } => monitor.since,
    }
}

// The answer of a call, without the monitor.
fn told_of(moved: Moved) -> InPlaceAnswer
    ensures { result ≡ told_of moved }
{
    match moved {
        Moved::To(g) => InPlaceAnswer::Done,
        Moved::Refused {
            monitor,
            refusal,
            input,
            place,
        } => InPlaceAnswer::Refused {
            refusal,
            input,
            place,
        },
    }
}

// An event on a monitor that is lent: the new since is stored in it.
pub fn event_in_place(rule: &[u8], m: &mut Monitor, letter: u8, scratch: &mut [u8]) -> InPlaceAnswer
    ensures { EventInPlace rule.now m.old letter scratch.old scratch.new m.new result }
{
    let moved = event(rule, *m, letter, scratch);
    m.since = since_of(moved);
    told_of(moved)
}

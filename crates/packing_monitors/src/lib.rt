// Answers about monitors and the harbour board, packed into one number.
#![tactic(auto)]

ghost use Rattle.std.specs.Prelude.{◌≡◌, ◌+◌, ◌*◌, ◌%◌};
ghost use Rattle.packing_monitors.specs.Monitors.{pack_moved, pack_advanced, pack_notice};

use board_promises::{Board, Notice};
use packing::{pack_fields, pack_refusal};
use promises::{Advanced, Moved};

pub fn pack_moved(answer: Moved) -> u64
    ensures { result ≡ pack_moved answer }
{
    match answer {
        Moved::To(m) => pack_fields(m.before, m.since, 0),
        Moved::Refused {
            monitor: _,
            refusal,
            input,
            place,
        } => pack_refusal(refusal, input, place),
    }
}

// A grade and turns in one field.
fn grade_and_turns(grade: usize, turns: usize) -> usize
    ensures { result % 65536 ≡ (grade + 256 * turns) % 65536 }
{
    grade % 65536 + 256 * (turns % 256)
}

pub fn pack_advanced(answer: Advanced) -> u64
    ensures { result ≡ pack_advanced answer }
{
    match answer {
        Advanced::To {
            monitor,
            grade,
            turns,
        } => pack_fields(monitor.before, monitor.since, grade_and_turns(grade, turns)),
        Advanced::Refused {
            monitor: _,
            refusal,
            input,
            place,
        } => pack_refusal(refusal, input, place),
    }
}

// The lowest grade of the board that a call of the harbour board hands back.
pub fn pack_notice(board: Board, notice: Notice) -> u64
    ensures { result ≡ pack_notice board notice }
{
    match notice {
        Notice::Done => pack_fields(board.lowest, 0, 0),
        Notice::Refused {
            refusal,
            input,
            place,
        } => pack_refusal(refusal, input, place),
    }
}

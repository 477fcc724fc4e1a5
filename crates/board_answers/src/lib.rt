// A pass of the harbour board over its names, by value: what the library's answers make of it, and what comes of it in the end. It stands above
// the library and sees only its public calls and the board's promises.
#![tactic(auto)]

ghost use Rattle.std.specs.Prelude.{◌≡◌, ◌<◌};
ghost use Rattle.board_promises.specs.Boards.{board_names_count, with_lowest, with_left};
ghost use Rattle.board_answers.specs.Answers.{RefusesAnswer, Lesser, LowestWith, with_refusal, RefusalTold, Told, EntryTold, PassAnswer, StepAnswer};

use board_promises::{Board, Notice, Posted};
use rules::{Advanced, Refusal, number};

// How far a pass over the names has come: the monitors moved so far, the lowest grade so far, the lowest name that the step is foreign to, 8
// where there is none, and the first refusal.
#[derive(Drop)]
pub struct Pass {
    pub next: Board,
    pub lowest: usize,
    pub foreign: usize,
    pub notice: Notice,
}

// Whether a notice is of a refusal.
pub fn refuses(notice: Notice) -> bool
    ensures { RefusesAnswer notice result }
{
    match notice {
        Notice::Done => false,
        Notice::Refused {
            refusal: _,
            input: _,
            place: _,
        } => true,
    }
}

fn lesser(a: usize, b: usize) -> usize
    ensures { Lesser a b result }
{
    if b < a {
        return b;
    }
    a
}

// The lowest grade with that of one name more; the leaver's is not counted.
fn lowest_with(leaver: usize, i: usize, lowest: usize, grade: usize) -> usize
    ensures { LowestWith leaver i lowest grade result }
{
    if i == leaver {
        return lowest;
    }
    lesser(lowest, grade)
}

// A pass with a refusal; nothing else of it changes.
fn refused(pass: Pass, refusal: Refusal, input: usize, place: usize) -> Pass
    ensures { result ≡ with_refusal pass refusal input place }
{
    let next = pass.next;
    Pass {
        next,
        lowest: pass.lowest,
        foreign: pass.foreign,
        notice: Notice::Refused {
            refusal,
            input,
            place,
        },
    }
}

// What the library's refusal for a name makes of a pass. Of a rule that passed all else an event is refused by 10: others' checks come before that.
fn told_refusal(i: usize, pass: Pass, refusal: Refusal, input: usize, place: usize) -> Pass
    ensures { RefusalTold i pass refusal input place result }
{
    let next = pass.next;
    if number(refusal) == 10 {
        return Pass {
            next,
            lowest: pass.lowest,
            foreign: lesser(pass.foreign, i),
            notice: Notice::Done,
        };
    }
    refused(pass, refusal, input, place)
}

// What the library's answer for a name makes of a pass.
pub fn told(leaver: usize, i: usize, pass: Pass, answer: Advanced) -> Pass
    requires { i < board_names_count }
    ensures { Told leaver i pass answer result }
{
    let mut next = pass.next;
    match answer {
        Advanced::To {
            monitor,
            grade,
            turns: _,
        } => {
            next.before[i] = monitor.before;
            next.since[i] = monitor.since;
            Pass {
                next,
                lowest: lowest_with(leaver, i, pass.lowest, grade),
                foreign: pass.foreign,
                notice: Notice::Done,
            }
        }
        Advanced::Refused {
            monitor: _,
            refusal,
            input,
            place,
        } => told_refusal(i, pass, refusal, input, place),
    }
}

// A pass with the refusal of the file that enters, if there is one.
pub fn with_answer(pass: Pass, answer: Advanced) -> Pass
    ensures { EntryTold pass answer result }
{
    match answer {
        Advanced::To {
            monitor: _,
            grade: _,
            turns: _,
        } => pass,
        Advanced::Refused {
            monitor: _,
            refusal,
            input,
            place,
        } => refused(pass, refusal, input, place),
    }
}

pub fn refuse(board: Board, refusal: Refusal, input: usize, place: usize) -> Posted
    ensures { result ≡ record { board = board; notice = Notice.Refused refusal input place } }
{
    Posted {
        board,
        notice: Notice::Refused {
            refusal,
            input,
            place,
        },
    }
}

// What a pass over all names makes of a board that every name stays on. A foreign event is told after everybody's checks.
pub fn after_step(board: Board, pass: Pass) -> Posted
    ensures { StepAnswer board pass result }
{
    let notice = pass.notice;
    if refuses(notice) {
        return Posted { board, notice };
    }
    let foreign = pass.foreign;
    if foreign < 8 {
        return refuse(board, Refusal::UnknownLetter, foreign, 0);
    }
    let mut next = pass.next;
    next.lowest = pass.lowest;
    Posted {
        board: next,
        notice: Notice::Done,
    }
}

// A board without the name that leaves, whose grade the pass has not counted.
pub fn after_leaving(board: Board, name: usize, pass: Pass) -> Posted
    requires { name < board_names_count }
    ensures { PassAnswer board (with_lowest (with_left board name) pass.lowest) pass result }
{
    let notice = pass.notice;
    if refuses(notice) {
        return Posted { board, notice };
    }
    let mut next = board;
    next.present[name] = false;
    next.lowest = pass.lowest;
    Posted {
        board: next,
        notice: Notice::Done,
    }
}

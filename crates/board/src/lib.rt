// The harbour board: up to eight strong rules that enter and leave while events go on, each with its monitor, and the lowest grade that their
// monitors stand for. It stands above the library and sees only its public calls. The board goes in and comes back by value; the files are
// lent, that of name i from byte 16,404·i on. Every call goes over all names once, with one library call for each that is present.
#![tactic(auto)]

ghost use Rattle.std.specs.Prelude.{◌≡◌, ◌≤◌, length};
ghost use Rattle.board_promises.specs.Boards.{files_size};
ghost use Rattle.board_promises.specs.Promises.{EnterPromise, LeavePromise, BoardEventPromise, BoardMarkPromise};
ghost use Rattle.board_pass.specs.Passes.{Cleared};
ghost use Rattle.board.specs.Calls.{StepPromise, Admitted};

use board_answers::{Pass, after_leaving, after_step, refuse, refuses, with_answer};
use board_buffers::{clear, put, short};
use board_pass::visit_all;
pub use board_promises::{Board, FILES_SIZE, Notice, Posted};
pub use board_values::empty;
use board_values::{free, there, with_entered};
use rules::{Refusal, Step, advance, fresh};

// An event or a mark for all present.
fn move_all(board: Board, step: Step, files: &[u8], scratch: &mut [u8]) -> Posted
    ensures { StepPromise board step files.now scratch.old scratch.new result }
{
    if short(files.len(), scratch.len()) {
        return refuse(board, Refusal::BufferTooShort, 1, 0);
    }
    clear(scratch);
    let pass = visit_all(board, step, 8, files, scratch);
    after_step(board, pass)
}

pub fn event(board: Board, letter: u8, files: &[u8], scratch: &mut [u8]) -> Posted
    ensures { BoardEventPromise board letter files.now scratch.old scratch.new result }
{
    move_all(board, Step::Event(letter), files, scratch)
}

pub fn mark(board: Board, files: &[u8], scratch: &mut [u8]) -> Posted
    ensures { BoardMarkPromise board files.now scratch.old scratch.new result }
{
    move_all(board, Step::Mark, files, scratch)
}

// A rule leaves. Its own file is checked with the others; no byte of it is written.
pub fn leave(board: Board, name: usize, files: &[u8], scratch: &mut [u8]) -> Posted
    ensures { LeavePromise board name files.now scratch.old scratch.new result }
{
    if short(files.len(), scratch.len()) {
        return refuse(board, Refusal::BufferTooShort, 1, 0);
    }
    clear(scratch);
    if !there(board, name) {
        return refuse(board, Refusal::NameNotPresent, 1, 0);
    }
    let pass = visit_all(board, Step::Stay, name, files, scratch);
    after_leaving(board, name, pass)
}

// A pass that goes on to the file that enters: its own checks and its strength. A fresh monitor stands for nothing, so that no grade comes
// of it.
fn admit(board: Board, name: usize, file: &[u8], files: &[u8], scratch: &mut [u8]) -> Pass
    requires files_size_in_bounds { files_size ≤ length files.now }
    requires cleared { Cleared scratch.old }
    ensures pass { Admitted board name file.now files.now result }
    ensures scratch { scratch.new ≡ scratch.old }
{
    let pass = visit_all(board, Step::Stay, 8, files, scratch);
    let notice = pass.notice;
    if refuses(notice) {
        return pass;
    }
    let answer = advance(file, name, fresh(), Step::Stay, scratch);
    with_answer(pass, answer)
}

// A rule enters under a free name, its file lent apart. Once everything is checked nothing can be refused, and only then is it copied.
pub fn enter(board: Board, name: usize, file: &[u8], files: &mut [u8], scratch: &mut [u8]) -> Posted
    ensures { EnterPromise board name file.now files.old files.new scratch.old scratch.new result }
{
    if short(files.len(), scratch.len()) {
        return refuse(board, Refusal::BufferTooShort, 1, 0);
    }
    clear(scratch);
    if !free(board, name) {
        return refuse(board, Refusal::NameNotFree, 1, 0);
    }
    let pass = admit(board, name, file, files, scratch);
    let notice = pass.notice;
    if refuses(notice) {
        return Posted { board, notice };
    }
    put(file, files, name);
    Posted {
        board: with_entered(board, name, pass.lowest),
        notice: Notice::Done,
    }
}

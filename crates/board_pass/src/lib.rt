// A pass of the harbour board over its names: one library call for each that is present. It stands above the library and sees only its public
// calls and the board's promises.
#![tactic(auto)]

ghost use Rattle.std.specs.Prelude.{◌≡◌, ◌+◌, ◌≤◌, ◌<◌, length};
ghost use Rattle.board_promises.specs.Boards.{board_names_count, files_size, file_at};
ghost use Rattle.board_pass.specs.Passes.{Cleared, PassAt};

use board_answers::{Pass, refuses, told};
use board_promises::{Board, Notice};
use board_values::{monitor_of, there};
use rules::{RULE_SIZE, Step, advance, file_part};

// The file of a name.
fn file_of(files: &[u8], i: usize) -> &[u8]
    requires i_lt_board_names_count { i < board_names_count }
    requires files_size_in_bounds { files_size ≤ length files.now }
    ensures { result.now ≡ file_at files.now i }
{
    let from = RULE_SIZE * i;
    let to = from + RULE_SIZE;
    file_part(&files[from..to])
}

// Goes to one name. One that is not present is passed over, and every one after a refusal.
fn visit(
    board: Board,
    step: Step,
    leaver: usize,
    i: usize,
    pass: Pass,
    files: &[u8],
    scratch: &mut [u8],
) -> Pass
    requires i_lt_board_names_count { i < board_names_count }
    requires files_size_in_bounds { files_size ≤ length files.now }
    requires cleared { Cleared scratch.old }
    requires pass_at { PassAt board files.now step leaver i pass }
    ensures pass { PassAt board files.now step leaver (i + 1) result }
    ensures scratch { scratch.new ≡ scratch.old }
{
    let notice = pass.notice;
    if refuses(notice) {
        return pass;
    }
    if !there(board, i) {
        return pass;
    }
    let monitor = monitor_of(board, i);
    let answer = advance(file_of(files, i), i, monitor, step, scratch);
    told(leaver, i, pass, answer)
}

// Goes to every name, the lowest first.
pub fn visit_all(board: Board, step: Step, leaver: usize, files: &[u8], scratch: &mut [u8]) -> Pass
    requires files_size_in_bounds { files_size ≤ length files.now }
    requires cleared { Cleared scratch.old }
    ensures pass { PassAt board files.now step leaver board_names_count result }
    ensures scratch { scratch.new ≡ scratch.old }
{
    let mut pass = Pass {
        next: board,
        lowest: 4,
        foreign: 8,
        notice: Notice::Done,
    };
    // By number: names are the numbers from 0 to 7.
    for i in 0..8 {
        pass = visit(board, step, leaver, i, pass, files, scratch);
    }
    pass
}

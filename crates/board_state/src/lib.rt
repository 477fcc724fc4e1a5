// A board in lent bytes, for callers that cannot hold the struct: read from them, and written back. The bytes are those of specs/State.
#![tactic(auto)]

ghost use Rattle.std.specs.Prelude.{◌≡◌, ◌≤◌, length};
ghost use Rattle.board_state.specs.State.{state_size, board_of, state_with, state_after};

use board_promises::{Board, Notice, Posted};

pub const STATE_SIZE: usize = 25;

// The board that stands in the bytes. A name is present unless its byte is 0.
pub fn read_board(state: &[u8]) -> Board
    requires { state_size ≤ length state.now }
    ensures { result ≡ board_of state.now }
{
    let mut present = [false; 8];
    let mut before = [0; 8];
    let mut since = [0; 8];
    for i in 0..8 {
        present[i] = state[3 * i] != 0;
        before[i] = usize::from(state[3 * i + 1]);
        since[i] = usize::from(state[3 * i + 2]);
    }
    let lowest = usize::from(state[24]);
    Board {
        present,
        before,
        since,
        lowest,
    }
}

// Writes a board to the front of the bytes.
pub fn write_board(board: Board, state: &mut [u8])
    requires { state_size ≤ length state.old }
    ensures { state.new ≡ state_with state.old board }
{
    let present = board.present;
    let before = board.before;
    let since = board.since;
    for i in 0..8 {
        state[3 * i] = u8::from(present[i]);
        state[3 * i + 1] = (before[i] % 256) as u8;
        state[3 * i + 2] = (since[i] % 256) as u8;
    }
    let lowest = board.lowest;
    state[24] = (lowest % 256) as u8;
}

// Writes the board that a call hands back, where the call is not refused.
pub fn write_posted(answer: Posted, state: &mut [u8])
    requires { state_size ≤ length state.old }
    ensures { state.new ≡ state_after state.old answer.board answer.notice }
{
    let board = answer.board;
    let notice = answer.notice;
    match notice {
        Notice::Done => write_board(board, state),
        Notice::Refused {
            refusal: _,
            input: _,
            place: _,
        } => {}
    }
}

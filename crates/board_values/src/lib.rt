// Boards by value: an empty one, who is present, the monitor of a name, and a board that a rule has entered. It stands above the library and
// sees only its public calls and the board's promises.
#![tactic(auto)]

ghost use Rattle.std.specs.Prelude.{◌≡◌, ◌<◌};
ghost use Rattle.board_promises.specs.Boards.{board_names_count, empty_board, monitor_at, with_lowest, with_entered};
ghost use Rattle.board_values.specs.Presence.{PresentAnswer, FreeAnswer};

use board_promises::Board;
use rules::Monitor;

// A board where nobody is present.
pub fn empty() -> Board
    ensures { result ≡ empty_board }
{
    Board {
        present: [false; 8],
        before: [64; 8],
        since: [64; 8],
        lowest: 4,
    }
}

// Whether a name is present, and no higher than 7.
pub fn there(board: Board, name: usize) -> bool
    ensures { PresentAnswer board name result }
{
    let present = board.present;
    if name < 8 {
        return present[name];
    }
    false
}

// Whether a rule may enter under a name.
pub fn free(board: Board, name: usize) -> bool
    ensures { FreeAnswer board name result }
{
    let present = board.present;
    if name < 8 {
        return !present[name];
    }
    false
}

// The monitor of a name.
pub fn monitor_of(board: Board, i: usize) -> Monitor
    requires { i < board_names_count }
    ensures { result ≡ monitor_at board i }
{
    let before = board.before;
    let since = board.since;
    Monitor {
        before: before[i],
        since: since[i],
    }
}

// A board with a name present and a fresh monitor under it.
pub fn with_entered(board: Board, name: usize, lowest: usize) -> Board
    requires { name < board_names_count }
    ensures { result ≡ with_lowest (with_entered board name) lowest }
{
    let mut next = board;
    next.present[name] = true;
    next.before[name] = 64;
    next.since[name] = 64;
    next.lowest = lowest;
    next
}

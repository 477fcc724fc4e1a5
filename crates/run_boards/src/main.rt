// Runs `board::enter`, `leave`, `event` and `mark` on one board and its files, and writes a line for each: a history of a board, and then for
// each name the refusals that can be told of it.
#![tactic(auto)]

use board::{Board, FILES_SIZE, Notice, Posted};
use rules::{RULE_SIZE, SCRATCH_SIZE};
use std::io;

fn posted_line(rt: &impl Print, line: &[u8], answer: Posted) -> io::Result<Board> {
    example_text::label(rt, line)?;
    let board = answer.board;
    let notice = answer.notice;
    match notice {
        Notice::Done => println!(rt; "lowest {}", board.lowest)?,
        Notice::Refused {
            refusal,
            input,
            place,
        } => example_text::refused_line(rt, refusal, input, place)?,
    }
    Ok(board)
}

// A name of the text. Those up to 7 are counted from a first one on, and 0 follows 7.
fn name(line: &[u8], first: usize) -> usize {
    let n = example_text::number(line, 2);
    if n < 8 {
        return (n + first % 8) % 8;
    }
    n
}

fn enter(
    rt: &impl Print,
    line: &[u8],
    first: usize,
    board: Board,
    files: &mut [u8],
    scratch: &mut [u8],
) -> io::Result<Board> {
    let mut rule = [0u8; RULE_SIZE];
    let length = example_text::numbers(line, 3, &mut rule);
    posted_line(
        rt,
        line,
        board::enter(board, name(line, first), &rule[..length], files, scratch),
    )
}

// Calls that write no file. `short` is a mark with so many bytes of the files lent.
fn moved(
    rt: &impl Print,
    line: &[u8],
    first: usize,
    board: Board,
    files: &[u8],
    scratch: &mut [u8],
) -> io::Result<Board> {
    match example_text::command(line) {
        b"leave" => posted_line(
            rt,
            line,
            board::leave(board, name(line, first), files, scratch),
        ),
        b"event" => posted_line(
            rt,
            line,
            board::event(board, example_text::byte(line, 2), files, scratch),
        ),
        b"mark" => posted_line(rt, line, board::mark(board, files, scratch)),
        b"short" => posted_line(
            rt,
            line,
            board::mark(
                board,
                example_text::front(files, example_text::number(line, 2)),
                scratch,
            ),
        ),
        _ => Ok(board),
    }
}

// A byte of a name's file as a foreign hand would set it.
fn set_byte(line: &[u8], first: usize, files: &mut [u8]) {
    let from = RULE_SIZE * (name(line, first) % 8);
    let place = from + example_text::number(line, 3) % RULE_SIZE;
    example_text::store(files, place, example_text::number(line, 4));
}

// Another monitor for a name, as a caller could make one up.
fn with_monitor(line: &[u8], first: usize, board: Board) -> Board {
    let mut next = board;
    let i = name(line, first) % 8;
    next.before[i] = example_text::number(line, 3);
    next.since[i] = example_text::number(line, 4);
    next
}

// `in` is an entry, `byte` another byte of the files, `put` another monitor.
fn run(
    rt: &impl Print,
    line: &[u8],
    first: usize,
    board: Board,
    files: &mut [u8],
    scratch: &mut [u8],
) -> io::Result<Board> {
    match example_text::command(line) {
        b"in" => enter(rt, line, first, board, files, scratch),
        b"byte" => {
            set_byte(line, first, files);
            Ok(board)
        }
        b"put" => Ok(with_monitor(line, first, board)),
        _ => moved(rt, line, first, board, files, scratch),
    }
}

fn run_all(
    rt: &impl Print,
    text: &[u8],
    first: usize,
    files: &mut [u8],
    scratch: &mut [u8],
) -> io::Result<()> {
    let mut board = board::empty();
    example_text::each_line(text, |line| {
        board = run(rt, line, first, board, files, scratch)?;
        Ok(())
    })
}

// The same text with each name as its first.
fn run_at_each_name(
    rt: &impl Print,
    text: &[u8],
    files: &mut [u8],
    scratch: &mut [u8],
) -> io::Result<()> {
    for first in 0..8 {
        println!(rt; "name {first}")?;
        run_all(rt, text, first, files, scratch)?;
    }
    Ok(())
}

fn main(rt: HostRuntime) -> io::Result<()> {
    let mut files = [5u8; FILES_SIZE];
    let mut scratch = [7u8; SCRATCH_SIZE];
    run_all(
        &rt,
        b"# Nobody is there, and any event passes.\n\
        letter 200, nobody there: event: 200\n\
        leave 3: leave: 3\n\
        # W gives 3 where letter 0 comes without end. Its table with three grades gives 3, 2 where letter 0 comes and ends, 1 where it never comes.\n\
        enter W as 3: in: 3: 2 0 0 0 1 2 0 1 1 0 0 0 3\n\
        letter 1: event: 1\n\
        enter three grades as 6: in: 6: 2 0 0 0 1 2 0 1 3 0 0 0 3 0 1 2 1 1 1\n\
        letter 0: event: 0\n\
        mark: mark\n\
        letter 1: event: 1\n\
        # Letter 0 came before the mark, for both, and without W the lowest is 2.\n\
        leave 3: leave: 3\n\
        # Under a left name a rule enters again, and has heard nothing.\n\
        enter W again as 3: in: 3: 2 0 0 0 1 2 0 1 1 0 0 0 3\n\
        letter 0: event: 0\n\
        mark: mark\n\
        mark again: mark\n\
        # A letter that is foreign to both is refused at the lower name; letter 1 is foreign only to the one with one letter.\n\
        letter 2: event: 2\n\
        enter one letter as 0: in: 0: 1 0 1 0 1 0 0 0 3\n\
        letter 1: event: 1\n\
        letter 0: event: 0\n\
        leave 0: leave: 0\n\
        # Names are refused by 21 and 22, before any file.\n\
        enter as 3: in: 3: 2\n\
        enter as 8: in: 8: 2\n\
        leave 5: leave: 5\n\
        leave 8: leave: 8\n\
        a byte too few: short: 131231\n\
        # The file that enters has its name for the input, in each refusal of its own and in 12.\n\
        cut: in: 0: 2 0 0 0 1 2 0 1 1 0 0 0\n\
        17 letters: in: 1: 2 0 0 0 1 17\n\
        grade 4: in: 2: 2 0 0 0 1 2 0 1 1 0 0 0 4\n\
        a byte too many: in: 4: 2 0 0 0 1 2 0 1 1 0 0 0 3 0\n\
        not associative: in: 5: 2 1 0 0 0 1 0 0 0\n\
        no word for 0: in: 7: 2 0 0 0 1 1 1 0 0\n\
        not linked: in: 7: 2 0 1 1 0 2 1 0 1 0 0 1 3\n\
        a pair twice: in: 7: 2 0 0 0 1 2 0 1 2 0 0 0 3 0 0 2\n\
        weak: in: 7: 2 0 1 1 0 2 1 0 1 0 0 0 3\n\
        # A foreign hand writes. Behind the thirteen bytes of the file of 3 nobody looks. Its own bytes are checked by every call.\n\
        : byte: 3: 13: 9\n\
        mark: mark\n\
        : byte: 3: 0: 0\n\
        mark, 3 has no element: mark\n\
        letter 2, 3 has no element: event: 2\n\
        leave 3, 3 has no element: leave: 3\n\
        enter as 0, 3 has no element: in: 0: 2\n\
        # With one element the count of the letters stands two bytes on, and is 0.\n\
        : byte: 3: 0: 1\n\
        mark, 3 of one element: mark\n\
        : byte: 3: 0: 2\n\
        letter 1, whole again: event: 1\n",
        0,
        &mut files,
        &mut scratch,
    )?;
    run_at_each_name(
        &rt,
        b"# Name 0 of this text is each name in turn, and 1 is the next. Nobody is there.\n\
        leave: leave: 0\n\
        # What enters is refused in its own name, behind a rule that is present.\n\
        enter W as the next: in: 1: 2 0 0 0 1 2 0 1 1 0 0 0 3\n\
        cut: in: 0: 2 0 0 0 1 2 0 1 1 0 0 0\n\
        65 elements: in: 0: 65\n\
        17 letters: in: 0: 2 0 0 0 1 17\n\
        4097 marks: in: 0: 2 0 0 0 1 2 0 1 1 16\n\
        element 2: in: 0: 2 0 0 0 2\n\
        image 2: in: 0: 2 0 0 0 1 2 0 2\n\
        grade 4: in: 0: 2 0 0 0 1 2 0 1 1 0 0 0 4\n\
        a byte too many: in: 0: 2 0 0 0 1 2 0 1 1 0 0 0 3 0\n\
        not associative: in: 0: 2 1 0 0 0 2 0 1 0 0\n\
        no word for 1: in: 0: 2 0 0 0 1 2 0 0 1 0 0 0 3\n\
        not linked: in: 0: 2 0 0 0 1 2 0 1 1 0 1 0 3\n\
        a pair twice: in: 0: 2 0 0 0 1 2 0 1 2 0 0 0 3 0 0 2\n\
        weak: in: 0: 2 0 1 1 0 2 1 0 1 0 0 0 3\n\
        enter three grades: in: 0: 2 0 0 0 1 2 0 1 3 0 0 0 3 0 1 2 1 1 1\n\
        taken: in: 0: 2\n\
        letter 0: event: 0\n\
        letter 2 is foreign to both: event: 2\n\
        leave the next: leave: 1\n\
        letter 2: event: 2\n\
        # Bytes of its file are changed, each call looks, and the byte is changed back.\n\
        : byte: 0: 0: 65\n\
        65 elements, mark: mark\n\
        65 elements, letter 0: event: 0\n\
        65 elements, leave: leave: 0\n\
        65 elements, enter another: in: 1: 2\n\
        : byte: 0: 0: 2\n\
        : byte: 0: 5: 17\n\
        17 letters: mark\n\
        : byte: 0: 5: 2\n\
        : byte: 0: 9: 17\n\
        4355 marks: mark\n\
        : byte: 0: 9: 0\n\
        : byte: 0: 4: 2\n\
        element 2: mark\n\
        : byte: 0: 4: 1\n\
        : byte: 0: 7: 2\n\
        image 2: mark\n\
        : byte: 0: 7: 0\n\
        no word for 1: mark\n\
        : byte: 0: 7: 1\n\
        : byte: 0: 12: 0\n\
        grade 0: mark\n\
        : byte: 0: 12: 3\n\
        : byte: 0: 14: 0\n\
        a pair twice: mark\n\
        : byte: 0: 14: 1\n\
        : byte: 0: 4: 0\n\
        not linked: mark\n\
        : byte: 0: 1: 1\n\
        not associative: mark\n\
        : byte: 0: 1: 0\n\
        : byte: 0: 4: 1\n\
        : byte: 0: 3: 1\n\
        weak: mark\n\
        : byte: 0: 3: 0\n\
        # A monitor that a caller made up.\n\
        : put: 0: 2: 64\n\
        no such before: mark\n\
        : put: 0: 64: 2\n\
        no such since: mark\n\
        : put: 0: 64: 0\n\
        letter 0 before and since: event: 0\n\
        leave: leave: 0\n",
        &mut files,
        &mut scratch,
    )
}

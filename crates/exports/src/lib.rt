// The library's calls for C and Rust: one function a call, slices as pointer and length, and one number back, packed as
// packing/specs/Packing says. A caller in another language owes what Rust's references owe: each pointer is good for its length, and a
// buffer that is written overlaps no other.
#![tactic(auto)]

ghost use Rattle.std.specs.Prelude.{◌≡◌};
ghost use Rattle.promises.specs.Advance.{AdvancePromise, AdvanceWordPromise};
ghost use Rattle.promises.specs.Automaton.{RulePromise};
ghost use Rattle.promises.specs.Classes.{ListPromise};
ghost use Rattle.promises.specs.Combine.{CombinePromise};
ghost use Rattle.promises.specs.Complement.{ComplementPromise};
ghost use Rattle.promises.specs.Confirm.{ConfirmPromise};
ghost use Rattle.promises.specs.Feed.{FeedPromise};
ghost use Rattle.promises.specs.Inclusion.{InclusionPromise};
ghost use Rattle.promises.specs.Inspect.{InspectPromise};
ghost use Rattle.promises.specs.Member.{MemberPromise};
ghost use Rattle.promises.specs.Monitor.{fresh_monitor};
ghost use Rattle.promises.specs.Moves.{EventPromise, MarkPromise};
ghost use Rattle.promises.specs.Points.{KeepPromise, ReturnPromise};
ghost use Rattle.promises.specs.Reduce.{ReducePromise};
ghost use Rattle.promises.specs.Rounds.{RoundsPromise};
ghost use Rattle.promises.specs.RuleAutomaton.{KindPromise, SuccessorsPromise};
ghost use Rattle.promises.specs.Stretch.{stretch_numbers};
ghost use Rattle.promises.specs.Strong.{StrongPromise};
ghost use Rattle.promises.specs.Verdict.{VerdictPromise};
ghost use Rattle.promises.specs.declared.Operation.TheVariants.{Both, Either, Without};
ghost use Rattle.promises.specs.declared.Step.TheVariants.{Event, Mark, Stay};
ghost use Rattle.temporal_promises.specs.FirstLetter.{FirstLetterPromise, ConstantPromise};
ghost use Rattle.temporal_promises.specs.Next.{NextPromise};
ghost use Rattle.temporal_promises.specs.Until.{UntilPromise};
ghost use Rattle.formula_promises.specs.FormulaRule.{FormulaPromise};
ghost use Rattle.packing_counts.specs.Counts.{inspected_contents, listed_contents, written_contents, partition_contents, successors_contents, pack_stretch};
ghost use Rattle.packing_decisions.specs.Decisions.{strength_contents, lasso_verdict_contents, inclusion_contents, confirmation_contents, kind_contents};
ghost use Rattle.packing_monitors.specs.Monitors.{pack_monitor, moved_contents, advanced_contents};
ghost use Rattle.packing.specs.Exports.{Exported};
ghost use Rattle.exports.specs.BoardExports.{ExportedBoardEmpty, ExportedBoardEnter, ExportedBoardLeave, ExportedBoardEvent, ExportedBoardMark};

use answer::Refusal;
use board_promises::Notice;
use board_state::{STATE_SIZE, read_board, write_board, write_posted};
use packing::pack_refusal;
use packing_counts::pack_written;
use packing_monitors::pack_notice;

// The elements, the letters and the marks of a rule file.
#[unsafe(no_mangle)]
pub extern "C" fn duknavet_inspect(rule: &[u8], scratch: &mut [u8]) -> u64
    ensures { Exported (InspectPromise rule.now scratch.old scratch.new) inspected_contents result }
{
    exported_lassos::inspect(rule, scratch)
}

// The linked pairs, the classes and the joins; each pair's class in `out`.
#[unsafe(no_mangle)]
pub extern "C" fn duknavet_classes(rule: &[u8], out: &mut [u8], scratch: &mut [u8]) -> u64
    ensures { Exported (ListPromise rule.now out.old out.new scratch.old scratch.new) listed_contents result }
{
    exported_lassos::classes(rule, out, scratch)
}

// 1 for a strong rule, 0 for a weak one.
#[unsafe(no_mangle)]
pub extern "C" fn duknavet_strong(rule: &[u8], scratch: &mut [u8]) -> u64
    ensures { Exported (StrongPromise rule.now scratch.old scratch.new) strength_contents result }
{
    exported_lassos::strong(rule, scratch)
}

// The lasso's grade, 0 to 3, and how many turns settle the value of v.
#[unsafe(no_mangle)]
pub extern "C" fn duknavet_member(rule: &[u8], u: &[u8], v: &[u8], scratch: &mut [u8]) -> u64
    ensures { Exported (MemberPromise rule.now u.now v.now scratch.old scratch.new) lasso_verdict_contents result }
{
    exported_lassos::member(rule, u, v, scratch)
}

// How many bytes the complement has, which stands in `out`.
#[unsafe(no_mangle)]
pub extern "C" fn duknavet_complement(rule: &[u8], out: &mut [u8], scratch: &mut [u8]) -> u64
    ensures { Exported (ComplementPromise rule.now out.old out.new scratch.old scratch.new) written_contents result }
{
    exported_lassos::complement(rule, out, scratch)
}

// 1 for an inclusion; else 0 and how many letters the lasso has in u and in v.
#[unsafe(no_mangle)]
pub extern "C" fn duknavet_included(
    rule: &[u8],
    second: &[u8],
    u: &mut [u8],
    v: &mut [u8],
    scratch: &mut [u8],
) -> u64
    ensures { Exported (InclusionPromise rule.now second.now u.old u.new v.old v.new scratch.old scratch.new) inclusion_contents result }
{
    exported_lassos::included(rule, second, u, v, scratch)
}

// The values of a monitor that has seen nothing.
#[unsafe(no_mangle)]
pub extern "C" fn duknavet_fresh() -> u64
    ensures { result ≡ pack_monitor fresh_monitor }
{
    exported_monitors::fresh()
}

// The values of a monitor after an event.
#[unsafe(no_mangle)]
pub extern "C" fn duknavet_event(
    rule: &[u8],
    before: usize,
    since: usize,
    letter: u8,
    scratch: &mut [u8],
) -> u64
    ensures { Exported (EventPromise rule.now (record { before = before; since = since }) letter scratch.old scratch.new) moved_contents result }
{
    exported_monitors::event(rule, before, since, letter, scratch)
}

// The values of a monitor after a mark.
#[unsafe(no_mangle)]
pub extern "C" fn duknavet_mark(rule: &[u8], before: usize, since: usize, scratch: &mut [u8]) -> u64
    ensures { Exported (MarkPromise rule.now (record { before = before; since = since }) scratch.old scratch.new) moved_contents result }
{
    exported_monitors::mark(rule, before, since, scratch)
}

// The values of a monitor after an event for each letter of a word.
#[unsafe(no_mangle)]
pub extern "C" fn duknavet_feed(
    rule: &[u8],
    before: usize,
    since: usize,
    word: &[u8],
    scratch: &mut [u8],
) -> u64
    ensures { Exported (FeedPromise rule.now (record { before = before; since = since }) word.now scratch.old scratch.new) moved_contents result }
{
    exported_monitors::feed(rule, before, since, word, scratch)
}

// The values of a monitor that is kept under a name in `points`.
#[unsafe(no_mangle)]
pub extern "C" fn duknavet_keep(
    rule: &[u8],
    before: usize,
    since: usize,
    name: usize,
    points: &mut [u8],
    scratch: &mut [u8],
) -> u64
    ensures { Exported (KeepPromise rule.now (record { before = before; since = since }) name points.old points.new scratch.old scratch.new) moved_contents result }
{
    exported_monitors::keep(rule, before, since, name, points, scratch)
}

// The values of the monitor that was kept under a name.
#[unsafe(no_mangle)]
pub extern "C" fn duknavet_return(
    rule: &[u8],
    before: usize,
    since: usize,
    name: usize,
    points: &[u8],
    scratch: &mut [u8],
) -> u64
    ensures { Exported (ReturnPromise rule.now (record { before = before; since = since }) name points.now scratch.old scratch.new) moved_contents result }
{
    exported_monitors::return_to(rule, before, since, name, points, scratch)
}

// The grade of the lassos with the monitor's values, 0 to 3, and how many turns settle the value of since.
#[unsafe(no_mangle)]
pub extern "C" fn duknavet_verdict(
    rule: &[u8],
    before: usize,
    since: usize,
    scratch: &mut [u8],
) -> u64
    ensures { Exported (VerdictPromise rule.now (record { before = before; since = since }) scratch.old scratch.new) lasso_verdict_contents result }
{
    exported_monitors::verdict(rule, before, since, scratch)
}

// The values of a monitor after an event, and the grade of the lassos with these values, 0 to 3, with 256 times the turns that settle the value of since. This and the three calls
// below answer grade 4 and no turns where since is none.
#[unsafe(no_mangle)]
pub extern "C" fn duknavet_advance_event(
    rule: &[u8],
    before: usize,
    since: usize,
    letter: u8,
    scratch: &mut [u8],
) -> u64
    ensures { Exported (AdvancePromise 1 rule.now (record { before = before; since = since }) (Event letter) scratch.old scratch.new) advanced_contents result }
{
    exported_monitors::advance_event(rule, before, since, letter, scratch)
}

// The same after a mark.
#[unsafe(no_mangle)]
pub extern "C" fn duknavet_advance_mark(
    rule: &[u8],
    before: usize,
    since: usize,
    scratch: &mut [u8],
) -> u64
    ensures { Exported (AdvancePromise 1 rule.now (record { before = before; since = since }) Mark scratch.old scratch.new) advanced_contents result }
{
    exported_monitors::advance_mark(rule, before, since, scratch)
}

// The same of the monitor as it is.
#[unsafe(no_mangle)]
pub extern "C" fn duknavet_advance_stay(
    rule: &[u8],
    before: usize,
    since: usize,
    scratch: &mut [u8],
) -> u64
    ensures { Exported (AdvancePromise 1 rule.now (record { before = before; since = since }) Stay scratch.old scratch.new) advanced_contents result }
{
    exported_monitors::advance_stay(rule, before, since, scratch)
}

// The same after an event for each letter of a word.
#[unsafe(no_mangle)]
pub extern "C" fn duknavet_advance_word(
    rule: &[u8],
    before: usize,
    since: usize,
    word: &[u8],
    scratch: &mut [u8],
) -> u64
    ensures { Exported (AdvanceWordPromise 1 rule.now (record { before = before; since = since }) word.now scratch.old scratch.new) advanced_contents result }
{
    exported_monitors::advance_word(rule, before, since, word, scratch)
}

// The part of a lasso's word that is left to read at a position: 1 where it lies in u or 2 in v, where it begins there, and how many letters it has.
#[unsafe(no_mangle)]
pub extern "C" fn duknavet_stretch(u: &[u8], v: &[u8], position: usize) -> u64
    ensures { result ≡ pack_stretch (stretch_numbers u.now v.now position) }
{
    exported_lassos::stretch(u, v, position)
}

// How many bytes the reduction has, which stands in `out`; in `map` for each element of the rule the number of the element that it went to.
#[unsafe(no_mangle)]
pub extern "C" fn duknavet_reduce(
    rule: &[u8],
    out: &mut [u8],
    map: &mut [u8],
    scratch: &mut [u8],
) -> u64
    ensures { Exported (ReducePromise rule.now out.old out.new map.old map.new scratch.old scratch.new) written_contents result }
{
    exported_makings::reduce(rule, out, map, scratch)
}

// 1 if the second rule is the first one reduced by the map, else 0.
#[unsafe(no_mangle)]
pub extern "C" fn duknavet_confirm(
    first: &[u8],
    second: &[u8],
    map: &[u8],
    scratch: &mut [u8],
) -> u64
    ensures { Exported (ConfirmPromise first.now second.now map.now scratch.old scratch.new) confirmation_contents result }
{
    exported_makings::confirm(first, second, map, scratch)
}

// How many bytes the rule with the lower of two grades has, which stands in `out`.
#[unsafe(no_mangle)]
pub extern "C" fn duknavet_both(
    first: &[u8],
    second: &[u8],
    out: &mut [u8],
    scratch: &mut [u8],
) -> u64
    ensures { Exported (CombinePromise first.now second.now Both out.old out.new scratch.old scratch.new) written_contents result }
{
    exported_makings::both(first, second, out, scratch)
}

// The same with the higher of two grades.
#[unsafe(no_mangle)]
pub extern "C" fn duknavet_either(
    first: &[u8],
    second: &[u8],
    out: &mut [u8],
    scratch: &mut [u8],
) -> u64
    ensures { Exported (CombinePromise first.now second.now Either out.old out.new scratch.old scratch.new) written_contents result }
{
    exported_makings::either(first, second, out, scratch)
}

// The same with the lower of the first grade and 3 less the second.
#[unsafe(no_mangle)]
pub extern "C" fn duknavet_without(
    first: &[u8],
    second: &[u8],
    out: &mut [u8],
    scratch: &mut [u8],
) -> u64
    ensures { Exported (CombinePromise first.now second.now Without out.old out.new scratch.old scratch.new) written_contents result }
{
    exported_makings::without(first, second, out, scratch)
}

// How many bytes the rule that gives a grade where the first letter is in a set has, which stands in `out`.
#[unsafe(no_mangle)]
pub extern "C" fn duknavet_first_letter(
    letters: usize,
    set: usize,
    grade: usize,
    out: &mut [u8],
) -> u64
    ensures { Exported (FirstLetterPromise letters set grade out.old out.new) written_contents result }
{
    exported_makings::first_letter(letters, set, grade, out)
}

// The same of the rule that gives every lasso a grade.
#[unsafe(no_mangle)]
pub extern "C" fn duknavet_constant(letters: usize, grade: usize, out: &mut [u8]) -> u64
    ensures { Exported (ConstantPromise letters grade out.old out.new) written_contents result }
{
    exported_makings::constant(letters, grade, out)
}

// The same of the rule that gives the grade of the word without its first letter.
#[unsafe(no_mangle)]
pub extern "C" fn duknavet_next(rule: &[u8], out: &mut [u8], scratch: &mut [u8]) -> u64
    ensures { Exported (NextPromise rule.now out.old out.new scratch.old scratch.new) written_contents result }
{
    exported_makings::next(rule, out, scratch)
}

// The same of the rule of the first rule until the second.
#[unsafe(no_mangle)]
pub extern "C" fn duknavet_until(
    first: &[u8],
    second: &[u8],
    out: &mut [u8],
    classes: &mut [u8],
    scratch: &mut [u8],
) -> u64
    ensures { Exported (UntilPromise first.now second.now out.old out.new classes.old classes.new scratch.old scratch.new) written_contents result }
{
    exported_makings::until(first, second, out, classes, scratch)
}

// How many bytes the smallest rule of a whole formula has, which stands in `out`.
#[unsafe(no_mangle)]
pub extern "C" fn duknavet_formula_rule(
    letters: usize,
    formula: &[u8],
    out: &mut [u8],
    stack: &mut [u8],
    spare: &mut [u8],
    classes: &mut [u8],
    scratch: &mut [u8],
) -> u64
    ensures { Exported (FormulaPromise letters formula.now out.old out.new stack.old stack.new spare.old spare.new classes.old classes.new scratch.old scratch.new) written_contents result }
{
    pack_written(formula_call::formula_rule(letters, formula, out, stack, spare, classes, scratch))
}

// How many rounds of the reduction were done within the limit, and 1 if one more would change nothing; the blocks in `blocks`.
#[unsafe(no_mangle)]
pub extern "C" fn duknavet_reduce_rounds(
    rule: &[u8],
    limit: usize,
    blocks: &mut [u8],
    scratch: &mut [u8],
) -> u64
    ensures { Exported (RoundsPromise rule.now limit blocks.old blocks.new scratch.old scratch.new) partition_contents result }
{
    exported_makings::reduce_rounds(rule, limit, blocks, scratch)
}

// How many bytes the rule made from an automaton has, which stands in `out`.
#[unsafe(no_mangle)]
pub extern "C" fn duknavet_automaton_rule(
    automaton: &[u8],
    out: &mut [u8],
    scratch: &mut [u8],
) -> u64
    ensures { Exported (RulePromise automaton.now out.old out.new scratch.old scratch.new) written_contents result }
{
    exported_makings::automaton_rule(automaton, out, scratch)
}

// The kind of a state of the rule's automaton for a least grade: 0 plain, 1 initial, 2 final.
#[unsafe(no_mangle)]
pub extern "C" fn duknavet_state_kind(
    rule: &[u8],
    s: usize,
    e: usize,
    least: u8,
    scratch: &mut [u8],
) -> u64
    ensures { Exported (KindPromise rule.now s e least scratch.old scratch.new) kind_contents result }
{
    exported_makings::state_kind(rule, s, e, least, scratch)
}

// How many states a letter leads to from a state of the rule's automaton; the states in `out`.
#[unsafe(no_mangle)]
pub extern "C" fn duknavet_successors(
    rule: &[u8],
    s: usize,
    e: usize,
    letter: u8,
    out: &mut [u8],
    scratch: &mut [u8],
) -> u64
    ensures { Exported (SuccessorsPromise rule.now s e letter out.old out.new scratch.old scratch.new) successors_contents result }
{
    exported_makings::successors(rule, s, e, letter, out, scratch)
}

// A board where nobody is present, in `state`. This and the calls below answer the board's lowest grade, 4 for none.
#[unsafe(no_mangle)]
pub extern "C" fn duknavet_board_empty(state: &mut [u8]) -> u64
    ensures { ExportedBoardEmpty state.old state.new result }
{
    if state.len() < STATE_SIZE {
        return pack_refusal(Refusal::BufferTooShort, 1, 0);
    }
    let board = board::empty();
    write_board(board, state);
    pack_notice(board, Notice::Done)
}

// A rule enters under a name; its file is copied to the name's place in `files`.
#[unsafe(no_mangle)]
pub extern "C" fn duknavet_board_enter(
    state: &mut [u8],
    name: usize,
    file: &[u8],
    files: &mut [u8],
    scratch: &mut [u8],
) -> u64
    ensures { ExportedBoardEnter state.old state.new name file.now files.old files.new scratch.old scratch.new result }
{
    if state.len() < STATE_SIZE {
        return pack_refusal(Refusal::BufferTooShort, 1, 0);
    }
    let answer = board::enter(read_board(state), name, file, files, scratch);
    let board = answer.board;
    let notice = answer.notice;
    write_posted(answer, state);
    pack_notice(board, notice)
}

// The rule under a name leaves.
#[unsafe(no_mangle)]
pub extern "C" fn duknavet_board_leave(
    state: &mut [u8],
    name: usize,
    files: &[u8],
    scratch: &mut [u8],
) -> u64
    ensures { ExportedBoardLeave state.old state.new name files.now scratch.old scratch.new result }
{
    if state.len() < STATE_SIZE {
        return pack_refusal(Refusal::BufferTooShort, 1, 0);
    }
    let answer = board::leave(read_board(state), name, files, scratch);
    let board = answer.board;
    let notice = answer.notice;
    write_posted(answer, state);
    pack_notice(board, notice)
}

// An event for all present.
#[unsafe(no_mangle)]
pub extern "C" fn duknavet_board_event(
    state: &mut [u8],
    letter: u8,
    files: &[u8],
    scratch: &mut [u8],
) -> u64
    ensures { ExportedBoardEvent state.old state.new letter files.now scratch.old scratch.new result }
{
    if state.len() < STATE_SIZE {
        return pack_refusal(Refusal::BufferTooShort, 1, 0);
    }
    let answer = board::event(read_board(state), letter, files, scratch);
    let board = answer.board;
    let notice = answer.notice;
    write_posted(answer, state);
    pack_notice(board, notice)
}

// A mark for all present.
#[unsafe(no_mangle)]
pub extern "C" fn duknavet_board_mark(state: &mut [u8], files: &[u8], scratch: &mut [u8]) -> u64
    ensures { ExportedBoardMark state.old state.new files.now scratch.old scratch.new result }
{
    if state.len() < STATE_SIZE {
        return pack_refusal(Refusal::BufferTooShort, 1, 0);
    }
    let answer = board::mark(read_board(state), files, scratch);
    let board = answer.board;
    let notice = answer.notice;
    write_posted(answer, state);
    pack_notice(board, notice)
}

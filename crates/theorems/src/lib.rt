// The theorems: for each that the documents ask for, a function that does nothing and whose contract is the theorem's record. While these are
// proved no theorem can be lost or weakened unseen; a lemma that nothing rests on could be. docs/THEOREMS.md has them in order.
#![tactic(auto)]

ghost use Rattle.promises.specs.OneAnswers.{OneAnswers};
ghost use Rattle.board_promises.specs.OneAnswers.{BoardOneAnswers};
ghost use Rattle.promises.specs.SmallestTheorem.{SmallestTheorem};
ghost use Rattle.promises.specs.InclusionTheorem.{InclusionTheorem};
ghost use Rattle.promises.specs.AdvanceTheorem.{AdvanceTheorem};
ghost use Rattle.promises.specs.FeedTheorem.{FeedTheorem};
ghost use Rattle.promises.specs.PointsTheorem.{PointsTheorem};
ghost use Rattle.promises.specs.PrintTheorem.{PrintTheorem};
ghost use Rattle.promises.specs.RoundsTheorem.{RoundsTheorem};
ghost use Rattle.theory.specs.EmptyStarts.{EmptyStartsTheorem};
ghost use Rattle.theory.specs.PowersTheorem.{PowersTheorem};
ghost use Rattle.answer.specs.NumbersTheorem.{NumbersTheorem};
ghost use Rattle.automaton_rule_call.specs.ReadyTheorem.{ReadyTheorem};
ghost use Rattle.promises.specs.ConfirmTheorem.{ConfirmTheorem};
ghost use Rattle.board_histories.specs.Histories.{BoardTheorem};
ghost use Rattle.temporal_laws.specs.Laws.{FormulaLaws};
ghost use Rattle.temporal_promises.specs.OneAnswers.{TemporalOneAnswers};
ghost use Rattle.formula_promises.specs.FormulasTheorem.{FormulasTheorem};
ghost use Rattle.unpacking.specs.BoardTheorem.{ExportedBoardTheorem, ExportedBoardOneAnswers};

// Each call leaves one answer and one of every lent byte; of `included` only the lasso is open.
fn one_answers_theorem()
    ensures { OneAnswers }
{}

// So does each call of the board.
fn board_one_answers_theorem()
    ensures { BoardOneAnswers }
{}

// Demand 3: what `reduce` writes is the smallest strong rule with the same grades, among all of any finite size, and alone in that.
fn smallest_theorem()
    ensures { SmallestTheorem }
{}

// What `included` leaves in u and v is a lasso that shows its no.
fn inclusion_theorem()
    ensures { InclusionTheorem }
{}

// Document 02, Job 4: what empty starts change is nothing.
fn empty_starts_theorem()
    ensures { EmptyStartsTheorem }
{}

// Document 02, Job 1.
fn points_theorem()
    ensures { PointsTheorem }
{}

// A word of events is its letters one by one, and a step that passes is the call that takes it and then the verdict.
fn advance_theorem()
    ensures { AdvanceTheorem }
{}

// A word that is fed is an event for each of its letters, and what `advance_word` makes of the monitor.
fn feed_theorem()
    ensures { FeedTheorem }
{}

// Document 02, Job 8.
fn print_theorem()
    ensures { PrintTheorem }
{}

// Document 02, Job 9.
fn rounds_theorem()
    ensures { RoundsTheorem }
{}

// Document 02, Job 10: every element settles,
fn powers_theorem()
    ensures { PowersTheorem }
{}

// and no refusal has the number 9.
fn numbers_theorem()
    ensures { NumbersTheorem }
{}

// Document 02, Job 11.
fn ready_theorem()
    ensures { ReadyTheorem }
{}

// Document 02, Job 13.
fn confirmed_theorem()
    ensures { ConfirmTheorem }
{}

// Rules from formulas: each call leaves one answer,
fn temporal_one_answers_theorem()
    ensures { TemporalOneAnswers }
{}

// and formulas keep the laws that their users know.
fn formula_laws_theorem()
    ensures { FormulaLaws }
{}

// A whole formula has one answer, and two are written alike exactly if they mean the same.
fn formulas_theorem()
    ensures { FormulasTheorem }
{}

// Document 02, Job 14.
fn board_theorem()
    ensures { BoardTheorem }
{}

// The same of the bytes and the numbers of the exported calls,
fn exported_board_theorem()
    ensures { ExportedBoardTheorem }
{}

// each of which leaves one number and one of every lent byte.
fn exported_board_one_answers_theorem()
    ensures { ExportedBoardOneAnswers }
{}

// A marks section that is an input of its own: a second marking, checked against the table of a rule. It is read by the code
// that reads the marks of a rule file, with places that count from its own first byte.
#![tactic(auto)]

ghost use Rattle.std.specs.Prelude.{◌≡◌};
ghost use Rattle.formats.proofs.Tables.{Table};
ghost use Rattle.formats.specs.RuleFile.{elements_of, letters_of};
ghost use Rattle.formats.specs.RuleChecks.{second_marks_checks};
ghost use Rattle.rule_marks.specs.Faults.{FaultAnswer};
ghost use Rattle.rule_second_marks.specs.SecondMarks.{MarksSpace, SecondAnswer};

use answer::{Fault, Refusal};
use rule_check::rest_after;
use rule_layout::marks_section;
use rule_marks::mark_fault;

// Checks the section, and lays its marks out in the blank table, the grade of each pair in its byte.
pub fn second_marks(
    rule: &[u8],
    n: usize,
    k: usize,
    bytes: &[u8],
    table: &mut [u8],
) -> Result<(), Fault>
    requires table { Table rule.now n k }
    requires n_value { (n ≡ elements_of rule.now) × (k ≡ letters_of rule.now) }
    requires marks_space { MarksSpace table.old }
    ensures refusal { FaultAnswer (λ input. second_marks_checks input rule.now bytes.now) result }
    ensures laid { SecondAnswer bytes.now n table.old table.new result }
{
    let count = marks_section(bytes, 0, n)?;
    let end = 2 + 3 * count;
    let rest = rest_after(bytes, end);
    if 0 < rest.len() {
        return Err(Fault {
            refusal: Refusal::TrailingBytes,
            place: end,
        });
    }
    mark_fault(rule, n, k, bytes, 0, count, table)
}

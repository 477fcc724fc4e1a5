// The rule of `until`, written, where the table of the pairs and the grades at each context stand in scratch: the list of the classes of words, the grades of
// the pairs of classes, and their rule.
#![tactic(auto)]

ghost use Rattle.until_rule.specs.Writing.{UntilNeeds, UntilWritten};

use until_list::list_until;
use until_marks::lay_until;
use word_rule::write_words;

// Writes the rule of the classes: how many bytes it takes, or none where there are more than 64.
pub fn write_until(
    classes: &mut [u8],
    scratch: &mut [u8],
    np: usize,
    k: usize,
    out: &mut [u8],
) -> Option<usize>
    requires { UntilNeeds np k scratch.old classes.old out.old }
    ensures { UntilWritten np k scratch.old scratch.new classes.old classes.new out.old out.new result }
{
    let count = list_until(classes, scratch, np, k)?;
    lay_until(classes, scratch, count);
    Some(write_words(scratch, count, k, out))
}

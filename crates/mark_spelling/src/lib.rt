// The first word of an element, written out of the worklist that the search of words left (crate rule_reach): entry i + 1 is the
// entry at byte 64 + i and then the letter at byte 128 + i, so the letters are found from the last to the first.
#![tactic(auto)]

ghost use Rattle.rule_reach.specs.Reach.{place_at};
ghost use Rattle.rule_reach.proofs.Words.{word_at};
ghost use Rattle.mark_spelling.specs.Spelling.{SpellNeeds};
ghost use Rattle.formats.specs.Front.{AtFront};

// Writes the first word of an element to the front of `out`; answers how many letters it has.
pub fn write_first_word(queue: &[u8], n: usize, s: usize, out: &mut [u8]) -> usize
    requires { SpellNeeds queue.now n s out.old }
    ensures { AtFront (word_at queue.now (place_at queue.now s)) out.old out.new result }
{
    let mut place = queue[192 + s] as usize;
    let mut letters = 0;
    // The entries are followed one to another, so no range or iterator has them.
    while 0 < place {
        let i = place - 1;
        out[letters] = queue[128 + i];
        letters += 1;
        place = queue[64 + i] as usize;
    }
    out[..letters].reverse();
    letters
}

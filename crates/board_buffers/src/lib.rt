// The buffers that are lent to the harbour board: whether they are long enough, zeros in scratch, and a file copied to its name's place. It stands
// above the library and sees only its public calls and the board's promises.
#![tactic(auto)]

ghost use Rattle.std.specs.Prelude.{◌≡◌, ◌+◌, ◌*◌, ◌≤◌, length, replicate};
ghost use Rattle.std.proofs.Math.Seq.{paste};
ghost use Rattle.formats.specs.RuleChecks.{rule_size};
ghost use Rattle.board_buffers.specs.Lengths.{ShortAnswer};

use board_promises::FILES_SIZE;
use rules::{RULE_SIZE, SCRATCH_SIZE};

// Whether a lent buffer is too short, by the lengths of both.
pub fn short(files: usize, scratch: usize) -> bool
    ensures { ShortAnswer files scratch result }
{
    if files < FILES_SIZE {
        return true;
    }
    if scratch < SCRATCH_SIZE {
        return true;
    }
    false
}

// Fills scratch with zeros: where nobody is present no library call does.
pub fn clear(scratch: &mut [u8])
    ensures { scratch.new ≡ replicate (length scratch.old) 0 }
{
    for i in 0..scratch.len() {
        scratch[i] = 0;
    }
}

// Copies a file to its name's place.
pub fn put(file: &[u8], files: &mut [u8], name: usize)
    requires { rule_size * name + length file.now ≤ length files.old }
    ensures { files.new ≡ paste files.old (rule_size * name) file.now (length file.now) }
{
    let at = RULE_SIZE * name;
    for i in 0..file.len() {
        files[at + i] = file[i];
    }
}

// One matrix looked up in the list of an automaton's matrices, added to it unless it is there, and the step that led to it recorded.
//
// The list begins at byte 8192 of scratch and takes 64 bytes a matrix. A search goes by entries: entry 0 is the empty word, entry
// i + 1 is matrix i. From byte 12288 on stands the number of the matrix that each letter leads to from each entry, 16 bytes an entry;
// from byte 14336 on the entry from which each matrix was found, and from byte 15360 on the letter by which.
#![tactic(auto)]

ghost use Rattle.std.specs.Prelude.{◌≤◌, ◌<◌};
ghost use Rattle.automaton_products.specs.Arrays.{MatrixShape};
ghost use Rattle.automaton_matrix_search.specs.Lists.{MatrixList};
ghost use Rattle.automaton_matrix_search.specs.Steps.{FoundMatrix, Added, RecordNeeds, StepRecorded, StepAdded};

use automaton_matrices::{same_stored, store_matrix};
use scratch::{MATRICES_BASE, STEP_LETTERS_BASE, STEP_PARENTS_BASE, STEPS_BASE};

// The number of a matrix in the list, and how many it has now.
#[derive(Drop)]
pub struct Placed {
    pub number: usize,
    pub total: usize,
}

// The number of a matrix in the list, or none where it is not there.
pub fn find_matrix(scratch: &[u8], n: usize, count: usize, m: [[u8; 6]; 6]) -> Option<usize>
    requires { MatrixList n scratch.now count }
    ensures { FoundMatrix n scratch.now count m result }
{
    // By number: each matrix of the list is compared at its place in scratch.
    for i in 0..count {
        if same_stored(scratch, MATRICES_BASE, i, n, &m) {
            return Some(i);
        }
    }
    None
}

// Adds a matrix, unless it is there, or finds no place for it.
pub fn add_matrix(scratch: &mut [u8], n: usize, count: usize, m: [[u8; 6]; 6]) -> Option<Placed>
    requires matrix_list { MatrixList n scratch.old count }
    requires matrix_shape { MatrixShape n m }
    ensures { Added n scratch.old count m scratch.new result }
{
    if let Some(number) = find_matrix(scratch, n, count, m) {
        return Some(Placed {
            number,
            total: count,
        });
    }
    if count == 64 {
        return None;
    }
    store_matrix(scratch, MATRICES_BASE, count, m);
    Some(Placed {
        number: count,
        total: count + 1,
    })
}

// Records that a letter leads from an entry to a number, and that the matrix at `next` was found so. Where no matrix was added there,
// the next one that is takes that place.
fn record_step(scratch: &mut [u8], parent: usize, letter: usize, number: usize, next: usize)
    requires { RecordNeeds scratch.old parent letter number next }
    ensures { StepRecorded scratch.old scratch.new parent letter number next }
{
    scratch[STEPS_BASE + (parent * 16 + letter)] = number as u8;
    scratch[STEP_PARENTS_BASE + next] = parent as u8;
    scratch[STEP_LETTERS_BASE + next] = letter as u8;
}

// Adds the matrix that a letter makes of an entry, unless it is there, and records the step: how many matrices there are then, or none
// where there are more than 64.
pub fn add_step(
    scratch: &mut [u8],
    n: usize,
    count: usize,
    parent: usize,
    letter: usize,
    m: [[u8; 6]; 6],
) -> Option<usize>
    requires matrix_list { MatrixList n scratch.old count }
    requires matrix_shape { MatrixShape n m }
    requires parent_le_count { (parent ≤ count) × (letter < 16) }
    ensures { StepAdded n scratch.old count m parent letter scratch.new result }
{
    let placed = add_matrix(scratch, n, count, m)?;
    record_step(scratch, parent, letter, placed.number, count);
    Some(placed.total)
}

// One class for `until` looked up among those that are there, and stored behind them unless it is. The class that is worked out stands in scratch, as
// until_step has it; its pair is handed in.
#![tactic(auto)]

ghost use Rattle.std.specs.Prelude.{◌≡◌, ◌+◌, ◌*◌, ◌<◌};
ghost use Rattle.finite.specs.Tells.{Tells};
ghost use Rattle.finite.specs.Each.{EachBelow};
ghost use Rattle.scratch.specs.Rows.{RowFilled, RowsFilled};
ghost use Rattle.until_step.specs.Bytes.{new_at};
ghost use Rattle.until_search.specs.Searching.{RowSame, ClassSame, FoundClass, SearchNeeds, StoreNeeds};

use scratch::{UNTIL_CLASS_BASE, UNTIL_PAIRS_BASE};

// Whether class j has the clamps of the new one at the contexts (t, z).
fn same_row(classes: &[u8], scratch: &[u8], np: usize, j: usize, t: usize) -> bool
    requires search_needs { SearchNeeds np scratch.now classes.now }
    requires j_bound { (j < 64) × (t < np) }
    ensures { Tells (RowSame np scratch.now classes.now j t) result }
{
    let held = j * 4096 + t * 64;
    let new = UNTIL_CLASS_BASE + t * 64;
    &classes[held..held + np] == &scratch[new..new + np]
}

// Whether it has them at every context.
fn same_rows(classes: &[u8], scratch: &[u8], np: usize, j: usize) -> bool
    requires search_needs { SearchNeeds np scratch.now classes.now }
    requires j_bound { j < 64 }
    ensures { Tells (EachBelow (RowSame np scratch.now classes.now j) np) result }
{
    // By number: elements are the numbers below np.
    for t in 0..np {
        if !same_row(classes, scratch, np, j, t) {
            return false;
        }
    }
    true
}

// Whether it is the new one: its pair too.
fn same_class(classes: &[u8], scratch: &[u8], np: usize, j: usize, pair: usize) -> bool
    requires search_needs { SearchNeeds np scratch.now classes.now }
    requires j_bound { j < 64 }
    ensures { Tells (ClassSame np scratch.now classes.now j pair) result }
{
    scratch[UNTIL_PAIRS_BASE + j] as usize == pair && same_rows(classes, scratch, np, j)
}

// The number of the new class, or none where it is none of those that are there.
pub fn find_class(
    classes: &[u8],
    scratch: &[u8],
    np: usize,
    count: usize,
    pair: usize,
) -> Option<usize>
    requires search_needs { SearchNeeds np scratch.now classes.now }
    requires count_bound { count < 65 }
    ensures { FoundClass np scratch.now classes.now count pair result }
{
    // By number: classes are the numbers below count.
    for j in 0..count {
        if same_class(classes, scratch, np, j, pair) {
            return Some(j);
        }
    }
    None
}

// Stores the clamps of the new class at the contexts (t, z).
fn store_row(classes: &mut [u8], scratch: &[u8], np: usize, count: usize, t: usize)
    requires store_needs { StoreNeeds np count scratch.now classes.old }
    requires t_lt_np { t < np }
    ensures { RowFilled (λ z byte. byte ≡ new_at scratch.now t z) (count * 4096 + t * 64) np classes.old classes.new }
{
    let stored = count * 4096 + t * 64;
    let new = UNTIL_CLASS_BASE + t * 64;
    classes[stored..stored + np].copy_from_slice(&scratch[new..new + np]);
}

// And at every context.
pub fn store_class(classes: &mut [u8], scratch: &[u8], np: usize, count: usize)
    requires { StoreNeeds np count scratch.now classes.old }
    ensures { RowsFilled (λ t z byte. byte ≡ new_at scratch.now t z) (count * 4096) 64 np np classes.old classes.new }
{
    // By number: elements are the numbers below np.
    for t in 0..np {
        store_row(classes, scratch, np, count, t);
    }
}

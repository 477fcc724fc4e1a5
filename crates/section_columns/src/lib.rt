// Triples of bytes by their columns: mostly every byte of many triples is in its range, and the greatest and the least byte of each column
// tell so faster than a search.
#![tactic(auto)]

ghost use Rattle.std.specs.Prelude.{◌≡◌, true, ◌+◌, ◌*◌, ◌≤◌, length};
ghost use Rattle.section_columns.specs.Triples.{PlacesIn, SomeTriplesIn};

// Whether the greatest and the least byte of each place of 32 triples are in the place's range: the first of a triple below `first`,
// the second below `second`, and the third below `third` and no less than `least`.
fn places_in(
    low: [u8; 96],
    top: [u8; 96],
    first: usize,
    second: usize,
    third: usize,
    least: usize,
) -> bool
    ensures { result ≡ true → PlacesIn low top first second third least 32 }
{
    // By index: the three bytes of a triple are read in two arrays.
    for i in 0..32 {
        let place = 3 * i;
        if first <= top[place] as usize {
            return false;
        }
        if second <= top[place + 1] as usize {
            return false;
        }
        if third <= top[place + 2] as usize {
            return false;
        }
        if (low[place + 2] as usize) < least {
            return false;
        }
    }
    true
}

// A number of triples, from the first on, whose bytes are all in those ranges: none where a search is as fast, or where a byte is out.
// The bytes of 32 triples are six times the 16 that the compiler compares at once, so each column keeps its places.
pub fn triples_in(
    rest: &[u8],
    count: usize,
    first: usize,
    second: usize,
    third: usize,
    least: usize,
) -> usize
    requires { 2 + 3 * count ≤ length rest.now }
    ensures { SomeTriplesIn rest.now count first second third least result }
{
    if count < 64 {
        return 0;
    }
    let chunks = count / 32;
    let mut top = [0u8; 96];
    let mut low = [255u8; 96];
    // By index: the compiler makes whole vectors of the inner loop as it stands.
    for c in 0..chunks {
        let start = 96 * c;
        for j in 0..96 {
            let x = rest[2 + (start + j)];
            top[j] = top[j].max(x);
            low[j] = low[j].min(x);
        }
    }
    if places_in(low, top, first, second, third, least) {
        return 32 * chunks;
    }
    0
}

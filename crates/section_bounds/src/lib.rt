// Bytes held against a bound: the greatest of some, and the first that is not below it.
#![tactic(auto)]

ghost use Rattle.std.specs.Prelude.{◌+◌, ◌≤◌, length};
ghost use Rattle.formats.proofs.Sections.{AllInRange};
ghost use Rattle.section_bounds.specs.Answers.{FoundOut};

// A byte that none of some bytes is above.
pub fn greatest(s: &[u8], from: usize, count: usize) -> u8
    requires { from + count ≤ length s.now }
    ensures { AllInRange s.now from count (λ i. 0) (λ i. result + 1) }
{
    s[from..from + count].iter().copied().max().unwrap_or(0)
}

// The first of some bytes that is not below a bound, byte by byte.
fn scan_out(s: &[u8], from: usize, count: usize, bound: usize) -> Option<usize>
    requires { from + count ≤ length s.now }
    ensures { FoundOut s.now from count (λ i. 0) (λ i. bound) result }
{
    s[from..from + count]
        .iter()
        .position(|x| bound <= *x as usize)
}

// The same. Mostly there is none, and the greatest of the bytes tells so faster than a search.
pub fn first_out(s: &[u8], from: usize, count: usize, bound: usize) -> Option<usize>
    requires { from + count ≤ length s.now }
    ensures { FoundOut s.now from count (λ i. 0) (λ i. bound) result }
{
    let top = greatest(s, from, count) as usize;
    if top < bound {
        return None;
    }
    scan_out(s, from, count, bound)
}

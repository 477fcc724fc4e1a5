// The product table and the letters' elements, read where they stand in the lent bytes of a rule file: no copy is made.
// These functions are shared by the calls of the library and ask for bytes whose first two sections were checked.
#![tactic(auto)]

ghost use Rattle.std.specs.Prelude.{◌≡◌, ◌<◌};
ghost use Rattle.theory.specs.Rules.{Lawful};
ghost use Rattle.theory.specs.Pairs.{LeastPower};
ghost use Rattle.rule_table.specs.Table.{ProductNeeds, ImageNeeds};
ghost use Rattle.formats.proofs.Tables.{Table};
ghost use Rattle.formats.specs.Table.{product_at, image_at, morphism_at};
ghost use Rattle.rule_table.specs.Answers.{TripleAnswer};

// The product of two elements.
pub fn product(rule: &[u8], n: usize, a: usize, b: usize) -> usize
    requires { ProductNeeds rule.now n a b }
    ensures { result ≡ product_at rule.now n a b }
{
    rule[1 + (a * n + b)] as usize
}

// The element of a letter.
pub fn image(rule: &[u8], n: usize, a: usize) -> usize
    requires { ImageNeeds rule.now n a }
    ensures { result ≡ image_at rule.now n a }
{
    rule[2 + n * n + a] as usize
}

// The first triple, by a, then b, then c, with (a·b)·c not a·(b·c).
pub fn first_not_associative(rule: &[u8], n: usize, k: usize) -> Option<(usize, usize, usize)>
    requires { Table rule.now n k }
    ensures { TripleAnswer rule.now n k result }
{
    let found = 'search: loop {
        // By number: elements are the numbers below n.
        for a in 0..n {
            for b in 0..n {
                let ab = product(rule, n, a, b);
                for c in 0..n {
                    let bc = product(rule, n, b, c);
                    let left = product(rule, n, ab, c);
                    let right = product(rule, n, a, bc);
                    if left != right {
                        break 'search Some((a, b, c));
                    }
                }
            }
        }
        break 'search None;
    };
    found
}

// The first power of an element that is idempotent, with its exponent.
#[derive(Drop)]
pub struct Power {
    pub element: usize,
    pub exponent: usize,
}

// A table that associates has one among the exponents 1 to n, so the search needs no bound. It stays a loop without one, since a `for` over
// the exponents would need an answer behind its end.
pub fn idempotent_power(rule: &[u8], n: usize, k: usize, x: usize) -> Power
    requires table { Table rule.now n k }
    requires lawful { Lawful (morphism_at rule.now n k) }
    requires x_lt_n { x < n }
    ensures { LeastPower (morphism_at rule.now n k) x result.element result.exponent }
{
    let mut p = x;
    let mut i = 0;
    loop {
        let square = product(rule, n, p, p);
        if square == p {
            return Power {
                element: p,
                exponent: i + 1,
            };
        }
        p = product(rule, n, p, x);
        i += 1;
    }
}

// The product of two matrices of six rows of six entries, by value: an entry is the greatest of those of all pairs (p, r) and (r, q)
// with neither 0.
#![tactic(auto)]

ghost use Rattle.std.specs.Prelude.{◌≡◌, ◌≤◌};
ghost use Rattle.buchi.specs.Matrices.{entries_through};
ghost use Rattle.automaton_products.specs.Arrays.{row_product, MatrixShape, RowOf, IsProduct};

// The greater of two entries, 0 where one of them is 0.
pub fn through(x: u8, y: u8) -> u8
    ensures { result ≡ entries_through x y }
{
    if x == 0 {
        return 0;
    }
    if y == 0 {
        return 0;
    }
    x.max(y)
}

// A row of the product, from that row of the left factor, state by state. A state to which no path leads is left out.
pub fn product_row(n: usize, row: &[u8; 6], right: &[[u8; 6]; 6]) -> [u8; 6]
    requires { n ≤ 6 }
    ensures { RowOf (row_product n row.now right.now) n result }
{
    let mut out = [0u8; 6];
    // By index: the first n of six entries and rows, which zip and take would say no plainer.
    for r in 0..n {
        let x = row[r];
        if x != 0 {
            for q in 0..n {
                let y = right[r][q];
                let z = through(x, y);
                out[q] = z.max(out[q]);
            }
        }
    }
    out
}

// The product of two matrices over n states.
pub fn matrix_product(n: usize, left: [[u8; 6]; 6], right: [[u8; 6]; 6]) -> [[u8; 6]; 6]
    requires n_bound { n ≤ 6 }
    requires matrix_shape { (MatrixShape n left) × (MatrixShape n right) }
    ensures { IsProduct n left right result }
{
    let mut out = [[0u8; 6]; 6];
    // By index: the first n of six rows, which zip and take would say no plainer.
    for p in 0..n {
        out[p] = product_row(n, &left[p], &right);
    }
    out
}

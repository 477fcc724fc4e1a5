// The product of two matrices, ready for two states: a matrix has a number below 81, and a table of 81 by 81 bytes that is lent has the
// number of each product. Where the table is empty, and for other numbers of states, the product is computed.
#![tactic(auto)]

ghost use Rattle.std.specs.Prelude.{◌≡◌, ◌≤◌};
ghost use Rattle.automaton_products.specs.Arrays.{entry_in, MatrixShape, IsProduct};
ghost use Rattle.automaton_ready_products.specs.Ready.{matrix_number, NumberedAs, ReadyTable, LentTable};

use automaton_products::matrix_product;

// The number of a matrix over two states.
fn matrix_number(m: [[u8; 6]; 6]) -> usize
    requires { MatrixShape 2 m }
    ensures { result ≡ matrix_number (entry_in m) }
{
    let a = m[0][0];
    let b = m[0][1];
    let c = m[1][0];
    let d = m[1][1];
    (27 * a + 9 * b + 3 * c + d) as usize
}

// The matrix over two states that has a number.
fn numbered_matrix(x: u8) -> [[u8; 6]; 6]
    ensures { NumberedAs x result }
{
    let mut first = [0u8; 6];
    first[0] = x / 27 % 3;
    first[1] = x / 9 % 3;
    let mut second = [0u8; 6];
    second[0] = x / 3 % 3;
    second[1] = x % 3;
    let mut out = [[0u8; 6]; 6];
    out[0] = first;
    out[1] = second;
    out
}

// The product of two matrices over two states, by the table.
fn ready_product(left: [[u8; 6]; 6], right: [[u8; 6]; 6], table: &[u8]) -> [[u8; 6]; 6]
    requires matrix_shape { (MatrixShape 2 left) × (MatrixShape 2 right) }
    requires ready_table { ReadyTable table.now }
    ensures { IsProduct 2 left right result }
{
    let a = matrix_number(left);
    let b = matrix_number(right);
    let x = table[a * 81 + b];
    numbered_matrix(x)
}

// The product of two matrices over n states, by the table where it is lent and there are two.
pub fn any_product(n: usize, left: [[u8; 6]; 6], right: [[u8; 6]; 6], table: &[u8]) -> [[u8; 6]; 6]
    requires n_bound { n ≤ 6 }
    requires matrix_shape { (MatrixShape n left) × (MatrixShape n right) }
    requires lent_table { LentTable table.now }
    ensures { IsProduct n left right result }
{
    if n == 2 {
        if 0 < table.len() {
            return ready_product(left, right, table);
        }
    }
    matrix_product(n, left, right)
}

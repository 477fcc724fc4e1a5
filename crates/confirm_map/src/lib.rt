// Whether the bytes of a map, one for each element of a table, take the elements onto those of another table and carry products and letters
// over.
#![tactic(auto)]

ghost use Rattle.std.specs.Prelude.{◌≡◌, ◌<◌, length, get_or};
ghost use Rattle.finite.specs.Tells.{Tells};
ghost use Rattle.theory.specs.Maps.{MapsOnto};
ghost use Rattle.formats.proofs.Tables.{Table};
ghost use Rattle.formats.specs.Table.{morphism_at};
ghost use Rattle.finite.specs.Each.{EachBelow};
ghost use Rattle.confirm_map.specs.Mapping.{map_of, TakenTo, ProductCarried, ImageCarried, MapNeeds};

use rule_table::{image, product};

// Where an element goes.
pub fn mapped(map: &[u8], s: usize) -> usize
    requires { s < length map.now }
    ensures { result ≡ get_or map.now s 0 }
{
    map[s] as usize
}

// Whether each element goes to one of the second table.
fn inside(map: &[u8], n1: usize, n2: usize) -> bool
    requires { length map.now ≡ n1 }
    ensures { Tells (EachBelow (λ s. map_of map.now s < n2) n1) result }
{
    for s in 0..n1 {
        if mapped(map, s) >= n2 {
            return false;
        }
    }
    true
}

// Whether an element goes to t.
fn taken_to(map: &[u8], n1: usize, t: usize) -> bool
    requires { length map.now ≡ n1 }
    ensures { Tells (TakenTo (map_of map.now) n1 t) result }
{
    for s in 0..n1 {
        if mapped(map, s) == t {
            return true;
        }
    }
    false
}

// Whether each element of the second table is gone to.
fn onto(map: &[u8], n1: usize, n2: usize) -> bool
    requires { length map.now ≡ n1 }
    ensures { Tells (EachBelow (TakenTo (map_of map.now) n1) n2) result }
{
    // By number: elements are the numbers below n2.
    for t in 0..n2 {
        if !taken_to(map, n1, t) {
            return false;
        }
    }
    true
}

// Whether the products that begin with s are carried over.
fn products_from(
    first: &[u8],
    n1: usize,
    second: &[u8],
    n2: usize,
    k: usize,
    map: &[u8],
    s: usize,
) -> bool
    requires map_needs { MapNeeds first.now n1 second.now n2 k map.now }
    requires s_lt_n1 { s < n1 }
    ensures { Tells (EachBelow (ProductCarried (morphism_at first.now n1 k) (morphism_at second.now n2 k) (map_of map.now) s) n1) result }
{
    let a = mapped(map, s);
    // By number: elements are the numbers below n1.
    for t in 0..n1 {
        let b = mapped(map, t);
        let there = product(second, n2, a, b);
        let here = product(first, n1, s, t);
        if mapped(map, here) != there {
            return false;
        }
    }
    true
}

// Whether all products are.
fn products(first: &[u8], n1: usize, second: &[u8], n2: usize, k: usize, map: &[u8]) -> bool
    requires { MapNeeds first.now n1 second.now n2 k map.now }
    ensures { Tells (EachBelow (λ s. EachBelow (ProductCarried (morphism_at first.now n1 k) (morphism_at second.now n2 k) (map_of map.now) s) n1) n1) result }
{
    (0..n1).all(|s| products_from(first, n1, second, n2, k, map, s))
}

// Whether the elements of all letters are.
fn images(first: &[u8], n1: usize, second: &[u8], n2: usize, k: usize, map: &[u8]) -> bool
    requires { MapNeeds first.now n1 second.now n2 k map.now }
    ensures { Tells (EachBelow (ImageCarried (morphism_at first.now n1 k) (morphism_at second.now n2 k) (map_of map.now)) k) result }
{
    // By number: letters are the numbers below k.
    for x in 0..k {
        let there = image(second, n2, x);
        let here = image(first, n1, x);
        if mapped(map, here) != there {
            return false;
        }
    }
    true
}

// Whether the map takes the elements onto those of the second table and carries products and letters over. That each goes to an element
// is asked first: the second table is read there.
pub fn maps_onto(first: &[u8], n1: usize, second: &[u8], n2: usize, k: usize, map: &[u8]) -> bool
    requires table { Table first.now n1 k }
    requires table_2 { Table second.now n2 k }
    requires map_len { length map.now ≡ n1 }
    ensures { Tells (MapsOnto (morphism_at first.now n1 k) (morphism_at second.now n2 k) (λ s. get_or map.now s 0)) result }
{
    if !inside(map, n1, n2) {
        return false;
    }
    if !onto(map, n1, n2) {
        return false;
    }
    if !products(first, n1, second, n2, k, map) {
        return false;
    }
    images(first, n1, second, n2, k, map)
}

ghost use Rattle.std.specs.Prelude.{◌≡◌, ◌<◌, ◌^◌, IsTrue};
ghost use Rattle.fx_designs.specs.Galois.{is_order};

use fx_galois::Field;
use fx_vectors::{Shape, Vector};

/// The field of order 2, 3, 4 or 9.
fn field(q: u8) -> Field
    requires { IsTrue (is_order q) }
    ensures { result ≡ q }
{
    Shape {
        q,
        m: 1,
        s: 1,
        t: 0,
    }
    .field()
}

/// Whether these are the codes.
fn has_codes(v: &Vector, codes: &[u8]) -> bool {
    for (i, code) in codes.iter().enumerate() {
        if i >= v.len() || v.code(i) != *code {
            return false;
        }
    }
    v.len() == codes.len()
}

#[test]
fn a_number_is_that_of_its_codes(rt: HostRuntime) {
    let two = field(2);
    let v = Vector::of_number(two, 4, 11);
    assert!(rt; has_codes(&v, &[1, 1, 0, 1]));
    assert!(rt; v.number(two) == 11 && v.weight() == 3);
    let nine = field(9);
    assert!(rt; Vector::of_number(nine, 3, 248).number(nine) == 248);
}

/// The number of the normal multiple of the vector of three codes with this number, which is not normal.
fn normal_number(field: Field, number: u128) -> Option<u128>
    requires { number < field ^ 3 }
{
    let v = Vector::of_number(field, 3, number);
    if v.is_normal() || v.weight() == 0 {
        return None;
    }
    Some(v.normal(field).number(field))
}

/// (2, 1, 2) over GF(3), (1, 3, 2) over GF(4) and (5, 0, 3) over GF(9).
#[test]
fn a_normal_multiple_ends_in_one(rt: HostRuntime) {
    assert!(rt; normal_number(field(3), 23) == Some(16));
    assert!(rt; normal_number(field(4), 45) == Some(27));
    assert!(rt; normal_number(field(9), 248) == Some(87));
}

/// (1, 2, 3) and (3, 2, 1) over GF(4).
#[test]
fn a_product_is_the_sum_over_all_places(rt: HostRuntime) {
    let four = field(4);
    let v = Vector::of_number(four, 3, 57);
    let w = Vector::of_number(four, 3, 27);
    assert!(rt; v.dot(four, &w) == 3);
}

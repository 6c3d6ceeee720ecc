ghost use Rattle.std.specs.Prelude.{◌≡◌, IsTrue};
ghost use Rattle.fx_designs.specs.Galois.{is_order};

use fx_galois::Field;
use fx_points::{PointSet, Sums};
use fx_vectors::Shape;

fn field(q: u8) -> Field
    requires { IsTrue (is_order q) }
    ensures { result ≡ q }
{
    Shape {
        q,
        m: 1,
        s: 1,
        t: 0,
    }
    .field()
}

/// Over GF(3), (1, 1) and (2, 2) give zero, and (1, 2) and (1, 1) give (2, 0); over GF(4), bit by bit.
#[test]
fn sums_are_those_of_the_codes(rt: HostRuntime) {
    let three = Sums::of(rt.alloc(), field(3), 2).expect(&rt, "memory");
    assert!(rt; three.plus(4, 8) == 0 && three.plus(7, 4) == 2 && three.minus(4) == 8);
    let four = Sums::of(rt.alloc(), field(4), 2).expect(&rt, "memory");
    assert!(rt; four.plus(7, 5) == 2);
}

/// The points whose sum with 4, which is (1, 1) over GF(3), is 0 or 2.
#[test]
fn a_set_is_moved_by_the_negative(rt: HostRuntime) {
    let sums = Sums::of(rt.alloc(), field(3), 2).expect(&rt, "memory");
    let mut other = sums.no_points();
    other.insert(0);
    other.insert(2);
    let mut moved = sums.no_points();
    moved.union_sums(&sums, &other, 4);
    assert!(rt; moved.contains(8) && moved.contains(7));
    assert!(rt; moved.next_below(9) == Some(8) && moved.next_below(7).is_none());
}

/// Over GF(3), (0, 0) and (2, 0) plus (1, 1) are (1, 1) and (0, 1).
#[test]
fn a_set_is_shifted_to_its_sums(rt: HostRuntime) {
    let mut points = PointSet::empty(field(3), 2);
    points.insert(0);
    points.insert(2);
    let shifted = points.shift(4);
    assert!(rt; shifted.next_below(9) == Some(4) && shifted.next_below(4) == Some(3));
    assert!(rt; shifted.next_below(3).is_none() && shifted.next_from(0) == Some(3));
}

/// At 1,024 points a shift by the last point turns the order round, and no lane is lost.
#[test]
fn all_lanes_are_shifted_united_and_searched(rt: HostRuntime) {
    let mut points = PointSet::empty(field(2), 10);
    points.insert(0);
    points.insert(1000);
    let shifted = points.shift(1023);
    assert!(rt; shifted.next_below(1024) == Some(1023) && shifted.next_below(1023) == Some(23));
    assert!(rt; shifted.next_below(23).is_none());
    assert!(rt;
        shifted.next_absent_below(1024) == Some(1022) && shifted.next_absent_below(0).is_none()
    );
    points.union(&shifted);
    assert!(rt; points.next_below(1024) == Some(1023) && points.next_below(1023) == Some(1000));
    assert!(rt; points.next_below(1000) == Some(23) && points.next_below(23) == Some(0));
    assert!(rt; points.next_absent_below(24) == Some(22) && points.next_absent_below(1).is_none());
}

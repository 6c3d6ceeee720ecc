ghost use Rattle.std.specs.Prelude.{◌≡◌, ◌+◌, ◌^◌, ◌≤◌, length};
ghost use Rattle.fx_vectors.specs.Shape.{IsShape};
ghost use Rattle.fx_derived.specs.Codes.{ArePlaces};

use fx_base::{Bytes, Items};
use fx_derived::{Row, Table, Texts, cross, derived_code, levels_balanced};
use fx_vectors::{Matrix, Shape};
use std::alloc::Global;
use std::process::Abort;

const TWO_LEVELS: Shape = Shape {
    q: 2,
    m: 3,
    s: 4,
    t: 0,
};

const THREE_LEVELS: Shape = Shape {
    q: 3,
    m: 2,
    s: 3,
    t: 0,
};

#[test]
fn the_first_code_is_the_highest_digit(rt: HostRuntime) {
    assert!(rt; derived_code(TWO_LEVELS.field(), &[1, 0]) == 2);
    assert!(rt; derived_code(THREE_LEVELS.field(), &[2, 0, 1]) == 19);
}

/// Whether the levels of the derived factor of these factors are balanced over the runs of these rows.
fn are_balanced(rt: &impl Abort, alloc: Global, shape: Shape, rows: &[u16], places: &[u8]) -> bool
    requires shaped { IsShape shape }
    requires places { ArePlaces shape.s places.now }
    requires some { 2 ≤ length places.now }
    requires few { length places.now ≤ 4 }
{
    let mut matrix = Matrix::new(shape);
    for row in rows {
        assert!(rt; matrix.len() < shape.rows() && *row < shape.runs());
        matrix.push(*row);
    }
    assert!(rt; matrix.len() == shape.rows());
    levels_balanced(alloc, &matrix, places).expect(rt, "memory")
}

/// With C = AB the levels of A, B and C are not balanced, and those of A, B and D are.
#[test]
fn levels_are_balanced_where_no_defining_word_is_on_the_factors(rt: HostRuntime) {
    let rows = [1, 2, 3, 4];
    let word = are_balanced(&rt, rt.alloc(), TWO_LEVELS, &rows, &[1, 2, 3]);
    let none = are_balanced(&rt, rt.alloc(), TWO_LEVELS, &rows, &[4, 2, 1]);
    assert!(rt; !word && none);
}

/// B = 2 A has not each pair of levels with A, and C has.
#[test]
fn levels_of_a_factor_and_its_multiple_are_not_balanced(rt: HostRuntime) {
    let rows = [1, 2, 3];
    let word = are_balanced(&rt, rt.alloc(), THREE_LEVELS, &rows, &[1, 2]);
    let none = are_balanced(&rt, rt.alloc(), THREE_LEVELS, &rows, &[1, 3]);
    assert!(rt; !word && none);
}

/// Whether these are the texts of the row.
fn has_texts(row: Row, texts: &[&[u8]]) -> bool {
    let mut row = row;
    for text in texts {
        if row.len() == 0 || row.pop_front() != *text {
            return false;
        }
    }
    row.len() == 0
}

/// Texts of these lengths, one after another.
const LONG: [u8; 70000] = [255; 70000];

#[test]
fn texts_of_any_length_are_packed(rt: HostRuntime) {
    let texts = [
        b"".as_slice(),
        &LONG[..254],
        &LONG[..255],
        &LONG[..256],
        b"-1",
        LONG.as_slice(),
        &LONG[..510],
        b"".as_slice(),
    ];
    let mut packed = Texts::new(rt.alloc());
    for text in texts {
        packed.push(text).expect(&rt, "memory");
    }
    assert!(rt; packed.len() == 8 && has_texts(packed.as_row(), texts.as_slice()));
    packed.clear();
    assert!(rt; packed.len() == 0);
}

/// A table of one column with this name and these texts.
fn column(rt: &impl Abort, alloc: Global, name: &[u8], texts: &[&[u8]]) -> Table {
    let mut names = Items::new(alloc);
    names
        .push(Bytes::from_slice(alloc, name).expect(rt, "memory"))
        .expect(rt, "memory");
    let mut table = Table::new(alloc, names);
    let mut row = Texts::new(alloc);
    for text in texts {
        row.clear();
        row.push(*text).expect(rt, "memory");
        assert!(rt; row.len() == table.names().len());
        table.push(&row).expect(rt, "memory");
    }
    table
}

/// Whether the table has these rows of two texts.
fn has_rows(table: &Table, rows: &[[&[u8]; 2]]) -> bool {
    for (i, texts) in rows.iter().enumerate() {
        if i >= table.len() || !has_texts(table.row(i), texts.as_slice()) {
            return false;
        }
    }
    table.len() == rows.len()
}

#[test]
fn the_named_row_changes_fastest_inside(rt: HostRuntime) {
    let rows = column(&rt, rt.alloc(), b"A", &[b"-1", b"1"]);
    let named = column(&rt, rt.alloc(), b"N", &[b"x", b"", b"z"]);
    let inside = cross(rt.alloc(), &rows, &named, true).expect(&rt, "memory");
    const INSIDE: [[&[u8]; 2]; 6] = [
        [b"-1", b"x"],
        [b"-1", b""],
        [b"-1", b"z"],
        [b"1", b"x"],
        [b"1", b""],
        [b"1", b"z"],
    ];
    assert!(rt; has_rows(&inside, &INSIDE) && inside.names().len() == 2);
    assert!(rt; inside.names().get(1).as_slice() == b"N".as_slice());
    let outside = cross(rt.alloc(), &rows, &named, false).expect(&rt, "memory");
    const OUTSIDE: [[&[u8]; 2]; 6] = [
        [b"-1", b"x"],
        [b"1", b"x"],
        [b"-1", b""],
        [b"1", b""],
        [b"-1", b"z"],
        [b"1", b"z"],
    ];
    assert!(rt; has_rows(&outside, &OUTSIDE));
}

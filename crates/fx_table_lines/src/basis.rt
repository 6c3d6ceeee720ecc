ghost use Rattle.std.specs.Prelude.{◌≡◌, ◌<◌, ◌≤◌};
ghost use Rattle.fx_table_book.specs.Tables.{IsBase};

use fx_demands::sum_with;
use fx_table_book::{Base, MOST_INDEXES};

/// Vectors that an exchange of the run indexes moves to the unit vectors, and the forms by which it does: each form has
/// the code 1 at its own vector and 0 at the others.
#[derive(Clone, Copy)]
pub(crate) struct Basis {
    pub(crate) vectors: [u16; MOST_INDEXES],
    pub(crate) forms: [u16; MOST_INDEXES],
}

impl Basis {
    /// The unit vectors.
    pub(crate) fn units(base: Base) -> Basis
        requires { IsBase base }
    {
        let mut units = [0; MOST_INDEXES];
        for place in 0..base.m {
            units[usize::from(place).min(MOST_INDEXES - 1)] = base.power(place);
        }
        Basis {
            vectors: units,
            forms: units,
        }
    }

    /// The same with a row in place of the vector at a place, unless the others span the row.
    pub(crate) fn exchanged(&self, base: Base, place: usize, row: u16) -> Option<Basis>
        requires base { IsBase base }
        requires place { place < MOST_INDEXES }
    {
        let code = product(base, self.forms[place], row);
        if code == 0 {
            return None;
        }
        let own = multiple(base, self.forms[place], inverse(base, code));
        let mut other = *self;
        other.vectors[place] = row;
        for i in 0..usize::from(base.m).min(MOST_INDEXES) {
            let share = negative(base, product(base, self.forms[i], row));
            other.forms[i] = plus(base, self.forms[i], own, share);
        }
        other.forms[place] = own;
        Some(other)
    }
}

/// What a form makes of a row.
pub(crate) fn product(base: Base, form: u16, row: u16) -> u8
    requires { IsBase base }
    ensures { result < base.q }
{
    let field = base.shape().field();
    if field.q() == 2 {
        return ((form & row).count_ones() % 2) as u8;
    }
    let q = u16::from(field.q());
    let mut left = form;
    let mut right = row;
    let mut total = 0;
    for _ in 0..base.m {
        total = field.add(total, field.mul((left % q) as u8, (right % q) as u8));
        left /= q;
        right /= q;
    }
    total
}

/// The sum of a row and a code times another; the row alone where one of them is out of range.
pub(crate) fn plus(base: Base, sum: u16, row: u16, code: u8) -> u16
    requires { IsBase base }
{
    let shape = base.shape();
    if code == 0 || code >= base.q || sum >= shape.runs() || row >= shape.runs() {
        return sum;
    }
    sum_with(shape.field(), base.m, sum, row, code)
}

/// A code times a row.
pub(crate) fn multiple(base: Base, row: u16, code: u8) -> u16
    requires { IsBase base }
{
    plus(base, 0, row, code)
}

/// The inverse of a code, and 0 of 0.
pub(crate) fn inverse(base: Base, code: u8) -> u8
    requires { IsBase base }
{
    if code == 0 || code >= base.q {
        return 0;
    }
    base.shape().field().inv(code)
}

/// The negative of a code.
fn negative(base: Base, code: u8) -> u8
    requires { IsBase base }
{
    if code >= base.q {
        return 0;
    }
    base.shape().field().neg(code)
}

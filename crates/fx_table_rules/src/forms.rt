ghost use Rattle.std.specs.Prelude.{◌≡◌, ◌<◌, ◌≤◌, ◌^◌, All, IfSome, length};
ghost use Rattle.fx_vectors.specs.Shape.{IsShape};
ghost use Rattle.fx_table_book.specs.Tables.{IsBase};

use arrayvec::ArrayVec;
use fx_table_book::{Base, MOST_INDEXES};
use fx_vectors::{Shape, Vector};

/// The numbers of m vectors, the forms of a change of the run indexes: what a form makes of a row is the code of the
/// changed row at the place of the form.
pub(crate) type Forms = ArrayVec<u16, MOST_INDEXES>;

/// The forms of a change that moves the first independent rows to the unit vectors in order. That it does so is not
/// proved, but tested of what becomes of the rows.
pub(crate) fn forms_for(base: Base, rows: &[u16]) -> Forms
    requires { IsBase base }
    ensures count { length result.items ≡ base.m }
    ensures below { All (λ a. a < base.q ^ base.m) result.items }
{
    let shape = base.shape();
    let mut forms = unit_forms(base);
    let mut made = 0;
    for row in rows {
        made = with_row(shape, forms.as_mut_slice(), made, *row);
    }
    forms
}

/// The forms that change nothing.
fn unit_forms(base: Base) -> Forms
    requires { IsBase base }
    ensures count { length result.items ≡ base.m }
    ensures below { All (λ a. a < base.q ^ base.m) result.items }
{
    let mut forms = ArrayVec::new();
    for i in 0..base.m {
        forms.push(base.power(i));
    }
    forms
}

/// Where as many of the forms are made as there were independent rows, those for one row more, and how many are made.
fn with_row(shape: Shape, forms: &mut [u16], made: usize, row: u16) -> usize
    requires shape { IsShape shape }
    requires count { length forms.old ≡ shape.m }
    requires below { All (λ a. a < shape.q ^ shape.m) forms.old }
    requires made { made ≤ shape.m }
    ensures made { result ≤ shape.m }
    ensures count { length forms.new ≡ shape.m }
    ensures below { All (λ a. a < shape.q ^ shape.m) forms.new }
{
    match place_of(shape, forms, made, row) {
        None => made,
        Some(place) => {
            exchange(shape, forms, made, place, row);
            made + 1
        }
    }
}

/// The first form behind those that are made that does not make 0 of a row. There is none where the row depends on
/// the rows before it.
fn place_of(shape: Shape, forms: &[u16], made: usize, row: u16) -> Option<usize>
    requires shape { IsShape shape }
    requires made { made ≤ length forms.now }
    ensures place { IfSome result (λ place. place < length forms.now) }
    ensures behind { IfSome result (λ place. made ≤ place) }
{
    for place in made..forms.len() {
        if code_at(shape, forms[place], row) != 0 {
            return Some(place);
        }
    }
    None
}

/// The form at `place` makes 1 of a row and is put behind those that are made; all others make 0 of it.
fn exchange(shape: Shape, forms: &mut [u16], made: usize, place: usize, row: u16)
    requires shape { IsShape shape }
    requires count { length forms.old ≡ shape.m }
    requires below { All (λ a. a < shape.q ^ shape.m) forms.old }
    requires place { place < length forms.old }
    requires made { made ≤ place }
    ensures count { length forms.new ≡ shape.m }
    ensures below { All (λ a. a < shape.q ^ shape.m) forms.new }
{
    let own = making_one(shape, forms[place], row);
    forms[place] = forms[made];
    for i in 0..forms.len() {
        forms[i] = making_nothing(shape, forms[i], own, row);
    }
    forms[made] = own;
}

/// The multiple of a form that makes 1 of a row; 0 where the form makes 0 of it.
fn making_one(shape: Shape, form: u16, row: u16) -> u16
    requires { IsShape shape }
    ensures { result < shape.q ^ shape.m }
{
    let code = code_at(shape, form, row);
    if code == 0 {
        return 0;
    }
    sum_of(shape, 0, form, shape.field().inv(code))
}

/// A form less the multiple of `own`, which makes 1 of a row, so that it makes 0 of it.
fn making_nothing(shape: Shape, form: u16, own: u16, row: u16) -> u16
    requires { IsShape shape }
    ensures { result < shape.q ^ shape.m }
{
    let share = shape.field().neg(code_at(shape, form, row));
    sum_of(shape, form, own, share)
}

/// What a form makes of a row.
fn code_at(shape: Shape, form: u16, row: u16) -> u8
    requires { IsShape shape }
    ensures { result < shape.q }
{
    let field = shape.field();
    let m = usize::from(shape.m);
    let row = Vector::of_number(field, m, u128::from(row));
    let form = Vector::of_number(field, m, u128::from(form));
    form.dot(field, &row)
}

/// A form and a code times another form.
fn sum_of(shape: Shape, form: u16, other: u16, code: u8) -> u16
    requires shape { IsShape shape }
    requires code { code < shape.q }
    ensures { result < shape.q ^ shape.m }
{
    let field = shape.field();
    let m = usize::from(shape.m);
    let mut sum = Vector::of_number(field, m, u128::from(form));
    let other = Vector::of_number(field, m, u128::from(other));
    sum.add_scaled(field, &other, code);
    sum.number(field) as u16
}

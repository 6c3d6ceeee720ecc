ghost use Rattle.std.specs.Prelude.{◌≡◌, ◌<◌, length, position, IfSome};
ghost use Rattle.std.specs.Str.{bytes_eq};
ghost use Rattle.fx_runs.specs.Levels.{default_values};
ghost use Rattle.fx_judge.specs.Reading.{value_code, without_sign};

use fx_base::Bytes;

/// The code of which a field is the default value, if it is one, among these default values of `q`
/// levels.
pub(crate) fn value_code(q: u8, values: &[Bytes], field: &[u8]) -> Option<usize>
    requires { values.now ≡ default_values q }
    ensures code { result ≡ value_code q field.now }
    ensures inside { IfSome result (λ c. c < length values.now) }
{
    place_of(without_sign(q, field), values)
}

/// The index of a text among others.
fn place_of(text: &[u8], values: &[Bytes]) -> Option<usize>
    ensures place { result ≡ position (λ value. bytes_eq value text.now) values.now }
    ensures inside { IfSome result (λ c. c < length values.now) }
{
    values
        .iter()
        .position(|value| are_same(value.as_slice(), text))
}

fn are_same(a: &[u8], b: &[u8]) -> bool
    ensures { result ≡ bytes_eq a.now b.now }
{
    a == b
}

/// At two and three levels `+1` is read as `1`.
fn without_sign(q: u8, field: &[u8]) -> &[u8]
    ensures { result.now ≡ without_sign q field.now }
{
    if q > 3 {
        return field;
    }
    if are_same(field, b"+1") {
        return b"1";
    }
    field
}

ghost use Rattle.std.specs.Prelude.{◌≡◌, ◌≤◌, ◌<◌, ◌^◌, length};
ghost use Rattle.fx_lexer.specs.Places.{next_place, place_after};

use fx_lexer::Place;

/// The place of the byte that follows these bytes.
pub fn place_after(bytes: &[u8]) -> Place
    requires short { length bytes.now ≤ 1048576 }
    ensures { result ≡ place_after bytes.now }
{
    let mut place = Place { line: 1, column: 1 };
    for i in 0..bytes.len() {
        place = next_place(place, bytes[i]);
    }
    place
}

/// The place one byte further.
fn next_place(place: Place, b: u8) -> Place
    requires { (place.line < 2 ^ 31) × (place.column < 2 ^ 31) }
    ensures { result ≡ next_place place b }
{
    if b == b'\n' {
        return Place {
            line: place.line + 1,
            column: 1,
        };
    }
    Place {
        line: place.line,
        column: place.column + 1,
    }
}

ghost use Rattle.std.specs.Prelude.{◌≡◌, IfOk, length};
ghost use Rattle.fx_rules.specs.Parts.{blank_of, blanked, blanked_from};

use crate::parts::Part;
use fx_base::{Bytes, NoMemory, Values};
use std::alloc::Global;

/// A text with blanks in place of its parts; its lines stay.
///
/// # Errors
///
/// `NoMemory`.
pub fn blanked(alloc: Global, text: &[u8], parts: &[Part]) -> Result<Bytes, NoMemory>
    ensures blanked { IfOk result (λ bytes. bytes ≡ blanked text.now parts.now) }
    ensures long { IfOk result (λ bytes. length bytes ≡ length text.now) }
{
    let mut bytes = Values::from_slice(alloc, text)?.into_vec();
    for k in 0..parts.len() {
        blank_part(bytes.as_mut_slice(), parts[k]);
    }
    Ok(Values::from_vec(bytes))
}

/// Puts blanks in place of a part.
fn blank_part(bytes: &mut [u8], part: Part)
    ensures { bytes.new ≡ blanked_from part.at part.end 0 bytes.old }
{
    let end = part.end.min(bytes.len());
    for i in part.at..end {
        bytes[i] = blank_of(bytes[i]);
    }
}

/// A blank, but ends of lines stay.
fn blank_of(b: u8) -> u8
    ensures { result ≡ blank_of b }
{
    if b == b'\n' {
        return b;
    }
    b' '
}

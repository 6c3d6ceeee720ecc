ghost use Rattle.std.specs.Prelude.{◌≡◌, ◌++◌, decimal, OnErr, OnOk};

use crate::memory::NoMemory;
use crate::values::Bytes;
use itoa::Buffer;

/// Appends the text. Where memory ran out, `out` is as before.
pub fn put(out: &mut Bytes, text: &[u8]) -> Result<(), NoMemory>
    ensures ok { OnOk result (out.new ≡ out.old ++ text.now) }
    ensures err { OnErr result (out.new ≡ out.old) }
{
    out.extend_from_slice(text)
}

/// Appends the decimal text of `n`. Where memory ran out, `out` is as before.
pub fn put_number(out: &mut Bytes, n: u128) -> Result<(), NoMemory>
    ensures ok { OnOk result (out.new ≡ out.old ++ decimal n) }
    ensures err { OnErr result (out.new ≡ out.old) }
{
    let mut buffer = Buffer::new();
    out.extend_from_slice(buffer.format(n).as_bytes())
}

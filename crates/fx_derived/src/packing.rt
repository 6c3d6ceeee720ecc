ghost use Rattle.std.specs.Prelude.{◌≡◌, ◌≤◌, ◌++◌, ◌∷◌, [], length, take, drop, OnErr, OnOk};
ghost use Rattle.fx_derived.specs.Texts.{behind_length, first_length, length_bytes, packed};

use fx_base::NoMemory;

/// Packs one more text, or leaves the bytes as they are where memory ran out.
pub(crate) fn pack(bytes: &mut Vec<u8>, text: &[u8]) -> Result<(), NoMemory>
    ensures ok { OnOk result (bytes.new.items ≡ bytes.old.items ++ packed (text.now ∷ [])) }
    ensures err { OnErr result (bytes.new.items ≡ bytes.old.items) }
{
    let before = bytes.len();
    if put_text(bytes, text).is_err() {
        bytes.truncate(before);
        return Err(NoMemory);
    }
    Ok(())
}

/// Adds a text behind its length. Where memory ran out, a part of them may be there.
fn put_text(bytes: &mut Vec<u8>, text: &[u8]) -> Result<(), NoMemory>
    ensures ok { OnOk result (bytes.new.items
        ≡ bytes.old.items ++ (length_bytes (length text.now) ++ text.now)) }
    ensures kept { take (length bytes.old.items) bytes.new.items ≡ bytes.old.items }
{
    put_length(bytes, text.len())?;
    extend(bytes, text)?;
    Ok(())
}

/// Adds the bytes of a length. Where memory ran out, some of them may be there.
fn put_length(bytes: &mut Vec<u8>, count: usize) -> Result<(), NoMemory>
    ensures ok { OnOk result (bytes.new.items ≡ bytes.old.items ++ length_bytes count) }
    ensures kept { take (length bytes.old.items) bytes.new.items ≡ bytes.old.items }
{
    for _i in 0..count / 255 {
        if bytes.push(255).is_err() {
            return Err(NoMemory);
        }
    }
    if bytes.push((count % 255) as u8).is_err() {
        return Err(NoMemory);
    }
    Ok(())
}

/// Adds bytes at the end, or leaves those that are there as they are where memory ran out.
pub(crate) fn extend(bytes: &mut Vec<u8>, more: &[u8]) -> Result<(), NoMemory>
    ensures ok { OnOk result (bytes.new.items ≡ bytes.old.items ++ more.now) }
    ensures err { OnErr result (bytes.new.items ≡ bytes.old.items) }
{
    if bytes.extend_from_slice(more).is_err() {
        return Err(NoMemory);
    }
    Ok(())
}

/// The first of packed texts, and the bytes of the others.
pub(crate) fn unpack_first(bytes: &[u8]) -> (&[u8], &[u8])
    requires { first_length bytes.now ≤ length (behind_length bytes.now) }
    ensures text { result.0.now ≡ take (first_length bytes.now) (behind_length bytes.now) }
    ensures others { result.1.now ≡ drop (first_length bytes.now) (behind_length bytes.now) }
{
    let (count, start) = read_length(bytes);
    bytes[start..].split_at(count)
}

/// The length that the bytes begin with, and where it ends.
fn read_length(bytes: &[u8]) -> (usize, usize)
    requires { first_length bytes.now ≤ length (behind_length bytes.now) }
    ensures count { result.0 ≡ first_length bytes.now }
    ensures behind { drop result.1 bytes.now ≡ behind_length bytes.now }
    ensures within { result.1 ≤ length bytes.now }
{
    let mut count = 0;
    let end = bytes.len();
    for i in 0..end {
        count += usize::from(bytes[i]);
        if bytes[i] != 255 {
            return (count, i + 1);
        }
    }
    (count, end)
}

ghost use Rattle.std.specs.Prelude.{◌≡◌, ◌<◌, ◌≤◌, ◌+◌, ◌&&◌, not, [], length, drop, slice_index_or};
ghost use Rattle.std.specs.List.{list_all, list_any};
ghost use Rattle.std.specs.Str.{str_eq_ignore_ascii_case};
ghost use Rattle.fx_lexer.specs.Bytes.{begins_word, is_word_byte};
ghost use Rattle.fx_judge.specs.Reading.{are_distinct, are_names, are_fit, is_name, is_identifier};

use fx_base::Bytes;

/// Whether these are 1 to 40 names, each a word of at most 32 bytes, and none repeated.
pub(crate) fn are_names(names: &[Bytes]) -> bool
    ensures { result ≡ are_names names.now }
{
    if names.is_empty() {
        return false;
    }
    if names.len() > 40 {
        return false;
    }
    are_fit(names)
}

/// Whether each is a word of at most 32 bytes, and none is repeated.
fn are_fit(names: &[Bytes]) -> bool
    ensures { result ≡ are_fit names.now }
{
    for i in 0..names.len() {
        if !is_fit(names, i) {
            return false;
        }
    }
    true
}

/// Whether the name at `i` is a word of at most 32 bytes, and no later name is the same.
fn is_fit(names: &[Bytes], i: usize) -> bool
    requires { i < length names.now }
    ensures { let name = slice_index_or names.now i [] in
        result ≡ (is_name name && not (list_any (str_eq_ignore_ascii_case name) (drop (i + 1) names.now))) }
{
    let name = names[i].as_slice();
    if !is_name(name) {
        return false;
    }
    !is_among(name, &names[i + 1..])
}

/// Whether some name is the same, without regard to case.
fn is_among(name: &[u8], names: &[Bytes]) -> bool
    ensures { result ≡ list_any (str_eq_ignore_ascii_case name.now) names.now }
{
    for other in names {
        if is_same_name(name, other.as_slice()) {
            return true;
        }
    }
    false
}

/// Whether they are the same name, without regard to case.
pub(crate) fn is_same_name(a: &[u8], b: &[u8]) -> bool
    ensures { result ≡ str_eq_ignore_ascii_case a.now b.now }
{
    a.eq_ignore_ascii_case(b)
}

/// Whether this is a word of at most 32 bytes.
fn is_name(bytes: &[u8]) -> bool
    ensures { result ≡ is_name bytes.now }
{
    if bytes.len() > 32 {
        return false;
    }
    is_identifier(bytes)
}

/// A letter or `_`, and then letters, digits and `_`.
fn is_identifier(bytes: &[u8]) -> bool
    ensures { result ≡ is_identifier bytes.now }
{
    if bytes.is_empty() {
        return false;
    }
    if !begins_word(bytes[0]) {
        return false;
    }
    are_word_bytes(bytes)
}

fn are_word_bytes(bytes: &[u8]) -> bool
    ensures { result ≡ list_all is_word_byte bytes.now }
{
    for b in bytes {
        if !is_word_byte(*b) {
            return false;
        }
    }
    true
}

fn begins_word(b: u8) -> bool
    ensures { result ≡ begins_word b }
{
    b.is_ascii_alphabetic() || b == b'_'
}

fn is_word_byte(b: u8) -> bool
    ensures { result ≡ is_word_byte b }
{
    begins_word(b) || b.is_ascii_digit()
}

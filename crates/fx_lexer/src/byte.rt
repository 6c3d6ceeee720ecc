ghost use Rattle.std.specs.Prelude.{◌≡◌};
ghost use Rattle.fx_lexer.specs.Bytes.{begins_word, is_digit, is_quote, is_sign, is_white, is_word_byte};

pub fn is_white(b: u8) -> bool
    ensures { result ≡ is_white b }
{
    b == b' ' || b == b'\t' || b == b'\n' || b == b'\r'
}

pub fn is_digit(b: u8) -> bool
    ensures { result ≡ is_digit b }
{
    b.is_ascii_digit()
}

pub fn begins_word(b: u8) -> bool
    ensures { result ≡ begins_word b }
{
    b.is_ascii_alphabetic() || b == b'_'
}

pub fn is_word_byte(b: u8) -> bool
    ensures { result ≡ is_word_byte b }
{
    begins_word(b) || is_digit(b)
}

pub fn is_quote(b: u8) -> bool
    ensures { result ≡ is_quote b }
{
    b == b'\'' || b == b'"'
}

pub fn is_sign(b: u8) -> bool
    ensures { result ≡ is_sign b }
{
    b";=()[]/*|@-".iter().any(|sign| *sign == b)
}

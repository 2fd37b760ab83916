//! Bytes by class.
ghost use Rattle.std.specs.Prelude.{◌≡◌};
ghost use Rattle.js_lexer.specs.Bytes.{is_digit, is_name_start, is_name_byte, is_quote};

/// Whether the byte is a digit.
pub(crate) fn is_digit_byte(b: u8) -> bool
    ensures { result ≡ is_digit b }
{
    b'0' <= b && b <= b'9'
}

/// Whether a name may begin with the byte.
pub(crate) fn begins_name(b: u8) -> bool
    ensures { result ≡ is_name_start b }
{
    b'a' <= b && b <= b'z' || b'A' <= b && b <= b'Z' || b == b'_' || b == b'$'
}

/// Whether the byte may stand in a name.
pub(crate) fn stands_in_name(b: u8) -> bool
    ensures { result ≡ is_name_byte b }
{
    begins_name(b) || is_digit_byte(b)
}

/// Whether the byte begins a text literal.
pub(crate) fn is_quote_byte(b: u8) -> bool
    ensures { result ≡ is_quote b }
{
    b == b'\'' || b == b'"'
}

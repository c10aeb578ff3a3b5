//! The kinds of bytes.

ghost use Rattle.std.specs.Prelude.{◌≡◌, ◌≤◌, length};
ghost use Rattle.std.specs.List.{prefix_len};
ghost use Rattle.hoa_lexer.specs.Bytes as kinds;

/// Space, tab, line feed or carriage return.
#[inline(always)]
pub(super) fn is_space(byte: u8) -> bool
    ensures { result ≡ kinds.is_space byte }
{
    byte == b' ' || byte == b'\t' || byte == b'\n' || byte == b'\r'
}

/// What an identifier begins with.
#[inline(always)]
pub(super) fn is_letter(byte: u8) -> bool
    ensures { result ≡ kinds.is_letter byte }
{
    (b'A' <= byte && byte <= b'Z') || (b'a' <= byte && byte <= b'z') || byte == b'_'
}

/// `0` to `9`.
#[inline(always)]
pub(super) fn is_digit(byte: u8) -> bool
    ensures { result ≡ kinds.is_digit byte }
{
    b'0' <= byte && byte <= b'9'
}

/// What an identifier or an alias goes on with.
#[inline(always)]
pub(super) fn is_word(byte: u8) -> bool
    ensures { result ≡ kinds.is_word byte }
{
    is_letter(byte) || is_digit(byte) || byte == b'-'
}

/// How many letters, digits and `-` the bytes begin with.
pub(super) fn word_run(bytes: &[u8]) -> usize
    ensures run { result ≡ prefix_len kinds.is_word bytes.now }
    ensures within { result ≤ length bytes.now }
{
    for (place, byte) in bytes.iter().enumerate() {
        if !is_word(*byte) {
            return place;
        }
    }
    bytes.len()
}

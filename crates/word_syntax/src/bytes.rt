//! The kinds of bytes in the notation.

ghost use Rattle.std.specs.Prelude.{◌≡◌, ◌≤◌, length, drop};
ghost use Rattle.std.specs.List.{list_all, prefix_len};
ghost use Rattle.word_syntax.specs.Printing.{is_small};
ghost use Rattle.word_syntax.specs.Tokens as kinds;

/// Space, tab, line feed or carriage return.
pub(crate) fn is_space(byte: u8) -> bool
    ensures { result ≡ kinds.is_space byte }
{
    byte == b' ' || byte == b'\t' || byte == b'\n' || byte == b'\r'
}

/// A byte with which a bare name begins: an ASCII letter or `_`.
pub(crate) fn is_letter(byte: u8) -> bool
    ensures { result ≡ kinds.is_letter byte }
{
    (b'A' <= byte && byte <= b'Z') || (b'a' <= byte && byte <= b'z') || byte == b'_'
}

/// A further byte of a bare name: an ASCII letter, a digit or `_`.
pub(crate) fn is_word(byte: u8) -> bool
    ensures { result ≡ kinds.is_alphanumeric byte }
{
    is_letter(byte) || (b'0' <= byte && byte <= b'9')
}

/// The number of blanks at the front.
pub(crate) fn blanks(bytes: &[u8]) -> usize
    ensures { result ≡ prefix_len kinds.is_space bytes.now }
{
    bytes.iter().take_while(|byte| is_space(**byte)).count()
}

/// The number of letters and digits at the front.
pub(crate) fn words(bytes: &[u8]) -> usize
    ensures { result ≡ prefix_len kinds.is_alphanumeric bytes.now }
{
    bytes.iter().take_while(|byte| is_word(**byte)).count()
}

/// The bytes from this index on.
pub(crate) fn from(bytes: &[u8], at: usize) -> &[u8]
    requires { at ≤ length bytes.now }
    ensures { result.now ≡ drop at bytes.now }
{
    &bytes[at..]
}

/// A byte with which a name begins that is printed without quotes: `a` to `z` or `_`.
pub(crate) fn is_small(byte: u8) -> bool
    ensures { result ≡ is_small byte }
{
    (b'a' <= byte && byte <= b'z') || byte == b'_'
}

/// Whether all are letters and digits.
pub(crate) fn are_words(bytes: &[u8]) -> bool
    ensures { result ≡ list_all kinds.is_alphanumeric bytes.now }
{
    bytes.iter().all(|byte| is_word(*byte))
}

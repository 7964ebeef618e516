//! How many first bytes of a text belong to a name or a number.

ghost use Rattle.std.specs.Prelude.{◌≡◌, ◌<◌, ◌≤◌, length, true};
ghost use Rattle.std.specs.Char.{is_ascii_digit, is_ascii_hexdigit};
ghost use Rattle.std.specs.List.{prefix_len};
ghost use Rattle.ottl_lex.specs.Tokens.{digit_first, in_lower, in_upper};

pub(crate) fn lower_len(text: &[u8]) -> usize
    ensures value { result ≡ prefix_len in_lower text.now }
    ensures within { result ≤ length text.now }
{
    text.iter().take_while(|byte| in_lower(**byte)).count()
}

pub(crate) fn upper_len(text: &[u8]) -> usize
    ensures value { result ≡ prefix_len in_upper text.now }
    ensures within { result ≤ length text.now }
{
    text.iter().take_while(|byte| in_upper(**byte)).count()
}

pub(crate) fn digits_len(text: &[u8]) -> usize
    ensures value { result ≡ prefix_len is_ascii_digit text.now }
    ensures within { result ≤ length text.now }
    ensures some { digit_first text.now ≡ true → 0 < result }
{
    text.iter().take_while(|byte| byte.is_ascii_digit()).count()
}

pub(crate) fn hex_len(text: &[u8]) -> usize
    ensures value { result ≡ prefix_len is_ascii_hexdigit text.now }
    ensures within { result ≤ length text.now }
{
    text.iter()
        .take_while(|byte| byte.is_ascii_hexdigit())
        .count()
}

fn in_lower(byte: u8) -> bool
    ensures { result ≡ in_lower byte }
{
    byte.is_ascii_lowercase() || byte.is_ascii_digit() || byte == b'_'
}

fn in_upper(byte: u8) -> bool
    ensures { result ≡ in_upper byte }
{
    byte.is_ascii_uppercase() || in_lower(byte)
}

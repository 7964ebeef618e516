//! Whether bytes spell a double (RFC 8259, section 6, and three words).

ghost use Rattle.std.specs.Prelude.{◌≡◌, ◌↔◌, IsTrue};
ghost use Rattle.pdata_value.specs.Numeral.{IsSpelling};
ghost use Rattle.pdata_value.specs.Scan as spec;

/// Whether the bytes are a numeral or one of the words.
#[tactic(auto, using(crate::proofs::Numerals::is_spelled, crate::proofs::Numerals::spelled_is))]
pub fn is_spelling(bytes: &[u8]) -> bool
    ensures scan { result ≡ spec.is_spelling bytes.now }
    ensures meaning { IsTrue result ↔ IsSpelling bytes.now }
{
    is_numeral_or_word(bytes)
}

fn is_numeral_or_word(bytes: &[u8]) -> bool
    ensures { result ≡ spec.is_spelling bytes.now }
{
    is_numeral(bytes)
        || bytes == b"NaN".as_slice()
        || bytes == b"Infinity".as_slice()
        || bytes == b"-Infinity".as_slice()
}

fn is_numeral(bytes: &[u8]) -> bool
    ensures { result ≡ spec.is_numeral bytes.now }
{
    match bytes {
        [b'-', rest @ ..] => is_unsigned(rest),
        _ => is_unsigned(bytes),
    }
}

fn is_unsigned(bytes: &[u8]) -> bool
    ensures { result ≡ spec.is_unsigned bytes.now }
{
    match bytes {
        [b'0', rest @ ..] => is_scale(rest),
        [b'1'..=b'9', rest @ ..] => is_scale(after_digits(rest)),
        _ => false,
    }
}

// A fraction, which may be missing, and then an exponent, which may be missing.
fn is_scale(bytes: &[u8]) -> bool
    ensures { result ≡ spec.is_scale bytes.now }
{
    match bytes {
        [b'.', rest @ ..] => is_fraction(rest),
        _ => is_exponent(bytes),
    }
}

// What may follow a point.
fn is_fraction(bytes: &[u8]) -> bool
    ensures { result ≡ spec.is_fraction bytes.now }
{
    match bytes {
        [b'0'..=b'9', rest @ ..] => is_exponent(after_digits(rest)),
        _ => false,
    }
}

// An exponent or nothing.
fn is_exponent(bytes: &[u8]) -> bool
    ensures { result ≡ spec.is_exponent bytes.now }
{
    match bytes {
        [] => true,
        [b'e' | b'E', rest @ ..] => is_power(rest),
        _ => false,
    }
}

fn is_power(bytes: &[u8]) -> bool
    ensures { result ≡ spec.is_power bytes.now }
{
    match bytes {
        [b'+' | b'-', rest @ ..] => are_digits(rest),
        _ => are_digits(bytes),
    }
}

fn are_digits(bytes: &[u8]) -> bool
    ensures { result ≡ spec.are_digits bytes.now }
{
    match bytes {
        [b'0'..=b'9', rest @ ..] => after_digits(rest).is_empty(),
        _ => false,
    }
}

fn after_digits(bytes: &[u8]) -> &[u8]
    ensures { result.now ≡ spec.after_digits bytes.now }
{
    let mut rest = bytes;
    while let [b'0'..=b'9', after @ ..] = rest {
        rest = after;
    }
    rest
}

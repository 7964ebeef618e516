//! Whole numbers by their spelling.

ghost use Rattle.std.specs.Prelude.{◌≡◌, ◌^◌, Some, pos};
ghost use Rattle.otlp_json.specs.Fields.{digits, decimal, negative, whole, below, around};
ghost use Rattle.otlp_json.specs.Digits.{under};

#[tactic(auto, using(crate::proofs::Decimals::larges))]
fn decimal_of(bytes: &[u8]) -> Option<u64>
    ensures { result ≡ under (2 ^ 64) (decimal 0 bytes.now) }
{
    let mut n: u64 = 0;
    let mut rest = bytes;
    while let [byte, after @ ..] = rest {
        if *byte < b'0' || *byte > b'9' {
            return None;
        }
        n = n.checked_mul(10)?.checked_add((*byte - b'0') as u64)?;
        rest = after;
    }
    Some(n)
}

// Digits without a leading 0.
fn digits_of(bytes: &[u8]) -> Option<u64>
    ensures { result ≡ under (2 ^ 64) (digits bytes.now) }
{
    match bytes {
        [] => None,
        [_] => decimal_of(bytes),
        [first, _, ..] => {
            if *first > b'0' {
                decimal_of(bytes)
            } else {
                None
            }
        }
    }
}

/// The whole number from 0 that a text spells, if it is one of 64 bits.

pub(crate) fn unsigned_of(text: &str) -> Option<u64>
    ensures { result ≡ below (2 ^ 64) (whole text.now) }
{
    match text.as_bytes() {
        [b'-', digits @ ..] => match digits_of(digits) {
            Some(0) => Some(0),
            _ => None,
        },
        bytes => digits_of(bytes),
    }
}

/// Likewise of 32 bits.

pub(crate) fn small_unsigned_of(text: &str) -> Option<u32>
    ensures { result ≡ below (2 ^ 32) (whole text.now) }
{
    match unsigned_of(text) {
        Some(n) => {
            if n < 0x1_0000_0000 {
                Some(n as u32)
            } else {
                None
            }
        }
        None => None,
    }
}

/// The whole number that a text spells, if it is one of 64 bits with a sign.

pub(crate) fn signed_of(text: &str) -> Option<i64>
    ensures { result ≡ around (2 ^ 63) (whole text.now) }
{
    match text.as_bytes() {
        [b'-', digits @ ..] => match digits_of(digits) {
            Some(n) => minus(n),
            None => None,
        },
        bytes => match digits_of(bytes) {
            Some(n) => plus(n),
            None => None,
        },
    }
}

fn plus(n: u64) -> Option<i64>
    ensures { result ≡ around (2 ^ 63) (Some (pos n)) }
{
    if n < 0x8000_0000_0000_0000 {
        Some(n as i64)
    } else {
        None
    }
}

fn minus(n: u64) -> Option<i64>
    ensures { result ≡ around (2 ^ 63) (Some (negative n)) }
{
    if n < 0x8000_0000_0000_0000 {
        Some(-(n as i64))
    } else if n == 0x8000_0000_0000_0000 {
        Some(i64::MIN)
    } else {
        None
    }
}

/// Likewise of 32 bits.

pub(crate) fn small_signed_of(text: &str) -> Option<i32>
    ensures { result ≡ around (2 ^ 31) (whole text.now) }
{
    match signed_of(text) {
        Some(n) => {
            if -0x8000_0000 <= n && n < 0x8000_0000 {
                Some(n as i32)
            } else {
                None
            }
        }
        None => None,
    }
}

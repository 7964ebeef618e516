//! Names of components.

ghost use Rattle.std.specs.Prelude.{◌≡◌, ◌+◌, ◌==◌, ◌≤◌, length, take, drop, Some, None, option_map, if◌then◌else◌};
ghost use Rattle.std.specs.List.{list_all};
ghost use Rattle.conf_shape.specs.ComponentName as spec;

/// The type of a component's name; None where the name has another form.
pub fn type_of(name: &[u8]) -> Option<&[u8]>
    ensures { option_map (λ t. t.now) result ≡ spec.type_of name.now }
{
    let at = front_len(name);
    let front = &name[..at];
    if is_type(front) && (at == name.len() || is_name(&name[at + 1..])) {
        Some(front)
    } else {
        None
    }
}

// The number of bytes before the first `/`.
fn front_len(name: &[u8]) -> usize
    ensures within { result ≤ length name.now }
    ensures front { take result name.now ≡ spec.front_of name.now }
    ensures back { spec.back_of name.now
        ≡ (if result == length name.now then None else Some (drop (result + 1) name.now)) }
{
    for (at, b) in name.iter().enumerate() {
        if *b == b'/' {
            return at;
        }
    }
    name.len()
}

fn is_type(bytes: &[u8]) -> bool
    ensures { result ≡ spec.is_type bytes.now }
{
    match bytes {
        [] => false,
        [first, rest @ ..] => is_letter(*first) && are_words(rest),
    }
}

fn are_words(bytes: &[u8]) -> bool
    ensures { result ≡ list_all spec.is_word bytes.now }
{
    bytes.iter().all(|b| is_word(*b))
}

// What stands behind a `/`.
fn is_name(bytes: &[u8]) -> bool
    ensures { result ≡ spec.is_behind (Some bytes.now) }
{
    match bytes {
        [] => false,
        _ => are_name_bytes(bytes),
    }
}

fn are_name_bytes(bytes: &[u8]) -> bool
    ensures { result ≡ list_all spec.is_name_byte bytes.now }
{
    bytes.iter().all(|b| is_name_byte(*b))
}

fn is_letter(b: u8) -> bool
    ensures { result ≡ spec.is_letter b }
{
    (b'A' <= b && b <= b'Z') || (b'a' <= b && b <= b'z')
}

fn is_word(b: u8) -> bool
    ensures { result ≡ spec.is_word b }
{
    is_letter(b) || (b'0' <= b && b <= b'9') || b == b'_'
}

fn is_name_byte(b: u8) -> bool
    ensures { result ≡ spec.is_name_byte b }
{
    is_word(b) || b == b'-' || b == b'.'
}

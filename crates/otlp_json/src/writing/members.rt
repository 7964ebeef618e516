//! Members that are left out where what they hold is as good as absent. Each call is told whether
//! members stand before, and answers whether members stand then.

ghost use Rattle.std.specs.Prelude.{◌≡◌, ◌==◌, ◌++◌, ◌≤◌, codes, length, IsTrue, IfOk, OnOk};
ghost use Rattle.std.specs.List.{list_all};
ghost use Rattle.hex.specs.Hex.{encode_lower};
ghost use Rattle.json_text.specs.Reading.{is_plain};
ghost use Rattle.json_text.specs.Writing.{quoted_text};
ghost use Rattle.otlp_json.specs.Line as spec;
ghost use Rattle.otlp_json.specs.Adding.{Adds, comma_if};

use itoa::Buffer;
use json_text::push_text;
use pdata_value::Text;
use std::alloc::AllocError;

fn push_comma_if(out: &mut Vec<u8>, some: bool) -> Result<(), AllocError>
    ensures { OnOk result (out.new.items ≡ out.old.items ++ comma_if some) }
{
    if some {
        out.push(b',')?;
    }
    Ok(())
}

/// Appends a key in quotes and its colon, behind a comma where members stand before. No byte of it
/// wants an escape.
pub(crate) fn push_key(out: &mut Vec<u8>, some: bool, key: &str) -> Result<(), AllocError>
    requires { IsTrue (list_all is_plain key.now) }
    ensures { OnOk result
        (out.new.items ≡ out.old.items ++ (comma_if some ++ (quoted_text key.now ++ codes ":"))) }
{
    push_comma_if(out, some)?;
    out.push(b'"')?;
    out.extend_from_slice(key.as_bytes())?;
    out.extend_from_slice(b"\":")?;
    Ok(())
}

pub(crate) fn push_text_member(
    out: &mut Vec<u8>,
    some: bool,
    key: &str,
    text: &Text,
) -> Result<bool, AllocError>
    requires { IsTrue (list_all is_plain key.now) }
    ensures { IfOk result
        (λ now. Adds (spec.text_member key.now text.now) some out.old.items now out.new.items) }
{
    let text = text.as_str();
    if text.is_empty() {
        return Ok(some);
    }
    push_key(out, some, key)?;
    push_text(out, text)?;
    Ok(true)
}

pub(crate) fn push_u64_member(
    out: &mut Vec<u8>,
    some: bool,
    key: &str,
    n: u64,
) -> Result<bool, AllocError>
    requires { IsTrue (list_all is_plain key.now) }
    ensures { IfOk result
        (λ now. Adds (spec.u64_member key.now n) some out.old.items now out.new.items) }
{
    if n == 0 {
        return Ok(some);
    }
    push_key(out, some, key)?;
    let mut buffer = Buffer::new();
    push_text(out, buffer.format(n))?;
    Ok(true)
}

pub(crate) fn push_u32_member(
    out: &mut Vec<u8>,
    some: bool,
    key: &str,
    n: u32,
) -> Result<bool, AllocError>
    requires { IsTrue (list_all is_plain key.now) }
    ensures { IfOk result
        (λ now. Adds (spec.u32_member key.now n) some out.old.items now out.new.items) }
{
    if n == 0 {
        return Ok(some);
    }
    push_key(out, some, key)?;
    let mut buffer = Buffer::new();
    out.extend_from_slice(buffer.format(n).as_bytes())?;
    Ok(true)
}

pub(crate) fn push_i32_member(
    out: &mut Vec<u8>,
    some: bool,
    key: &str,
    n: i32,
) -> Result<bool, AllocError>
    requires { IsTrue (list_all is_plain key.now) }
    ensures { IfOk result
        (λ now. Adds (spec.i32_member key.now n) some out.old.items now out.new.items) }
{
    if n == 0 {
        return Ok(some);
    }
    push_key(out, some, key)?;
    let mut buffer = Buffer::new();
    out.extend_from_slice(buffer.format(n).as_bytes())?;
    Ok(true)
}

fn is_zero(id: &[u8]) -> bool
    ensures { result ≡ list_all (λ b. b == 0) id.now }
{
    for byte in id {
        if *byte != 0 {
            return false;
        }
    }
    true
}

// Appends the lower-case digits of at most 16 bytes in quotes.
fn push_digits(out: &mut Vec<u8>, id: &[u8]) -> Result<(), AllocError>
    requires { length id.now ≤ 16 }
    ensures { OnOk result
        (out.new.items ≡ out.old.items ++ (codes "\"" ++ (encode_lower id.now ++ codes "\""))) }
{
    let mut room = [0; 32];
    let digits = &mut room[..2 * id.len()];
    let _written = hex::encode_to_slice(id, digits);
    out.push(b'"')?;
    out.extend_from_slice(digits)?;
    out.push(b'"')?;
    Ok(())
}

fn push_id_bytes(out: &mut Vec<u8>, some: bool, key: &str, id: &[u8]) -> Result<bool, AllocError>
    requires plain { IsTrue (list_all is_plain key.now) }
    requires short { length id.now ≤ 16 }
    ensures { IfOk result
        (λ now. Adds (spec.id_member key.now id.now) some out.old.items now out.new.items) }
{
    if is_zero(id) {
        return Ok(some);
    }
    push_key(out, some, key)?;
    push_digits(out, id)?;
    Ok(true)
}

pub(crate) fn push_id_member<const N: usize>(
    out: &mut Vec<u8>,
    some: bool,
    key: &str,
    id: &[u8; N],
) -> Result<bool, AllocError>
    requires plain { IsTrue (list_all is_plain key.now) }
    requires short { N ≤ 16 }
    ensures { IfOk result
        (λ now. Adds (spec.id_member key.now id.now) some out.old.items now out.new.items) }
{
    push_id_bytes(out, some, key, id.as_slice())
}

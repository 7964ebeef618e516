//! Ids of traces and spans as texts.

ghost use Rattle.std.specs.Prelude.{◌≡◌, IfOk};
ghost use Rattle.pdata_tree.specs.Ids as spec;

use hex::FromHex;
use pdata_value::Text;
use std::alloc::{AllocError, Global};

/// The id that a text spells: none where it is empty, else two hexadecimal digits of either case
/// for each byte.
pub fn id_of<const N: usize>(text: &str) -> Option<[u8; N]>
    ensures { result ≡ spec.id_bytes N text.now }
{
    if text.is_empty() {
        return Some([0; N]);
    }
    match <[u8; N] as FromHex>::from_hex(text) {
        Ok(id) => Some(id),
        Err(_) => None,
    }
}

/// The text of an id: lower-case digits, or the empty text where the id is zeros alone.
pub fn id_text(alloc: Global, id: &[u8]) -> Result<Text, AllocError>
    ensures { IfOk result (λ text. text ≡ spec.id_text id.now) }
{
    if is_empty_id(id) {
        return Ok(Text::new(alloc));
    }
    let text = hex::encode(alloc, id)?;
    Ok(Text::from_string(text))
}

fn is_empty_id(id: &[u8]) -> bool
    ensures { result ≡ spec.is_empty_id id.now }
{
    id.iter().all(|byte| *byte == 0)
}

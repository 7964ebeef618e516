//! Digests, digits and base64, by `sha2`, `hex` and `base64`.

ghost use Rattle.std.specs.Prelude.{◌≡◌, IfOk};
ghost use Rattle.contract_words.specs.Gives.{Gives};
ghost use Rattle.base64.specs.Engines.{standard};
ghost use Rattle.base64.specs.GeneralPurpose.{decode_of};
ghost use Rattle.hex.specs.Hex.{encode_lower};
ghost use Rattle.sha2.specs.Sha256.{sha256};
ghost use Rattle.func_code.specs.Outside.{decode_fault};

use base64::DecodeAllocError;
use base64::engine::general_purpose::STANDARD;
use pdata_value::Text;
use sha2::{Digest, Sha256};
use std::alloc::{AllocError, Global};

/// The digest of bytes under SHA-256.
pub(crate) fn sha256(bytes: &[u8]) -> [u8; 32]
    ensures { result ≡ sha256 bytes.now }
{
    Sha256::digest(bytes)
}

/// Bytes in lower-case hexadecimal.
pub(crate) fn digits(alloc: Global, bytes: &[u8]) -> Result<Text, AllocError>
    ensures { IfOk result (λ text. text ≡ encode_lower bytes.now) }
{
    let text = hex::encode(alloc, bytes)?;
    Ok(Text::from_string(text))
}

/// The bytes that a text of standard base64 spells.
pub(crate) fn base64_bytes(alloc: Global, text: &str) -> Result<Vec<u8>, DecodeAllocError>
    ensures { Gives (λ bytes. bytes.items) decode_fault result (decode_of standard text.now) }
{
    STANDARD.decode(alloc, text.as_bytes())
}

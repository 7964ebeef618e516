//! Digests, hexadecimal and base64 of values.

ghost use Rattle.std.specs.Prelude.{◌≡◌, codes};
ghost use Rattle.contract_words.specs.Gives.{Gives};
ghost use Rattle.pdata_value.specs.Errors.{eval_fault};
ghost use Rattle.pdata_value.specs.Answers.{Answers};
ghost use Rattle.func_code.specs.Codes.{bytes_in, sha256_of, hex_text_of, decode_of, text_of_bytes};

use crate::digest;
use base64::DecodeAllocError;
use pdata_value::{EvalErr, EvalStop, Text, Value, made, text_in};
use std::alloc::Global;

/// The digest of a text or of bytes under SHA-256, in lower-case hexadecimal.
pub fn sha256(alloc: Global, value: &Value) -> Result<Value, EvalStop>
    ensures { Answers result (sha256_of value.now) }
{
    let bytes = bytes_in(value)?;
    let digest = digest::sha256(bytes);
    let text = digest::digits(alloc, &digest)?;
    made(Value::Text(text))
}

/// A text or bytes in lower-case hexadecimal.
pub fn hex_text(alloc: Global, value: &Value) -> Result<Value, EvalStop>
    ensures { Answers result (hex_text_of value.now) }
{
    let bytes = bytes_in(value)?;
    let text = digest::digits(alloc, bytes)?;
    made(Value::Text(text))
}

/// The text that a text in a code spells. There is one code, `base64`.
pub fn decode(alloc: Global, value: &Value, _code: &Text) -> Result<Value, EvalStop>
    requires { _code.now ≡ codes "base64" }
    ensures { Answers result (decode_of value.now _code.now) }
{
    let text = text_in(value)?;
    match digest::base64_bytes(alloc, text.as_str()) {
        Ok(bytes) => text_of_bytes(bytes),
        Err(DecodeAllocError::DecodeError(_)) => Err(EvalStop::Err(EvalErr::BadText)),
        Err(DecodeAllocError::OutOfMemory) => Err(EvalStop::NoMemory),
    }
}

fn text_of_bytes(bytes: Vec<u8>) -> Result<Value, EvalStop>
    ensures { Answers result (text_of_bytes bytes.items) }
{
    match String::from_utf8(bytes) {
        Ok(text) => made(Value::Text(Text::from_string(text))),
        Err(_) => Err(EvalStop::Err(EvalErr::BadText)),
    }
}

fn bytes_in(value: &Value) -> Result<&[u8], EvalStop>
    ensures { Gives (λ bytes. bytes.now) eval_fault result (bytes_in value.now) }
{
    match value {
        Value::Text(text) => Ok(text.as_str().as_bytes()),
        Value::Bytes(bytes) => Ok(bytes.as_slice()),
        Value::Empty => Err(EvalStop::Err(EvalErr::NilArgument)),
        Value::Double(_) => Err(EvalStop::Err(EvalErr::Double)),
        _ => Err(EvalStop::Err(EvalErr::KindOf)),
    }
}

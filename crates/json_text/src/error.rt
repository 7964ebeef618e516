//! Why a text is no JSON.

ghost use Rattle.std.specs.Prelude.{◌≡◌};
ghost use Rattle.json_text.specs.declared.error.JsonFault.TheVariants.{NoMemory};

use std::alloc::AllocError;

/// The first fault of a text, with its place, counted in bytes from 0.
#[derive(Clone, Copy, Debug, PartialEq, Eq)]
pub enum JsonFault {
    /// At the first byte of the first sequence that is no UTF-8.
    BadUtf8(u32),
    /// At the length of the longest prefix with which some text of JSON begins (RFC 8259).
    BadJson(u32),
    /// At the bracket or brace that opens one container too many.
    TooDeep(u32),
    NoMemory,
}

impl From<AllocError> for JsonFault {
    ghost from_gives = { λ _ fault. fault ≡ NoMemory };

    fn from(_error: AllocError) -> JsonFault {
        JsonFault::NoMemory
    }
}

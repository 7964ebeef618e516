//! A law on objects that are cut off.

ghost use Rattle.std.specs.Prelude.{◌≡◌, ◌++◌, ℕ, List, codes, length, Ok, Err, Some};
ghost use Rattle.std.specs.Str.{IsUtf8, IsValidUpTo};
ghost use Rattle.json_text.specs.Kinds.{Member, as_members};
ghost use Rattle.json_text.specs.Reading.{json_text};
ghost use Rattle.json_text.specs.declared.json.Json.{Json};
ghost use Rattle.json_text.specs.declared.error.JsonFault.TheVariants.{BadUtf8, BadJson};

/// A text that is an object and ends in its brace, cut off anywhere, is refused at the cut.
pub fn cut_objects_are_refused()
    // Between two characters: at the length of the front.
    ensures between { (front rest : List ℕ) (depth : ℕ) (value : Json) (members : List Member)
        → json_text (front ++ (rest ++ codes "}")) depth ≡ Ok value
        → as_members value ≡ Some members → IsUtf8 front
        → json_text front depth ≡ Err (BadJson (length front)) }

    // Within a character: at its first byte, where the longest front that is UTF-8 ends.
    ensures within { (front : List ℕ) (depth at : ℕ) → IsValidUpTo front at
        → json_text front depth ≡ Err (BadUtf8 at) }
{}

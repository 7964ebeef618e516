//! Laws on reading and writing.

ghost use Rattle.std.specs.Prelude.{◌≡◌, ◌++◌, ℕ, List, codes, length, Ok, Err, Some};
ghost use Rattle.std.specs.Str.{IsUtf8, IsValidUpTo};
ghost use Rattle.pdata_tree.specs.declared.batch.Batch.{Batch};
ghost use Rattle.json_text.specs.Kinds.{Member, as_members};
ghost use Rattle.json_text.specs.Reading.{json_text};
ghost use Rattle.json_text.specs.declared.json.Json.{Json};
ghost use Rattle.otlp_json.specs.Limits.{most_containers};
ghost use Rattle.otlp_json.specs.Line.{line};
ghost use Rattle.otlp_json.specs.Payload.{payload};
ghost use Rattle.otlp_json.specs.WellFormed.{IsPayload, Within, size_of};
ghost use Rattle.otlp_json.specs.Reads.{wrong};
ghost use Rattle.otlp_json.specs.declared.error.PayloadKind.TheVariants.{BadUtf8, BadJson};

/// What is written is read again as the same payload.
pub fn lines_read_back()
    ensures { (batch : Batch) → IsPayload batch → payload (line batch) ≡ Ok batch }
{}

/// A line that is an object and ends in its brace, cut off anywhere, is refused at the cut.
pub fn cut_lines_are_refused()
    // Between two characters: at the length of the front.
    ensures between { (front rest : List ℕ) (value : Json) (members : List Member)
        → json_text (front ++ (rest ++ codes "}")) most_containers ≡ Ok value
        → as_members value ≡ Some members
        → IsUtf8 front → payload front ≡ wrong BadJson (length front) }

    // Within a character: at its first byte, where the longest front that is UTF-8 ends.
    ensures within { (front : List ℕ) (at : ℕ) → IsValidUpTo front at
        → payload front ≡ wrong BadUtf8 at }
{}

/// What is read has no more log records, elements and values than a payload may have.
pub fn payloads_are_within_limits()
    ensures { (line : List ℕ) (batch : Batch) → payload line ≡ Ok batch → Within (size_of batch) }
{}

//! Laws on what is read.

ghost use Rattle.std.specs.Prelude.{◌≡◌, ℕ, List, Ok};
ghost use Rattle.pdata_tree.specs.declared.batch.Batch.{Batch};
ghost use Rattle.json_text.specs.Placed.{placed};
ghost use Rattle.json_text.specs.Reading.{json_text};
ghost use Rattle.json_text.specs.Writing.{text_of};
ghost use Rattle.json_text.specs.declared.json.Json.{Json};
ghost use Rattle.otlp_json.specs.Line.{line};
ghost use Rattle.otlp_json.specs.Payload.{payload};
ghost use Rattle.otlp_json.specs.WellFormed.{IsPayload};
ghost use Rattle.payload_laws.specs.Writable.{IsWritable};

use json_text::{spelled_value_is_read, written_is_read};
use otlp_json::lines_read_back;

/// Each value of JSON that is read is one that can be written and read again.
pub fn read_json_can_be_written()
    ensures writable { (bytes : List ℕ) (depth : ℕ) (value : Json)
        → json_text bytes depth ≡ Ok value → IsWritable depth value }

    // It is read again as the same value, with the places of the new text.
    ensures again { (bytes : List ℕ) (depth : ℕ) (value : Json)
        → json_text bytes depth ≡ Ok value
        → json_text (text_of value) depth ≡ Ok (placed 0 value) }
{
    spelled_value_is_read();
    written_is_read();
}

/// Each payload that is read is one that can be written and read again.
pub fn read_payloads_can_be_written()
    ensures writable { (text : List ℕ) (batch : Batch)
        → payload text ≡ Ok batch → IsPayload batch }

    // It is read again as the same tree.
    ensures again { (text : List ℕ) (batch : Batch)
        → payload text ≡ Ok batch → payload (line batch) ≡ Ok batch }
{
    read_json_can_be_written();
    lines_read_back();
}

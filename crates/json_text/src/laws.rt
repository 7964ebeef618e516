//! Laws on reading and writing.

ghost use Rattle.std.specs.Prelude.{◌≡◌, ◌<◌, ◌≤◌, ℕ, suc, List, IsOk, Ok, Err};
ghost use Rattle.std.specs.List.{All};
ghost use Rattle.std.specs.Str.{IsUtf8};
ghost use Rattle.contract_words.specs.Fronts.{IsLongest};
ghost use Rattle.contract_words.specs.Grammar.{spells, viable};
ghost use Rattle.pdata_value.specs.Numeral.{IsNumeral};
ghost use Rattle.json_text.specs.Grammar.{json, IsJsonPrefix};
ghost use Rattle.json_text.specs.Placed.{containers, placed};
ghost use Rattle.json_text.specs.Reading.{json_text};
ghost use Rattle.json_text.specs.Spelling.{SpellsJson};
ghost use Rattle.json_text.specs.Writing.{numbers_of, texts_of, text_of};
ghost use Rattle.json_text.specs.declared.json.Json.{Json};
ghost use Rattle.json_text.specs.declared.error.JsonFault.TheVariants.{BadJson, TooDeep};

/// Reading is the grammar.
pub fn reading_is_the_grammar()
    // What is read is spelled so, and what is spelled so is read.
    ensures read_is_spelled { (bytes : List ℕ) (depth : ℕ) (value : Json)
        → json_text bytes depth ≡ Ok value → spells (json depth) bytes }
    ensures spelled_is_read { (bytes : List ℕ) (depth : ℕ) → IsUtf8 bytes
        → spells (json depth) bytes → IsOk (json_text bytes depth) }

    // BadJson stands at the end of the longest viable prefix, however deep that nests, and in each
    // grammar at least as deep.
    ensures bad_json { (bytes : List ℕ) (depth at : ℕ) → json_text bytes depth ≡ Err (BadJson at)
        → IsLongest IsJsonPrefix bytes at }
    ensures bad_json_at_each_depth { (bytes : List ℕ) (depth at deeper : ℕ)
        → json_text bytes depth ≡ Err (BadJson at) → depth ≤ deeper
        → IsLongest (viable (json deeper)) bytes at }

    // TooDeep stands there in the grammar as deep as allowed, and a deeper one goes on.
    ensures too_deep { (bytes : List ℕ) (depth at : ℕ) → json_text bytes depth ≡ Err (TooDeep at)
        → IsLongest (viable (json depth)) bytes at }
    ensures deeper_goes_on { (bytes : List ℕ) (depth at deeper : ℕ)
        → json_text bytes depth ≡ Err (TooDeep at) → depth < deeper
        → (count : ℕ) × (at < count) × IsLongest (viable (json deeper)) bytes count }
    ensures deeper_spells_more { (depth : ℕ) (text : List ℕ) → spells (json depth) text
        → spells (json (suc depth)) text }
{}

/// The value that is read is the one that the text spells, by the cases of the grammar.
pub fn spelled_value_is_read()
    ensures read_is_spelled { (bytes : List ℕ) (depth : ℕ) (value : Json)
        → json_text bytes depth ≡ Ok value → SpellsJson depth bytes value }
    ensures spelled_is_read { (bytes : List ℕ) (depth : ℕ) (value : Json)
        → IsUtf8 bytes → SpellsJson depth bytes value → json_text bytes depth ≡ Ok value }
{}

/// What is written is read again as the value written, with the places of the new text.
pub fn written_is_read()
    ensures { (value : Json) (depth : ℕ) → containers value ≤ depth
        → All IsNumeral (numbers_of value) → All IsUtf8 (texts_of value)
        → json_text (text_of value) depth ≡ Ok (placed 0 value) }
{}

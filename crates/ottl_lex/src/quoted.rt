//! Quoted texts and their contents.

ghost use Rattle.std.specs.Prelude.{◌≡◌, ◌+◌, ◌^◌, ◌<◌, ◌≤◌, ◌++◌, length, option_map, OnOk, IfSome, false};
ghost use Rattle.std.specs.List.{prefix_len};
ghost use Rattle.std.specs.String.{string_bytes};
ghost use Rattle.contract_words.specs.Gives.{Gives};
ghost use Rattle.ottl_lex.specs.Quoted.{closing, letter_escape, escape_at, is_plain, one_byte, one_character, between_quotes, unescaped, contents, text_of};
ghost use Rattle.ottl_lex.specs.Names.{fault_of};
ghost use Rattle.ottl_lex.specs.Escapes.{bytes_of, seen};

use crate::fault::{SyntaxKind, SyntaxStop, stop};
use crate::lexer::MAX_TEXT;
use crate::numbers::numeral;
use std::alloc::{AllocError, Global};

// How many bytes stand before the closing quote of a text, behind its first quote.
pub(crate) fn closing(text: &[u8]) -> Option<usize>
    ensures value { result ≡ closing false text.now }
    ensures within { IfSome result (λ count. count < length text.now) }
{
    let mut taken = false;
    for (count, byte) in text.iter().enumerate() {
        if *byte == b'\n' {
            return None;
        }
        if taken {
            taken = false;
        } else if *byte == b'"' {
            return Some(count);
        } else {
            taken = *byte == b'\\';
        }
    }
    None
}

// What an escape stands for.
#[derive(Clone, Copy)]
enum Meaning {
    Byte(u8),
    Character(char),
}

// An escape, and how many bytes it takes behind its backslash.
#[derive(Clone, Copy)]
struct Escape {
    meaning: Meaning,
    size: usize,
}

impl Escape {
    fn write_to(&self, bytes: &mut Vec<u8>) -> Result<(), AllocError>
        ensures { OnOk result (bytes.new.items ≡ bytes.old.items ++ bytes_of self.now.meaning) }
    {
        match self.meaning {
            Meaning::Byte(byte) => Ok(bytes.push(byte)?),
            Meaning::Character(character) => {
                let mut room = [0; 4];
                bytes.extend_from_slice(character.encode_utf8(&mut room).as_bytes())
            }
        }
    }
}

fn letter_escape(letter: u8) -> Option<u32>
    ensures { result ≡ letter_escape letter }
{
    match letter {
        b'a' => Some(7),
        b'b' => Some(8),
        b'f' => Some(12),
        b'n' => Some(10),
        b'r' => Some(13),
        b't' => Some(9),
        b'v' => Some(11),
        b'\\' => Some(92),
        b'"' => Some(34),
        _ => None,
    }
}

fn one_byte(size: usize, number: Option<u32>) -> Option<Escape>
    ensures { option_map seen result ≡ one_byte size number }
{
    let byte = u8::try_from(number?).ok()?;
    Some(Escape {
        meaning: Meaning::Byte(byte),
        size,
    })
}

fn one_character(size: usize, number: Option<u32>) -> Option<Escape>
    ensures { option_map seen result ≡ one_character size number }
{
    let character = char::from_u32(number?)?;
    Some(Escape {
        meaning: Meaning::Character(character),
        size,
    })
}

// The escape whose backslash stands before the text.
fn escape_at(text: &[u8]) -> Option<Escape>
    ensures value { option_map seen result ≡ escape_at text.now }
    ensures within { IfSome result (λ escape. escape.size ≤ length text.now) }
{
    let (first, rest) = text.split_first()?;
    match *first {
        b'x' => one_byte(3, numeral(rest, 16, 2)),
        b'u' => one_character(5, numeral(rest, 16, 4)),
        b'U' => one_character(9, numeral(rest, 16, 8)),
        b'0'..=b'7' => one_byte(3, numeral(text, 8, 3)),
        letter => one_byte(1, letter_escape(letter)),
    }
}

fn plain_len(text: &[u8]) -> usize
    ensures value { result ≡ prefix_len is_plain text.now }
    ensures within { result ≤ length text.now }
{
    text.iter().take_while(|byte| **byte != b'\\').count()
}

// The bytes that the text stands for whose first byte is at the place.
fn unescape(alloc: Global, text: &[u8], at: u32) -> Result<Vec<u8>, SyntaxStop>
    requires { at + length text.now < 2 ^ 32 }
    ensures { Gives (λ bytes. bytes.items) fault_of result (unescaped 0 at text.now) }
{
    let mut bytes = Vec::with_capacity(alloc, text.len())?;
    let mut place = at;
    let mut rest = text;
    'pieces: loop {
        let (plain, others) = rest.split_at(plain_len(rest));
        bytes.extend_from_slice(plain)?;
        place += plain.len() as u32;
        let Some((_, behind)) = others.split_first() else {
            return Ok(bytes);
        };
        let Some(escape) = escape_at(behind) else {
            return Err(stop(SyntaxKind::BadEscape, place));
        };
        escape.write_to(&mut bytes)?;
        let (_, after) = behind.split_at(escape.size);
        place += 1 + escape.size as u32;
        rest = after;
    }
}

fn between_quotes(quoted: &[u8]) -> &[u8]
    ensures value { result.now ≡ between_quotes quoted.now }
    ensures within { length result.now ≤ length quoted.now }
{
    match quoted {
        [_, inside @ .., _] => inside,
        _ => &[],
    }
}

// The contents of what stands between quotes, the first of which is at the place.
pub(crate) fn read_contents(alloc: Global, inside: &[u8], at: u32) -> Result<String, SyntaxStop>
    requires { at + 1 + length inside.now < 2 ^ 32 }
    ensures { Gives string_bytes fault_of result (contents at inside.now) }
{
    let bytes = unescape(alloc, inside, at + 1)?;
    match String::from_utf8(bytes) {
        Ok(text) => Ok(text),
        Err(_) => Err(stop(SyntaxKind::NotUtf8, at)),
    }
}

/// The contents of a text with its quotes, the first of which is at the place.
#[tactic(auto, unfolding(crate::specs::Quoted::text_of))]
pub fn read_text(alloc: Global, quoted: &[u8], at: u32) -> Result<String, SyntaxStop>
    requires { at + length quoted.now ≤ MAX_TEXT }
    ensures { Gives string_bytes fault_of result (text_of at quoted.now) }
{
    read_contents(alloc, between_quotes(quoted), at)
}

//! Tokens: slices of a text.

ghost use Rattle.std.specs.Prelude.{◌≡◌, ◌≤◌, length};
ghost use Rattle.ottl_lex.specs.Tokens.{slice_of, IsCut};
ghost use Rattle.ottl_lex.specs.Codes.{code_of, code_in, word_code, sign_code, pair_code};

use crate::codes;
use item_list::ItemList;

#[derive(Clone, Copy, Debug, PartialEq, Eq)]
pub enum TokenKind {
    /// A lower name.
    Lower,
    /// A keyword.
    Word,
    /// An upper name.
    Upper,
    /// A text with its quotes.
    Quoted,
    /// A whole number.
    Digits,
    /// A bytes literal with its `0x`.
    Hex,
    Sign,
}

/// The bytes of a text from `begin` up to `end`.
#[derive(Clone, Copy, Debug, PartialEq, Eq)]
pub struct Token {
    pub begin: u32,
    pub end: u32,
    pub kind: TokenKind,
}

pub type Tokens = ItemList<Token>;

impl Token {
    /// The bytes of the token in its text.
    pub fn slice<'a>(&self, text: &'a str) -> &'a [u8]
        requires order { self.now.begin ≤ self.now.end }
        requires within { self.now.end ≤ length text.now }
        ensures { result.now ≡ slice_of text.now self.now }
    {
        &text.as_bytes()[self.begin as usize..self.end as usize]
    }
    /// The token as a text.
    pub fn as_str<'a>(&self, text: &'a str) -> &'a str
        requires order { self.now.begin ≤ self.now.end }
        requires cut { IsCut text.now self.now }
        ensures { result.now ≡ slice_of text.now self.now }
    {
        &text[self.begin as usize..self.end as usize]
    }

    /// What the token is, as one code: its kind, and which keyword or which sign.
    pub fn code(&self, text: &str) -> u8
        requires order { self.now.begin ≤ self.now.end }
        requires within { self.now.end ≤ length text.now }
        ensures { result ≡ code_of text.now self.now }
    {
        code_in(self.kind, self.slice(text))
    }
}

fn code_in(kind: TokenKind, slice: &[u8]) -> u8
    ensures { result ≡ code_in kind slice.now }
{
    match kind {
        TokenKind::Lower => codes::LOWER,
        TokenKind::Word => word_code(slice),
        TokenKind::Upper => codes::UPPER,
        TokenKind::Quoted => codes::QUOTED,
        TokenKind::Digits => codes::DIGITS,
        TokenKind::Hex => codes::HEX,
        TokenKind::Sign => sign_code(slice),
    }
}

fn word_code(word: &[u8]) -> u8
    ensures { result ≡ word_code word.now }
{
    if word == b"where".as_slice() {
        codes::WHERE
    } else if word == b"and".as_slice() {
        codes::AND
    } else if word == b"or".as_slice() {
        codes::OR
    } else if word == b"not".as_slice() {
        codes::NOT
    } else if word == b"true".as_slice() {
        codes::TRUE
    } else if word == b"false".as_slice() {
        codes::FALSE
    } else {
        codes::NIL
    }
}

fn sign_code(sign: &[u8]) -> u8
    ensures { result ≡ sign_code sign.now }
{
    match sign {
        [byte] => *byte,
        [first, _, ..] => pair_code(*first),
        [] => codes::END,
    }
}

// Of a sign of two bytes.
fn pair_code(first: u8) -> u8
    ensures { result ≡ pair_code first }
{
    if first == b'=' {
        codes::EQUAL
    } else if first == b'!' {
        codes::UNEQUAL
    } else if first == b'<' {
        codes::AT_MOST
    } else {
        codes::AT_LEAST
    }
}

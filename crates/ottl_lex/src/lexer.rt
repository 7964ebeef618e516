//! The tokens of a text.

ghost use Rattle.std.specs.Prelude.{◌≡◌, ◌+◌, ◌-◌, ◌<◌, ◌≤◌, ◌==◌, length, All, IfOk, IsTrue, true, false};
ghost use Rattle.contract_words.specs.Gives.{Gives};
ghost use Rattle.ottl_lex.specs.Names.{fault_of};
ghost use Rattle.ottl_lex.specs.Quoted.{closing};
ghost use Rattle.ottl_lex.specs.Tokens.{is_blank, lower_at, is_keyword, number_at, hex_at, hex_first, digits_before, digit_first, quoted_at, sign_at, is_sign, before_equals, equals_first, token, token_at, tokens_of, IsWithin, IsCut};

use crate::fault::{SyntaxFault, SyntaxKind, SyntaxStop, stop};
use crate::lengths::{digits_len, hex_len, lower_len, upper_len};
use crate::quoted::{closing, read_contents};
use crate::token::{Token, TokenKind, Tokens};
use std::alloc::Global;

/// How many bytes the text of a statement or a condition may have.
pub const MAX_TEXT: usize = 1_048_576;

/// The tokens of a text, or its first fault.
#[tactic(auto, unfolding(crate::specs::Tokens::tokens_of))]
pub fn lex(alloc: Global, text: &str) -> Result<Tokens, SyntaxStop>
    requires { length text.now ≤ MAX_TEXT }
    ensures value { Gives (λ tokens. tokens) fault_of result (tokens_of text.now) }
    ensures within { IfOk result (All (IsWithin text.now)) }
    ensures cut { IfOk result (All (IsCut text.now)) }
{
    let mut tokens = Tokens::new(alloc);
    let mut at: u32 = 0;
    let mut rest = text.as_bytes();
    'tokens: while let [first, others @ ..] = rest {
        if is_blank(*first) {
            at += 1;
            rest = others;
            continue;
        }
        let token = token_at(alloc, rest, at)?;
        let (_, behind) = rest.split_at((token.end - at) as usize);
        tokens.push(token)?;
        at = token.end;
        rest = behind;
    }
    Ok(tokens)
}

fn is_blank(byte: u8) -> bool
    ensures { result ≡ is_blank byte }
{
    matches!(byte, b' ' | b'\t' | b'\n' | b'\r')
}

// The token at the text's first byte, which is at the place.
fn token_at(alloc: Global, text: &[u8], at: u32) -> Result<Token, SyntaxStop>
    requires { at + length text.now ≤ MAX_TEXT }
    ensures value { Gives (λ token. token) fault_of result (token_at at text.now) }
    ensures within { IfOk result
        (λ token. (token.begin ≡ at) × (at < token.end) × (token.end ≤ at + length text.now)) }
{
    let Some((first, rest)) = text.split_first() else {
        return Err(stop(SyntaxKind::BadChar, at));
    };
    match *first {
        b'a'..=b'z' => Ok(lower_at(text, at)),
        b'A'..=b'Z' => Ok(token(TokenKind::Upper, at, upper_len(text))),
        b'0'..=b'9' => Ok(number_at(text, at)?),
        b'"' => quoted_at(alloc, rest, at),
        first => Ok(sign_at(first, rest, at)?),
    }
}

fn token(kind: TokenKind, at: u32, size: usize) -> Token
    requires { at + size ≤ MAX_TEXT }
    ensures { result ≡ token kind at size }
{
    Token {
        begin: at,
        end: at + size as u32,
        kind,
    }
}

// A lower name or a keyword.
fn lower_at(text: &[u8], at: u32) -> Token
    requires { at + length text.now ≤ MAX_TEXT }
    ensures { result ≡ lower_at at text.now }
{
    let size = lower_len(text);
    let kind = if is_keyword(&text[..size]) {
        TokenKind::Word
    } else {
        TokenKind::Lower
    };
    token(kind, at, size)
}

fn is_keyword(name: &[u8]) -> bool
    ensures { result ≡ is_keyword name.now }
{
    name == b"where".as_slice()
        || name == b"and".as_slice()
        || name == b"or".as_slice()
        || name == b"not".as_slice()
        || name == b"true".as_slice()
        || name == b"false".as_slice()
        || name == b"nil".as_slice()
}

// A whole number or a bytes literal.
fn number_at(text: &[u8], at: u32) -> Result<Token, SyntaxFault>
    requires { at + length text.now ≤ MAX_TEXT }
    ensures value { result ≡ number_at at text.now }
    ensures within { IfOk result
        (λ token. (token.begin ≡ at) × (token.end ≤ at + length text.now)) }
    ensures some { digit_first text.now ≡ true → IfOk result (λ token. at < token.end) }
{
    if hex_first(text) {
        return hex_at(at, hex_len(&text[2..]));
    }
    let (digits, behind) = text.split_at(digits_len(text));
    digits_before(at, digits.len(), behind)
}

fn hex_first(text: &[u8]) -> bool
    ensures value { result ≡ hex_first text.now }
    ensures within { IsTrue result → 2 ≤ length text.now }
{
    matches!(text, [b'0', b'x', ..])
}

// A bytes literal of so many digits.
fn hex_at(at: u32, count: usize) -> Result<Token, SyntaxFault>
    requires { at + 2 + count ≤ MAX_TEXT }
    ensures value { result ≡ hex_at at count }
    ensures end { IfOk result (λ token. (token.begin ≡ at) × (token.end ≡ at + 2 + count)) }
{
    if 0 < count && count % 2 == 0 {
        Ok(token(TokenKind::Hex, at, 2 + count))
    } else {
        Err(SyntaxFault {
            kind: SyntaxKind::BadNumber,
            at,
        })
    }
}

// A whole number of so many digits.
fn digits_before(at: u32, count: usize, behind: &[u8]) -> Result<Token, SyntaxFault>
    requires { at + count ≤ MAX_TEXT }
    ensures value { result ≡ digits_before at count behind.now }
    ensures end { IfOk result (λ token. (token.begin ≡ at) × (token.end ≡ at + count)) }
{
    match behind {
        [b'a'..=b'z' | b'A'..=b'Z' | b'_', ..] => Err(SyntaxFault {
            kind: SyntaxKind::BadNumber,
            at,
        }),
        [b'.', b'0'..=b'9', ..] => Err(SyntaxFault {
            kind: SyntaxKind::Fraction,
            at,
        }),
        _ => Ok(token(TokenKind::Digits, at, count)),
    }
}

// A text, whose first quote is at the place and before `rest`.
fn quoted_at(alloc: Global, rest: &[u8], at: u32) -> Result<Token, SyntaxStop>
    requires { at + 1 + length rest.now ≤ MAX_TEXT }
    ensures value { Gives (λ token. token) fault_of result
        (quoted_at at (closing false rest.now) rest.now) }
    ensures within { IfOk result
        (λ token. (token.begin ≡ at) × (at < token.end) × (token.end ≤ at + 1 + length rest.now)) }
{
    let Some(count) = closing(rest) else {
        return Err(stop(SyntaxKind::OpenText, at));
    };
    let (inside, _) = rest.split_at(count);
    read_contents(alloc, inside, at)?;
    Ok(token(TokenKind::Quoted, at, 2 + count))
}

// A sign, whose first byte is at the place and before `rest`.
fn sign_at(first: u8, rest: &[u8], at: u32) -> Result<Token, SyntaxFault>
    requires { at + 1 + length rest.now ≤ MAX_TEXT }
    ensures value { result ≡ sign_at at first rest.now }
    ensures within { IfOk result
        (λ token. (token.begin ≡ at) × (at < token.end) × (token.end ≤ at + 1 + length rest.now)) }
{
    if before_equals(first) && equals_first(rest) {
        Ok(token(TokenKind::Sign, at, 2))
    } else if is_sign(first) {
        Ok(token(TokenKind::Sign, at, 1))
    } else {
        Err(SyntaxFault {
            kind: SyntaxKind::BadChar,
            at,
        })
    }
}

fn before_equals(byte: u8) -> bool
    ensures { result ≡ before_equals byte }
{
    matches!(byte, b'=' | b'!' | b'<' | b'>')
}

fn equals_first(text: &[u8]) -> bool
    ensures value { result ≡ equals_first text.now }
    ensures within { IsTrue result → 0 < length text.now }
{
    matches!(text, [b'=', ..])
}

fn is_sign(byte: u8) -> bool
    ensures { result ≡ is_sign byte }
{
    matches!(
        byte,
        b'(' | b')'
            | b'['
            | b']'
            | b'{'
            | b'}'
            | b','
            | b'.'
            | b':'
            | b'<'
            | b'>'
            | b'+'
            | b'-'
            | b'*'
            | b'/'
    )
}

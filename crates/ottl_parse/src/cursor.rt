//! A place among the tokens of a text, and steps from it.

ghost use Rattle.std.specs.Prelude.{◌≡◌, ◌+◌, ◌<◌, ◌≤◌, length, Some, OnOk, IfOk, All};
ghost use Rattle.contract_words.specs.Gives.{Gives};
ghost use Rattle.ottl_lex.specs.Tokens.{IsWithin, IsCut};
ghost use Rattle.ottl_lex.specs.Quoted.{fault};
ghost use Rattle.ottl_parse.specs.Place.{head_of, head, place, slice, past};
ghost use Rattle.ottl_parse.specs.Reading.{this, inside_of};
ghost use Rattle.ottl_parse.specs.Parsing.{at_end};

use ottl_lex::{MAX_TEXT, SyntaxFault, SyntaxKind, Token, codes};
use std::marker::Model;

/// A text, the tokens of it that are left, and the code of the first of them.
#[derive(Drop)]
pub(crate) struct Cursor<'a> {
    text: &'a str,
    tokens: &'a [Token],
    next: u8,
}

impl<'a> Model for Cursor<'a> {
    ghost use Rattle.std.specs.Prelude.{◌≡◌, ◌≤◌, length, All};
    ghost use Rattle.ottl_lex.specs.Tokens.{IsWithin, IsCut};
    ghost use Rattle.ottl_parse.specs.Place.{Rest, head_of};

    ghost Value = { Rest };

    ghost view = { λ c. record { text = c.text.now; left = c.tokens.now } };

    ghost invariant = { λ c. (length c.text.now ≤ 1048576) × All (IsWithin c.text.now) c.tokens.now
        × All (IsCut c.text.now) c.tokens.now × (c.next ≡ head_of c.text.now c.tokens.now) };
}

// The code of the first token.
fn code_of_first(text: &str, tokens: &[Token]) -> u8
    requires { All (IsWithin text.now) tokens.now }
    ensures { result ≡ head_of text.now tokens.now }
{
    match tokens {
        [first, ..] => first.code(text),
        [] => codes::END,
    }
}

impl<'a> Cursor<'a> {
    pub(crate) fn new(text: &'a str, tokens: &'a [Token]) -> Cursor<'a>
        requires size { length text.now ≤ MAX_TEXT }
        requires within { All (IsWithin text.now) tokens.now }
        requires cut { All (IsCut text.now) tokens.now }
        ensures { result ≡ record { text = text.now; left = tokens.now } }
    {
        Cursor {
            text,
            tokens,
            next: code_of_first(text, tokens),
        }
    }

    /// The place of the next token, or of the end.
    pub(crate) fn at(&self) -> u32
        ensures value { result ≡ place self.now }
    {
        match self.tokens {
            [first, ..] => first.begin,
            [] => self.text.len() as u32,
        }
    }

    /// The code of the next token.
    pub(crate) fn peek(&self) -> u8
        ensures { result ≡ head self.now }
    {
        self.next
    }

    /// The bytes of the next token.
    pub(crate) fn slice(&self) -> &'a [u8]
        ensures value { result.now ≡ slice self.now }
        ensures within { place self.now + length result.now ≤ MAX_TEXT }
    {
        match self.tokens {
            [first, ..] => first.slice(self.text),
            [] => &[],
        }
    }

    /// The next token as a text.
    pub(crate) fn name(&self) -> &'a str
        ensures { result.now ≡ slice self.now }
    {
        match self.tokens {
            [first, ..] => first.as_str(self.text),
            [] => "",
        }
    }

    /// Passes the next token.
    pub(crate) fn step(&mut self)
        requires { 0 < head self.old }
        ensures moved { self.new ≡ past self.old }
        ensures shorter { length self.new.left < length self.old.left }
    {
        self.tokens = &self.tokens[1..];
        self.next = code_of_first(self.text, self.tokens);
    }

    /// Passes this token, or says that it isn't next.
    pub(crate) fn expect(&mut self, wanted: u8) -> Result<(), SyntaxFault>
        requires { 0 < wanted }
        ensures gives { Gives (λ _. self.new) Some result (this wanted self.old) }
        ensures shorter { OnOk result (length self.new.left < length self.old.left) }
    {
        if self.next != wanted {
            return Err(self.fault(SyntaxKind::Unexpected));
        }
        self.step();
        Ok(())
    }

    /// Passes the token that opens a construct where so many more may be opened, and answers how
    /// many more may be opened inside.
    pub(crate) fn open_one(&mut self, room: u32) -> Result<u32, SyntaxFault>
        requires { 0 < head self.old }
        ensures gives { Gives (λ _. self.new) Some result ((inside_of room).opening self.old) }
        ensures less { IfOk result (λ left. left + 1 ≡ room) }
        ensures shorter { OnOk result (length self.new.left < length self.old.left) }
    {
        if room == 0 {
            return Err(self.fault(SyntaxKind::TooDeep));
        }
        self.step();
        Ok(room - 1)
    }

    /// Nothing is left, or a fault.
    pub(crate) fn end(&self) -> Result<(), SyntaxFault>
        ensures { result ≡ at_end self.now }
    {
        match self.tokens {
            [] => Ok(()),
            [_, ..] => Err(self.fault(SyntaxKind::Unexpected)),
        }
    }

    /// A fault at the next token.
    pub(crate) fn fault(&self, kind: SyntaxKind) -> SyntaxFault
        ensures { result ≡ fault kind (place self.now) }
    {
        SyntaxFault {
            kind,
            at: self.at(),
        }
    }
}

//! A place in a text, and steps from it.

ghost use Rattle.std.specs.Prelude.{◌≡◌, ◌==◌, ◌<◌, ◌≤◌, length, take, OnOk};
ghost use Rattle.std.specs.List.{prefix_len};
ghost use Rattle.std.specs.Str.{IsCharBoundary};
ghost use Rattle.contract_words.specs.Gives.{Gives};
ghost use Rattle.pdata_value.specs.Numeral.{is_digit};
ghost use Rattle.json_text.specs.Place.{head, past, behind, blanks};
ghost use Rattle.json_text.specs.Reading.{this, fault_of, is_plain};

use crate::error::JsonFault;
use crate::scan::{blank_len, digit_len, plain_len};
use std::marker::Model;

/// How many bytes are behind it, and the text that is left.
#[derive(Drop)]
pub struct Cursor<'a> {
    place: u32,
    rest: &'a str,
}

impl<'a> Model for Cursor<'a> {
    ghost use Rattle.std.specs.Prelude.{◌+◌, ◌^◌, ◌<◌, length};
    ghost use Rattle.json_text.specs.Place.{Rest};

    ghost Value = { Rest };

    ghost view = { λ c. record { at = c.place; left = c.rest.now } };

    ghost invariant = { λ c. c.place + length c.rest.now < 2 ^ 32 };
}

impl<'a> Cursor<'a> {
    pub fn new(text: &'a str) -> Cursor<'a>
        requires { length text.now ≤ 16777216 }
        ensures { result ≡ record { at = 0; left = text.now } }
    {
        Cursor {
            place: 0,
            rest: text,
        }
    }

    pub fn at(&self) -> u32
        ensures { result ≡ self.now.at }
    {
        self.place
    }

    /// The text that is left.
    pub(crate) fn rest(&self) -> &'a str
        ensures { result.now ≡ self.now.left }
    {
        self.rest
    }

    pub fn is_at_end(&self) -> bool
        ensures { result ≡ (length self.now.left == 0) }
    {
        self.rest.is_empty()
    }

    /// The next byte, and 0 at the end.
    #[inline(always)]
    pub fn peek(&self) -> u8
        ensures { result ≡ head self.now }
    {
        match self.rest.as_bytes() {
            [first, ..] => *first,
            [] => 0,
        }
    }

    /// Passes bytes.
    #[inline(always)]
    fn pass(&mut self, count: usize)
        requires { IsCharBoundary self.old.left count }
        ensures moved { self.new ≡ past count self.old }
        ensures no_longer { length self.new.left ≤ length self.old.left }
    {
        let place = self.place;
        self.place = place + count as u32;
        self.rest = &self.rest[count..];
    }

    /// Passes the next byte.
    #[inline(always)]
    pub fn step(&mut self)
        requires some { 0 < head self.old }
        requires ascii { head self.old < 128 }
        ensures moved { self.new ≡ past 1 self.old }
        ensures shorter { length self.new.left < length self.old.left }
    {
        self.place += 1;
        self.rest = &self.rest[1..];
    }

    #[inline(always)]
    pub fn skip_blanks(&mut self)
        ensures moved { self.new ≡ blanks self.old }
        ensures no_longer { length self.new.left ≤ length self.old.left }
    {
        let count = blank_len(self.rest.as_bytes());
        self.pass(count);
    }

    #[inline(always)]
    pub(crate) fn skip_digits(&mut self)
        ensures moved { self.new ≡ behind is_digit self.old }
        ensures no_longer { length self.new.left ≤ length self.old.left }
    {
        let count = digit_len(self.rest.as_bytes());
        self.pass(count);
    }

    /// The bytes that stand for themselves, up to one that doesn't.
    #[inline(always)]
    pub fn plain_run(&mut self) -> &'a str
        ensures run { result.now ≡ take (prefix_len is_plain self.old.left) self.old.left }
        ensures moved { self.new ≡ behind is_plain self.old }
        ensures no_longer { length self.new.left ≤ length self.old.left }
    {
        let count = plain_len(self.rest.as_bytes());
        let run = &self.rest[..count];
        self.pass(count);
        run
    }

    /// Passes this byte, or says that it isn't next.
    #[inline(always)]
    pub fn expect(&mut self, wanted: u8) -> Result<(), JsonFault>
        requires some { 0 < wanted }
        requires ascii { wanted < 128 }
        ensures gives { Gives (λ _. self.new) fault_of result (this wanted self.old) }
        ensures shorter { OnOk result (length self.new.left < length self.old.left) }
    {
        if self.peek() != wanted {
            return Err(JsonFault::BadJson(self.place));
        }
        self.step();
        Ok(())
    }
}

//! How far bytes of a kind go.

ghost use Rattle.std.specs.Prelude.{◌≡◌, ◌+◌, ◌≤◌, length, map};
ghost use Rattle.std.specs.List.{prefix_len};
ghost use Rattle.std.specs.Simd.Lanes.{mask_l, chunk};
ghost use Rattle.pdata_value.specs.Numeral as numeral;
ghost use Rattle.json_text.specs.Place.{is_blank};
ghost use Rattle.json_text.specs.Reading.{is_plain};
ghost use Rattle.json_text.specs.Marks.{is_marked};

use std::simd::prelude::*;

#[inline(always)]
pub(crate) fn blank_len(bytes: &[u8]) -> usize
    ensures value { result ≡ prefix_len is_blank bytes.now }
    ensures within { result ≤ length bytes.now }
{
    let mut count = 0;
    while count < bytes.len() && is_blank_byte(bytes[count]) {
        count += 1;
    }
    count
}

#[inline(always)]
fn is_blank_byte(byte: u8) -> bool
    ensures { result ≡ is_blank byte }
{
    byte == b' ' || byte == b'\t' || byte == b'\n' || byte == b'\r'
}

#[inline(always)]
pub(crate) fn digit_len(bytes: &[u8]) -> usize
    ensures value { result ≡ prefix_len numeral.is_digit bytes.now }
    ensures within { result ≤ length bytes.now }
{
    let mut count = 0;
    while count < bytes.len() && is_digit(bytes[count]) {
        count += 1;
    }
    count
}

#[inline(always)]
pub(crate) fn is_digit(byte: u8) -> bool
    ensures { result ≡ numeral.is_digit byte }
{
    b'0' <= byte && byte <= b'9'
}

// Bit k is set where the byte k places on doesn't stand for itself.
#[inline(always)]
fn marks(bytes: &[u8], at: usize) -> u64
    requires { at + 16 ≤ length bytes.now }
    ensures { result ≡ mask_l (map is_marked (chunk at 16 bytes.now)) }
{
    let lanes = u8x16::from_slice(&bytes[at..]);
    let quote = lanes.simd_eq(u8x16::splat(b'"')).to_bitmask();
    let slash = lanes.simd_eq(u8x16::splat(b'\\')).to_bitmask();
    let control = lanes.simd_lt(u8x16::splat(b' ')).to_bitmask();
    quote | slash | control
}

#[inline(always)]
pub(crate) fn plain_len(bytes: &[u8]) -> usize
    ensures value { result ≡ prefix_len is_plain bytes.now }
    ensures within { result ≤ length bytes.now }
{
    let mut at = 0;
    while 16 <= bytes.len() - at {
        let marks = marks(bytes, at);
        if marks != 0 {
            return at + marks.trailing_zeros() as usize;
        }
        at += 16;
    }
    while at < bytes.len() && is_plain_byte(bytes[at]) {
        at += 1;
    }
    at
}

#[inline(always)]
fn is_plain_byte(byte: u8) -> bool
    ensures { result ≡ is_plain byte }
{
    byte >= b' ' && byte != b'"' && byte != b'\\'
}

ghost use Rattle.std.specs.Prelude.{◌≡◌, ◌<◌, ◌==◌, length, position, IfSome};
ghost use Rattle.cert_text.specs.LineReading.{IsParted, item_read, factor_read, head_read, split_read, share_read, bare_read, worded_read, line_read, number_read, NextIs, parted};

use il_core::{Item, Name, Share};
use itoa::Buffer;
use std::str;

/// The greatest number of a literal, a place or a threat.
const NUMBER_LIMIT: u32 = 16_384_000;

/// The greatest factor of a share.
const FACTOR_LIMIT: u32 = 65_536;

/// A line of certificates.
#[derive(Clone, Copy)]
pub enum Line {
    /// A certificate for this threat of this procedure begins.
    Head(Name, usize),
    /// The literal at this position is split; the certificates of its two sides follow.
    Split(usize),
    /// A sum begins.
    Sum,
    /// A share of a sum.
    Share(Share),
    /// A sum ends.
    End,
}

/// The place of the first such byte.
fn place_of(text: &[u8], end: u8) -> Option<usize>
    ensures place { result ≡ position (λ b. b == end) text.now }
    ensures within { IfSome result (λ place. place < length text.now) }
{
    text.iter().position(|byte| *byte == end)
}

/// What stands before the first such byte, and what stands behind it.
fn parted(text: &[u8], end: u8) -> Option<(&[u8], &[u8])>
    ensures { IsParted result (parted end text.now) }
{
    match place_of(text, end) {
        Some(place) => Some((&text[..place], &text[place + 1..])),
        None => None,
    }
}

/// The number up to a greatest one that these digits spell, without leading zeros.
fn number(digits: &[u8], most: u32) -> Option<u32>
    ensures { result ≡ number_read most digits.now }
{
    let text = match str::from_utf8(digits) {
        Ok(text) => text,
        Err(_) => return None,
    };
    let number: u32 = match text.parse() {
        Ok(number) => number,
        Err(_) => return None,
    };
    let mut buffer = Buffer::new();
    if number <= most && buffer.format(number) == text {
        Some(number)
    } else {
        None
    }
}

/// How often a share is taken.
fn factor(digits: &[u8]) -> Option<u32>
    ensures { result ≡ factor_read digits.now }
{
    let times = number(digits, FACTOR_LIMIT)?;
    if times == 0 { None } else { Some(times) }
}

/// The item with this word.
#[tactic(auto, unfolding(crate::specs::LineReading::item_read))]
fn item_of(word: &[u8], index: usize) -> Option<Item>
    ensures { result ≡ item_read word.now index }
{
    if word == b"UP".as_slice() {
        Some(Item::Up(index))
    } else if word == b"DOWN".as_slice() {
        Some(Item::Down(index))
    } else if word == b"NEVER".as_slice() {
        Some(Item::Never(index))
    } else if word == b"LOW".as_slice() {
        Some(Item::Low(index))
    } else if word == b"HIGH".as_slice() {
        Some(Item::High(index))
    } else if word == b"OLDUP".as_slice() {
        Some(Item::OldUp(index))
    } else if word == b"OLDDOWN".as_slice() {
        Some(Item::OldDown(index))
    } else {
        None
    }
}

/// The line of a certificate's procedure and threat, behind its first word.
fn head_line(rest: &[u8]) -> Option<Line>
    ensures { result ≡ head_read rest.now }
{
    let (name, threat) = parted(rest, b' ')?;
    let name = Name::new(name)?;
    let threat = number(threat, NUMBER_LIMIT)?;
    Some(Line::Head(name, threat as usize))
}

/// The line of a split, behind its first word.
fn split_line(rest: &[u8]) -> Option<Line>
    ensures { result ≡ split_read rest.now }
{
    let literal = number(rest, NUMBER_LIMIT)?;
    Some(Line::Split(literal as usize))
}

/// The line of a share with this first word.
fn share_line(word: &[u8], rest: &[u8]) -> Option<Line>
    ensures { result ≡ share_read word.now rest.now }
{
    let (index, times) = parted(rest, b' ')?;
    let index = number(index, NUMBER_LIMIT)?;
    let item = item_of(word, index as usize)?;
    let times = factor(times)?;
    Some(Line::Share(Share { item, times }))
}

/// The line that is one word.
fn bare_line(word: &[u8]) -> Option<Line>
    ensures { result ≡ bare_read word.now }
{
    if word == b"SUM".as_slice() {
        Some(Line::Sum)
    } else if word == b"END".as_slice() {
        Some(Line::End)
    } else {
        None
    }
}

/// The line of several words of which this is the first.
fn worded_line(word: &[u8], rest: &[u8]) -> Option<Line>
    ensures { result ≡ worded_read word.now rest.now }
{
    if word == b"CERT".as_slice() {
        head_line(rest)
    } else if word == b"SPLIT".as_slice() {
        split_line(rest)
    } else {
        share_line(word, rest)
    }
}

/// The line that the bytes spell.
fn spelt_line(text: &[u8]) -> Option<Line>
    ensures { result ≡ line_read text.now }
{
    match parted(text, b' ') {
        Some((word, rest)) => worded_line(word, rest),
        None => bare_line(text),
    }
}

/// The line at the front, and what stands behind its newline.
pub(crate) fn next_line(text: &[u8]) -> Option<(Line, &[u8])>
    ensures { NextIs text.now result }
{
    match parted(text, b'\n') {
        Some((front, rest)) => match spelt_line(front) {
            Some(line) => Some((line, rest)),
            None => None,
        },
        None => None,
    }
}

#![tactic(auto)]

ghost use Rattle.fields.specs.Fields.{Finds, BeforeFeed, LineIs, Readable, FrontIs, FieldIs, NumberIs, SignedIs, CountAfter};
ghost use Rattle.std.specs.Prelude.{◌^◌, ◌<◌};

use sheet::{BLANK, FEED, MINUS};

// A number, a field or a heading's count at the front of a text, and the bytes that it takes.
#[derive(Clone, Copy)]
pub struct Front {
    pub value: usize,
    pub taken: usize,
}

// The bytes before the first line feed; all of them where there is none. Rules out a later line feed taken for the first.
// Tried: with the Option of `position` handed on as `line_end`'s answer, read_sheet takes 1.2 of the instructions, 1.04 of the time.
fn before_feed(s: &[u8]) -> usize
    ensures { BeforeFeed s.now result }
{
    s.iter().position(|b| *b == FEED).unwrap_or(s.len())
}

// The bytes of the first line of s, which its line feed ends. Rules out a line that is not ended.
pub fn line_end(s: &[u8]) -> Option<usize>
    ensures { Finds (LineIs s.now) result }
{
    let end = before_feed(s);
    if end == s.len() {
        return None;
    }
    Some(end)
}

// The number at the front of s, up to the first byte that is no digit: none if it has a leading zero or is above the limit.
// Rules out a number cut short, and none where a number stands. That the limit is `Readable` stays a clause, here and below: each limit
// is one number that a caller knows, and a type around it would be made for each call.
fn front_number(s: &[u8], limit: usize) -> Option<Front>
    requires { Readable limit }
    ensures { Finds (FrontIs s.now limit) result }
{
    // Tried: with the end of the digits found by `position` and then their value, read_sheet takes 1.15 of the time.
    let mut value: usize = 0;
    let mut taken: usize = 0;
    for b in s {
        if !b.is_ascii_digit() {
            break;
        }
        if taken == 1 && value == 0 {
            return None;
        }
        value = value * 10 + usize::from(*b - b'0');
        if limit < value {
            return None;
        }
        taken += 1;
    }
    if taken == 0 {
        return None;
    }
    Some(Front { value, taken })
}

// The number from 1 to the limit that is the first field of s, with the blank after it. Rules out 0, and a number with another byte
// behind it.
pub fn number_field(s: &[u8], limit: usize) -> Option<Front>
    requires { Readable limit }
    ensures { Finds (FieldIs s.now limit) result }
{
    let Front { value, taken } = front_number(s, limit)?;
    if value == 0 || s.get(taken) != Some(&BLANK) {
        return None;
    }
    Some(Front {
        value,
        taken: taken + 1,
    })
}

// The number that s is. Rules out bytes behind the number.
fn unsigned_number(s: &[u8], limit: usize) -> Option<usize>
    requires { Readable limit }
    ensures { Finds (NumberIs s.now limit) result }
{
    let Front { value, taken } = front_number(s, limit)?;
    if taken < s.len() {
        return None;
    }
    Some(value)
}

// The number that s is, which may be below 0. Rules out a minus before 0, and a number further than the limit from 0.
pub fn signed_number(s: &[u8], limit: usize) -> Option<i16>
    requires { limit < 2 ^ 15 }
    ensures { Finds (SignedIs s.now limit) result }
{
    if let Some(digits) = s.strip_prefix(&[MINUS]) {
        let size = unsigned_number(digits, limit)?;
        if size == 0 {
            return None;
        }
        return Some(-(size as i16));
    }
    Some(unsigned_number(s, limit)? as i16)
}

// The count after these bytes: it takes the rest of the line and lies within the bounds. Rules out a line that does not begin with all
// of these bytes, and a count outside the bounds.
pub fn count_after(line: &[u8], head: &[u8], low: usize, high: usize) -> Option<usize>
    requires { Readable high }
    ensures { Finds (CountAfter line.now head.now low high) result }
{
    let count = unsigned_number(line.strip_prefix(head)?, high)?;
    if count < low {
        return None;
    }
    Some(count)
}

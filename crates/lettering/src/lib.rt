#![tactic(auto)]

ghost use Rattle.std.specs.Prelude.{◌≡◌, [], ◌∷◌, ◌++◌, ◌≤◌, length};
ghost use Rattle.sheet.specs.Text.{text, signed, ended};
ghost use Rattle.lettering.specs.Putting.{Puts};

use sheet::{FEED, MINUS};

// The digits of a number. Rules out another count than that of the number's text.
pub fn digits(v: usize) -> usize
    ensures { result ≡ length (text v) }
{
    v.checked_ilog10().unwrap_or(0) as usize + 1
}

// A number at the front of the room; its length. Rules out a leading zero, another digit, and a byte changed behind the number.
// It calls itself: the digits come from the last to the first, and a loop that fills the room from behind is no plainer.
pub fn put_number(v: usize, out: &mut [u8]) -> usize
    requires { length (text v) ≤ length out.old }
    ensures { Puts (text v) out.old out.new result }
{
    if v < 10 {
        out[0] = b'0' + v as u8;
        return 1;
    }
    let k = put_number(v / 10, out);
    out[k] = b'0' + (v % 10) as u8;
    k + 1
}

// Bytes at the front of the room; their number. Rules out a byte left out, and one changed behind them.
// No `copy_from_slice`: where the compiler cannot see that text and room lie apart, that calls memmove, and of the C library only memcpy
// and memset are called.
pub fn put(text: &[u8], out: &mut [u8]) -> usize
    requires { length text.now ≤ length out.old }
    ensures { Puts text.now out.old out.new result }
{
    for i in 0..text.len() {
        out[i] = text[i];
    }
    text.len()
}

// A number and one byte behind it. Rules out another byte there, and one changed behind it.
pub fn put_count(v: usize, last: u8, out: &mut [u8]) -> usize
    requires { length (text v ++ last ∷ []) ≤ length out.old }
    ensures { Puts (text v ++ last ∷ []) out.old out.new result }
{
    let k = put_number(v, out);
    out[k] = last;
    k + 1
}

// A heading line in the room. Rules out a heading without its count or its line feed.
pub fn put_heading(head: &[u8], count: usize, out: &mut [u8]) -> usize
    requires { length (ended (head.now ++ text count)) ≤ length out.old }
    ensures { Puts (ended (head.now ++ text count)) out.old out.new result }
{
    let a = put(head, out);
    let b = put_count(count, FEED, &mut out[a..]);
    a + b
}

// A signed number in the room. Rules out a minus before 0 and one left out.
pub fn put_value(v: i32, out: &mut [u8]) -> usize
    requires { length (signed v) ≤ length out.old }
    ensures { Puts (signed v) out.old out.new result }
{
    let size = v.unsigned_abs() as usize;
    if v < 0 {
        out[0] = MINUS;
        return 1 + put_number(size, &mut out[1..]);
    }
    put_number(size, out)
}

// A signed number and a line feed. Rules out a line that is not ended.
pub fn put_value_line(v: i32, out: &mut [u8]) -> usize
    requires { length (ended (signed v)) ≤ length out.old }
    ensures { Puts (ended (signed v)) out.old out.new result }
{
    let k = put_value(v, out);
    out[k] = FEED;
    k + 1
}

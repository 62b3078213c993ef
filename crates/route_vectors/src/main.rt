// Runs the vectors on standard input through the five public calls of `canon`, and prints each answer with what the lent slices then
// hold. The text: how many vectors there are; then for each a line with its title, which is printed as it stands, and a line of
// numbers parted by one blank: the call (1 to 3 the routes, 4 the yes-or-no, 5 the heads of columns), N, and five lists, each its
// length and then its values: the table (`-` alone is absent), what is given, and what the lent additions, stars and heads, or
// rows, counts and heads, hold at the call.
#![tactic(auto)]

ghost use Rattle.std.specs.Prelude.{◌≤◌};

use canon::{column_heads, from_canon, from_stars, is_simplest, solve};
use orders::ABSENT;
use std::fmt::{self, Display};
use std::io;
use streams::read_input;

// Room for the table and for each list: a row and a column more than the limit and one.
const PLACES: usize = 1156;

const LISTED: usize = 34;

const TEXT: usize = 524288;

// One number of the text: whether a minus stands before it, and its size.
#[derive(Clone, Copy)]
struct Number {
    negative: bool,
    size: u64,
}

impl Number {
    // The number as an order. One that is too large is absent, and so is a minus with no size behind it. No `TryFrom` of a signed number:
    // of what is too large the sign does not count, here and in `head`.
    fn order(self) -> i16 {
        match i16::try_from(self.size) {
            Ok(0) if self.negative => ABSENT,
            Ok(size) if self.negative => -size,
            Ok(size) => size,
            Err(_) => ABSENT,
        }
    }

    // The number as an addition or a star, with no sign; one that is too large becomes the largest.
    fn addition(self) -> u32 {
        u32::try_from(self.size).unwrap_or(u32::MAX)
    }

    // The number as a head, in the same way, with its sign.
    fn head(self) -> i32 {
        match i32::try_from(self.size) {
            Ok(size) if self.negative => -size,
            Ok(size) => size,
            Err(_) => i32::MAX,
        }
    }
}

// A list of the text in an array with room: its values, and how many there are. Rules out a count above the room.
#[derive(Drop)]
struct List<T, const N: usize> {
    values: [T; N],
    count: usize,
    ghost within: { count ≤ N },
}

impl<T, const N: usize> List<T, N> {
    fn as_slice(&self) -> &[T] {
        &self.values[..self.count]
    }

    fn as_mut_slice(&mut self) -> &mut [T] {
        let count = self.count;
        let all = self.values.as_mut_slice();
        &mut all[..count]
    }
}

// What is left of the text.
#[derive(Drop)]
struct Text<'t> {
    rest: &'t [u8],
}

impl<'t> Text<'t> {
    // The next line with its line feed. Where no line feed is left, the line is empty and nothing is left.
    fn line(&mut self) -> &'t [u8] {
        let all = self.rest;
        match all.iter().position(|byte| *byte == b'\n') {
            Some(end) => {
                let (line, rest) = all.split_at(end + 1);
                self.rest = rest;
                line
            }
            None => {
                self.rest = &[];
                &[]
            }
        }
    }

    // The next field, which ends with a blank or a line feed.
    fn field(&mut self) -> &'t [u8] {
        let all = self.rest;
        match all.iter().position(|byte| *byte <= b' ') {
            Some(end) => {
                self.rest = &all[end + 1..];
                &all[..end]
            }
            None => {
                self.rest = &[];
                all
            }
        }
    }

    // The next field as a number; a byte that is no digit, and a digit too many, are passed over.
    fn number(&mut self) -> Number {
        let field = self.field();
        let mut size = 0u64;
        for byte in field {
            if byte.is_ascii_digit() && size <= 999_999_999 {
                size = size * 10 + u64::from(*byte - b'0');
            }
        }
        Number {
            negative: field.starts_with(b"-"),
            size,
        }
    }

    // The next list: its count, and each value by the conversion given. A count above the room becomes the room.
    fn list<T: Copy + Default, const N: usize, F: Fn(Number) -> T>(
        &mut self,
        value: F,
    ) -> List<T, N>
        requires { F.IsAlwaysCallable value }
    {
        let count = self.number().size.min(N as u64) as usize;
        let mut values = [T::default(); N];
        for one in &mut values[..count] {
            *one = value(self.number());
        }
        List { values, count }
    }
}

// What a call found.
#[derive(Clone, Copy)]
enum Found {
    Sum(i32),
    Simplest(bool),
    Heads,
}

impl Display for Found {
    fn fmt<W: fmt::Write>(&self, f: &mut fmt::Formatter<W>) -> fmt::Result {
        match self {
            Found::Sum(sum) => write!(f, "sum {sum}"),
            Found::Simplest(true) => write!(f, "yes"),
            Found::Simplest(false) => write!(f, "no"),
            Found::Heads => write!(f, "done"),
        }
    }
}

// Prints a list with its name.
fn print_list<T: Display>(rt: &impl Print, name: &str, list: &[T]) -> io::Result<()> {
    print!(rt; ", {name}")?;
    for value in list {
        print!(rt; " {value}")?;
    }
    Ok(())
}

// Runs the next vector: makes the call, and prints its answer and what the lent slices then hold. For the heads of columns the lent
// additions are the rows, the stars the counts.
fn vector(rt: &impl Print, text: &mut Text<'_>) -> io::Result<()> {
    rt.write_all(text.line())?;
    let call = text.number().size;
    let n = text.number().size as usize;
    let table: List<i16, PLACES> = text.list(Number::order);
    let given: List<u32, LISTED> = text.list(Number::addition);
    let mut adds: List<u32, LISTED> = text.list(Number::addition);
    let mut stars: List<u32, LISTED> = text.list(Number::addition);
    let mut heads: List<i32, LISTED> = text.list(Number::head);
    let table = table.as_slice();
    let given = given.as_slice();
    let adds = adds.as_mut_slice();
    let stars = stars.as_mut_slice();
    let heads = heads.as_mut_slice();
    let answer = match call {
        1 => solve(n, table, adds, stars, heads).map(Found::Sum),
        2 => from_canon(n, table, given, adds, stars, heads).map(Found::Sum),
        3 => from_stars(n, table, given, adds, stars, heads).map(Found::Sum),
        5 => column_heads(n, table, given, heads, adds, stars).map(|()| Found::Heads),
        _ => is_simplest(n, table, given).map(Found::Simplest),
    };
    match answer {
        Ok(found) => rt.print(found)?,
        Err(refusal) => print!(rt; "refused {}", refusal.number())?,
    }
    if call == 5 {
        print_list(rt, "heads", heads)?;
        print_list(rt, "rows", adds)?;
        print_list(rt, "counts", stars)?;
    } else {
        print_list(rt, "adds", adds)?;
        print_list(rt, "stars", stars)?;
        print_list(rt, "heads", heads)?;
    }
    rt.write_all(b"\n")
}

fn run(rt: &impl Print, text: &[u8]) -> io::Result<()> {
    let mut text = Text { rest: text };
    for _ in 0..text.number().size {
        vector(rt, &mut text)?;
    }
    Ok(())
}

// Room for the text, made in a function of its own: the proof of a `main` with so long an array in it did not close.
fn room() -> [u8; TEXT] {
    [0u8; TEXT]
}

// A read or a write that fails ends the run with its error.
fn main(rt: HostRuntime) -> io::Result<()> {
    let mut text = room();
    let Ok(n) = read_input(&mut rt.stdin(), &mut text) else {
        return Err(io::Error::other("standard input cannot be read"));
    };
    run(&rt, &text[..n])
}

// Runs the calls on sheets that the files named by its arguments hold, and prints for each the answer and a mix of what was lent.
// A file holds one call: `R`, the lengths of the table and of the two label buffers (two bytes each, the higher first) and a sheet; or
// `W`, N, the same lengths, the length of the room, the entries (two bytes each, raised by 32,768) and the two label buffers.
#![tactic(auto)]

use orders::Refusal;
use std::env::FillError;
use std::fs::File;
use std::rt::{Env, Files};
use std::{io, str};
use streams::read_input;

// Room for what is lent, and for a file.
const TABLE: usize = 1100;

const LABELS: usize = 300;

const ROOM: usize = 12400;

// One number more in a mix.
fn mixed(mix: u32, number: u32) -> u32 {
    ((mix % 65521) * 31 + number % 65536 + 1) % 65521
}

// A mix of all values, each made a number.
fn mix<T: Copy, F: Fn(T) -> u32>(values: &[T], number: F) -> u32
    requires { F.IsAlwaysCallable number }
{
    values
        .iter()
        .fold(0, |mix, value| mixed(mix, number(*value)))
}

// Prints what a call answers: a word with the number, or the refusal's number with its line.
fn print_answer(rt: &impl Print, word: &str, answer: Result<usize, Refusal>) -> io::Result<()> {
    let refusal = match answer {
        Ok(count) => return print!(rt; " {word} {count}"),
        Err(refusal) => refusal,
    };
    print!(rt; " refused {}", refusal.number())?;
    match refusal {
        Refusal::Line(line) => print!(rt; " {line}"),
        _ => print!(rt; " line 0"),
    }
}

// The next N numbers of a call, two bytes each, the higher first; the call is then what is behind them.
fn numbers<const N: usize>(call: &mut &[u8]) -> Option<[usize; N]> {
    let mut numbers = [0usize; N];
    for number in &mut numbers {
        let (pair, rest) = call.split_first_chunk::<2>()?;
        *call = rest;
        *number = usize::from(u16::from_be_bytes(*pair));
    }
    Some(numbers)
}

// The entries that the bytes say, two bytes each, raised by 32,768, and sevens behind them.
fn entries(bytes: &[u8]) -> [i16; TABLE] {
    let mut table = [7i16; TABLE];
    let (pairs, _) = bytes.as_chunks::<2>();
    for (entry, pair) in table.iter_mut().zip(pairs) {
        *entry = i16::MIN.wrapping_add_unsigned(u16::from_be_bytes(*pair));
    }
    table
}

fn read_call(rt: &impl Print, mut sheet: &[u8]) -> io::Result<()> {
    let Some(lengths) = numbers::<3>(&mut sheet) else {
        return Ok(());
    };
    let [places, row_bytes, column_bytes] = lengths;
    let mut table = [7i16; TABLE];
    let mut rows = [7u8; LABELS];
    let mut cols = [7u8; LABELS];
    let answer = reader::read_sheet(
        sheet,
        &mut table[..places % (TABLE + 1)],
        &mut rows[..row_bytes % (LABELS + 1)],
        &mut cols[..column_bytes % (LABELS + 1)],
    );
    print_answer(rt, "rows", answer)?;
    print!(rt;
        " table {}",
        mix(&table, |order| u32::from(order.abs_diff(i16::MIN)))
    )?;
    print!(rt; " rows {}", mix(&rows, u32::from))?;
    print!(rt; " cols {}", mix(&cols, u32::from))
}

fn write_call(rt: &impl Print, mut rest: &[u8]) -> io::Result<()> {
    let Some(lengths) = numbers::<5>(&mut rest) else {
        return Ok(());
    };
    let [n, places, row_bytes, column_bytes, room] = lengths;
    let places = places % (TABLE + 1);
    let row_bytes = row_bytes % (LABELS + 1);
    let column_bytes = column_bytes % (LABELS + 1);
    if rest.len() < 2 * places + row_bytes + column_bytes {
        return Ok(());
    }
    let (bytes, labels) = rest.split_at(2 * places);
    let (rows, cols) = labels.split_at(row_bytes);
    let table = entries(bytes);
    let mut out = [7u8; ROOM];
    let answer = writer::write_sheet(
        n,
        &table[..places],
        rows,
        &cols[..column_bytes],
        &mut out[..room % (ROOM + 1)],
    );
    print_answer(rt, "bytes", answer)?;
    print!(rt; " room {}", mix(&out, u32::from))
}

// Runs the call that a file holds. One that cannot be opened or read is told in a line on standard error.
fn run(rt: &(impl Files + Print + Eprint), path: &str) -> io::Result<()> {
    let mut file = match File::open(rt, path) {
        Ok(file) => file,
        Err(e) => return rt.eprintln(format_args!("{path}: {e}")),
    };
    let mut buf = [0u8; ROOM];
    let Ok(n) = read_input(&mut file, &mut buf) else {
        return rt.eprintln(format_args!("{path}: cannot be read"));
    };
    rt.print(path)?;
    match &buf[..n] {
        [] => return Ok(()),
        [b'R', call @ ..] => read_call(rt, call)?,
        [_, call @ ..] => write_call(rt, call)?,
    }
    rt.write_all(b"\n")
}

// Runs the call that the file named by an argument holds, and says whether there is such an argument. A name that is no text or longer
// than the room is told in a line on standard error.
fn one(rt: &(impl Env + Files + Print + Eprint), i: usize) -> io::Result<bool> {
    let mut path = [0u8; 64];
    match rt.arg(i, &mut path) {
        Ok(k) => match str::from_utf8(&path[..k]) {
            Ok(name) => run(rt, name)?,
            Err(_) => rt.eprintln(format_args!("argument {i} is no text"))?,
        },
        Err(FillError::TooLong) => rt.eprintln(format_args!("argument {i} is too long"))?,
        Err(FillError::NotPresent) => return Ok(false),
    }
    Ok(true)
}

// The arguments are asked for one by one, since `env::args` takes the heap. A write that fails ends the run with its error.
fn main(rt: HostRuntime) -> io::Result<()> {
    for i in 1..usize::MAX {
        if !one(&rt, i)? {
            break;
        }
    }
    Ok(())
}

#![tactic(auto)]

ghost use Rattle.orders.specs.Refusals.{says};
ghost use Rattle.sheet.specs.Reading.{start};
ghost use Rattle.lines.specs.Parts.{Holds};
ghost use Rattle.reader.specs.Parts.{WalkTells};
ghost use Rattle.reader.specs.Promise.{ReadPromise, lent};

use lines::{Kept, LABELS, Section, Size};
use orders::{ABSENT, PLACES, Refusal, SHEET};
use sheet::WIDTH;

// The sections and their lines, one after the other, left by label at the first wrong line; the rest of the sheet is handed on from
// each to the next. Rules out another line named wrong, and a line passed whose label or order is not kept.
fn walk(sheet: &[u8], kept: &mut Kept) -> Result<usize, Refusal>
    requires { Holds kept.old start }
    ensures { WalkTells sheet.now result kept.new }
{
    let mut section = Section::Rows;
    let mut rest = sheet;
    let mut line: usize = 1;
    'sheet: loop {
        let Some(heading) = section.heading(rest) else {
            break 'sheet Err(Refusal::Line(line));
        };
        rest = &rest[heading.taken..];
        line += 1;
        for k in 0..heading.value {
            let Some(taken) = kept.keep(section, k, rest) else {
                break 'sheet Err(Refusal::Line(line));
            };
            rest = &rest[taken..];
            line += 1;
        }
        section = match section {
            Section::Rows => Section::Cols(Size { n: heading.value }),
            Section::Cols(size) => Section::Orders(size),
            Section::Orders(size) => {
                if rest.is_empty() {
                    break 'sheet Ok(size.n);
                }
                break 'sheet Err(Refusal::Line(line));
            }
        };
    }
}

// Reads a sheet: N, with the table and the labels written; or the lowest refusal that applies, with nothing written. The promise
// rules out a reader that takes a sheet in any but its one form, that names another line than the first wrong one, that leaves
// part of a refused sheet in the buffers, or that writes beyond the N × N entries and the N labels.
pub fn read_sheet(
    sheet: &[u8],
    table: &mut [i16],
    rows: &mut [u8],
    cols: &mut [u8],
) -> Result<usize, Refusal>
    ensures { ReadPromise sheet.now (lent table.old rows.old cols.old)
        (lent table.new rows.new cols.new) (says result) }
{
    if table.len() != PLACES || rows.len() != LABELS || cols.len() != LABELS {
        return Err(Refusal::Length);
    }
    if SHEET < sheet.len() {
        return Err(Refusal::TooLong);
    }
    // What the lines say stands here until the whole sheet is known to be good.
    let mut kept = Kept {
        table: [0; PLACES],
        rows: [0; LABELS],
        cols: [0; LABELS],
        next: 0,
    };
    // A literal of absent places in the struct would stand on the stack twice.
    kept.table.fill(ABSENT);
    let n = walk(sheet, &mut kept)?;
    table[..n * n].copy_from_slice(&kept.table[..n * n]);
    rows[..WIDTH * n].copy_from_slice(&kept.rows[..WIDTH * n]);
    cols[..WIDTH * n].copy_from_slice(&kept.cols[..WIDTH * n]);
    Ok(n)
}

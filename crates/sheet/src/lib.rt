#![tactic(auto)]

ghost use Rattle.orders.specs.Tested.{Tells};
ghost use Rattle.sheet.specs.Labels.{Form, Repeated};

// "8 bytes a label"
pub const WIDTH: usize = 8;

// The bytes that part a sheet: the end of a line, the one between fields, the one before a number below 0.
pub const FEED: u8 = b'\n';

pub const BLANK: u8 = b' ';

pub const MINUS: u8 = b'-';

// Has a text the form of a label? Rules out an empty text, one of nine bytes, a byte beside the letters and digits, and a byte passed over.
pub fn label_stands(l: &[u8]) -> bool
    ensures { Tells result (Form l.now) }
{
    !l.is_empty() && l.len() <= WIDTH && l.iter().all(|b| b.is_ascii_alphanumeric())
}

// Do the 8 bytes of label k stand in an earlier place too? Rules out an earlier place passed over, and a label taken for another that
// begins like it. The places are reckoned here and no buffer of N labels is asked: the reader asks while its labels still
// come, and knows no N for those of the rows.
pub fn repeated(labels: &[u8], k: usize) -> bool
    ensures { Tells result (Repeated labels.now k) }
{
    if labels.len() / WIDTH <= k {
        return false;
    }
    let at = WIDTH * k;
    let label = &labels[at..at + WIDTH];
    for i in 0..k {
        let start = WIDTH * i;
        if &labels[start..start + WIDTH] == label {
            return true;
        }
    }
    false
}

#![tactic(auto)]

ghost use Rattle.std.specs.Prelude.{◌≡◌, ◌*◌, ◌<◌, ◌≤◌, ℕ, length, get_or};
ghost use Rattle.orders.specs.Tested.{Tells};
ghost use Rattle.theory.specs.Limits.{row_limit as limit};
ghost use Rattle.sheet.specs.Text.{ended};
ghost use Rattle.sheet.specs.Sheet.{ended_lines};
ghost use Rattle.lettering.specs.Putting.{Puts};
ghost use Rattle.labels.specs.Parts.{label_of, labels_of, SlotStands, LabelsTold, label_most};

mod buffer;

pub use buffer::LabelBuffer;
use lettering::put;
use sheet::{FEED, label_stands, repeated};

// The bytes before the first zero byte. Rules out a later zero byte taken for the first.
#[tactic(auto, unfolding(crate::specs::Parts::label_of))]
fn label_length(slot: &[u8]) -> usize
    ensures { result ≡ length (label_of slot.now) }
{
    slot.iter().take_while(|b| **b != 0).count()
}

// Are these bytes all zero? Rules out a byte passed over.
fn all_zero(s: &[u8]) -> bool
    ensures { Tells result ((k : ℕ) → k < length s.now → get_or s.now k 0 ≡ 0) }
{
    s.iter().all(|b| *b == 0)
}

// Do the 8 bytes hold a label, filled up with zero bytes? Rules out bytes behind a zero byte.
fn slot_stands(slot: &[u8]) -> bool
    ensures { Tells result (SlotStands slot.now) }
{
    let k = label_length(slot);
    label_stands(&slot[..k]) && all_zero(&slot[k..])
}

// Does a buffer hold n labels, each of its form and unlike the others? Rules out two labels alike, and a refusal of labels that stand.
pub fn labels_stand(labels: &LabelBuffer<'_>) -> bool
    ensures { LabelsTold labels.now.n labels.now.bytes.now result }
{
    for k in 0..labels.n {
        if !slot_stands(labels.slot(k)) || repeated(labels.bytes, k) {
            return false;
        }
    }
    true
}

// The bytes of the label lines. Rules out every other number: the room is measured by it.
pub fn labels_length(labels: &LabelBuffer<'_>) -> usize
    requires { labels.now.n ≤ limit }
    ensures { (result ≡ length (ended_lines (labels_of labels.now.n labels.now.bytes.now))) × (result ≤ label_most * labels.now.n) }
{
    let mut sum: usize = 0;
    for k in 0..labels.n {
        sum += label_length(labels.slot(k)) + 1;
    }
    sum
}

// A label line in the room. Rules out a zero byte in the sheet.
fn put_label(slot: &[u8], out: &mut [u8]) -> usize
    requires { length (ended (label_of slot.now)) ≤ length out.old }
    ensures { Puts (ended (label_of slot.now)) out.old out.new result }
{
    let a = put(&slot[..label_length(slot)], out);
    out[a] = FEED;
    a + 1
}

// The label lines in the room. Rules out a label left out, and a byte changed behind them.
pub fn put_labels(labels: &LabelBuffer<'_>, out: &mut [u8]) -> usize
    requires { length (ended_lines (labels_of labels.now.n labels.now.bytes.now)) ≤ length out.old }
    ensures { Puts (ended_lines (labels_of labels.now.n labels.now.bytes.now)) out.old out.new result }
{
    let mut at: usize = 0;
    for k in 0..labels.n {
        at += put_label(labels.slot(k), &mut out[at..]);
    }
    at
}

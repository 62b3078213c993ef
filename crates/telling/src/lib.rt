#![tactic(auto)]

ghost use Rattle.orders.specs.Refusals.{says};
ghost use Rattle.telling.specs.Telling.{Returns, ReturnsRead, itself, bit};

use orders::Refusal;

// The answer of a call that has one single result, or `()` where it has none. Rules out a result written on a refusal, a result kept
// back, and another number than the refusal's.
pub fn tell<T: Drop>(answer: Result<T, Refusal>, single: &mut T) -> u32
    ensures { Returns itself (says answer) result single.old single.new }
{
    match answer {
        Ok(value) => {
            *single = value;
            0
        }
        Err(refusal) => refusal.number(),
    }
}

// The yes-or-no. Rules out a verdict written on a refusal, a verdict turned round, and a byte that is neither 1 nor 0.
pub fn tell_verdict(verdict: Result<bool, Refusal>, yes: &mut u8) -> u32
    ensures { Returns bit (says verdict) result yes.old yes.new }
{
    tell(verdict.map(|simplest| u8::from(simplest)), yes)
}

// The reader's answer. Rules out N written on a refusal, a line written on another answer than refusal 10, and another line.
pub fn tell_read(answer: Result<usize, Refusal>, n: &mut usize, line: &mut usize) -> u32
    ensures { ReturnsRead (says answer) result n.old line.old n.new line.new }
{
    match answer {
        Ok(count) => {
            *n = count;
            0
        }
        Err(refusal) => {
            if let Refusal::Line(at) = refusal {
                *line = at;
            }
            refusal.number()
        }
    }
}

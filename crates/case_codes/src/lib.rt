// What a code says to an element (document 02, T-05).
#![tactic(auto)]

ghost use Rattle.std.specs.Prelude.{◌≡◌};
ghost use Rattle.std.specs.Float.{binary64};
ghost use Rattle.std.specs.Float.Ieee.{to_bits};
ghost use Rattle.case_stream.specs.Stream as stream;
ghost use Rattle.case_codes.specs.Codes as spec;

use case_state::{BLOCK, FINISH, MISSING, NUMERIC, SPACES};

// What a code says to an element: nothing; that the data ends; that its block follows; that it is refused; the element, eight bytes.
#[derive(Clone, Copy, Debug, PartialEq, Eq)]
pub enum Verdict {
    Skip,
    Finish,
    Block,
    Wrong,
    Gives(u64),
}

// The bits of the double code - bias: both become doubles without loss, and so is their difference.
fn difference(code: u8, bias: u8) -> u64
    ensures { result ≡ to_bits binary64 (stream.difference code bias) }
{
    f64::to_bits((code as f64) - (bias as f64))
}

#[tactic(auto, unfolding(sizes::specs::Basics::pick, sizes::specs::Basics::le, case_stream::specs::Stream::double, case_stream::specs::Stream::numeric))]
fn numeric(bias: u8, code: u8) -> Verdict
    ensures { spec.said result ≡ stream.numeric bias code }
{
    match code {
        MISSING => Verdict::Gives(0xffef_ffff_ffff_ffff),
        SPACES => Verdict::Wrong,
        _ => Verdict::Gives(difference(code, bias)),
    }
}

#[tactic(auto, unfolding(sizes::specs::Basics::pick, sizes::specs::Basics::le, case_stream::specs::Stream::string))]
fn string(bias: u8, code: u8) -> Verdict
    ensures { spec.said result ≡ stream.string bias code }
{
    match code {
        SPACES => Verdict::Gives(0x2020_2020_2020_2020),
        _ if code < FINISH && code == bias => Verdict::Gives(0),
        _ => Verdict::Wrong,
    }
}

// What a code says to an element of this kind. (A byte, and no enum: any kind that is not NUMERIC counts as STRING.)
#[tactic(auto, unfolding(sizes::specs::Basics::pick, case_stream::specs::Stream::says, case_stream::specs::Stream::value))]
pub fn judge(kind: u8, bias: u8, code: u8) -> Verdict
    ensures { spec.said result ≡ stream.says kind bias code }
{
    match code {
        0 => Verdict::Skip,
        FINISH => Verdict::Finish,
        BLOCK => Verdict::Block,
        _ if kind == NUMERIC => numeric(bias, code),
        _ => string(bias, code),
    }
}

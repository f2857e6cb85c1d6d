// What a Value says: its form, its numbers by value, and its strings and arguments by their places in the bytes given.
#![tactic(auto)]

mod forms; // the fields of each form
mod double; // the number that a double is
mod figure; // the double of a Value
pub mod plain; // numbers with nothing but a format and a double

ghost use Rattle.std.specs.Prelude.{◌≡◌};
ghost use Rattle.contents.specs.Answers as spec;

use crate::forms::raw_value;
pub use double::number;
pub use figure::{Figure, read_figure};
use layout::LITTLE;
use layout::number::peek;
use layout::run::skip;
use refusals::{Reason, Refusal};
use sizes::{BELOW_VALUE, MEMBER_BYTES};
use store::Name;
use value::{argument, cell_zeros};

// The fields of a Value without the bytes 00 before it; 0 for those that its form has not.
#[derive(Clone, Copy)]
pub struct RawValue {
    // 1 to 6, or 7 for a template: a number, since C gets it (`digarumbi_value`)
    pub form: u32,
    pub format: u32,
    // the double's
    pub bits: u64,
    // how many
    pub arguments: u32,
    pub show: u8,
    pub fixed: bool,
    // local, s or template
    pub text: Name,
    pub var_name: Name,
    // value-label or var-label
    pub label: Name,
    pub id: Name,
    pub c: Name,
    // where it starts
    pub first_argument: usize,
}

// What a Value says: how long it is, how many bytes 00 it begins with, and its fields.
#[derive(Clone, Copy)]
pub struct Contents {
    pub length: usize,
    pub zeros: usize,
    pub raw: RawValue,
}

// The same of an Argument: how many values it has, and where the first starts.
#[derive(Clone, Copy)]
pub struct Argument {
    pub length: usize,
    pub values: u32,
    pub first: usize,
}

// Whether bytes are read at all.
fn readable(s: &[u8], version: u64) -> Result<(), Refusal>
    ensures { spec.Readable version s.now result }
{
    if MEMBER_BYTES < s.len() {
        return Err(Refusal {
            reason: Reason::TooLong,
            place: 0,
        });
    }
    let known = version == 1 || version == 3;
    if known {
        Ok(())
    } else {
        Err(Refusal {
            reason: Reason::Version,
            place: 0,
        })
    }
}

// What the Value in front of the bytes says, in a member of that version.
pub fn read_value(s: &[u8], version: u64) -> Result<Contents, Refusal>
    ensures { spec.ValueAnswers version s.now (spec.contents_of result) }
{
    readable(s, version)?;
    let zeros = skip(s, Ok(0), 0, cell_zeros(version))?;
    let (raw, length) = raw_value(s, Ok(zeros), version)?;
    Ok(Contents { length, zeros, raw })
}

// How many values an argument has whose first number is x, and where the first of them starts.
fn argument_of(length: usize, x: u32) -> Argument
    ensures { spec.argument_with result ≡ spec.argument_of length x }
{
    let (values, first) = if x == 0 { (1, 4) } else { (x, 8) };
    Argument {
        length,
        values,
        first,
    }
}

// What the Argument in front of the bytes says, in a member of that version.
pub fn read_argument(s: &[u8], version: u64) -> Result<Argument, Refusal>
    ensures { spec.ArgumentAnswers version s.now (spec.argument_answered result) }
{
    readable(s, version)?;
    let x = peek(s, Ok(0), LITTLE, 4);
    let length = argument(s, Ok(0), BELOW_VALUE, version)?;
    Ok(argument_of(length, x as u32))
}

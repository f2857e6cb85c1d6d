// What a Value and an Argument say, as words at the front of a lent area.
ghost use Rattle.std.specs.Prelude.{◌≡◌, ◌+◌, ◌*◌, ◌^◌};
ghost use Rattle.store.specs.Values.{bit};
ghost use Rattle.contents.specs.Number.{number_of};
ghost use Rattle.value_words.specs.Values.{ValueRead, ArgumentRead};

use contents::number as number_of;
use value_words::{argument_answer, value_answer};

// What the Value in front of some bytes says. VALUE_ANSWER_WORDS, with the answer in as many words at the front of `answer`; 0, with
// nothing read and nothing changed, if it is shorter.
#[unsafe(no_mangle)]
pub extern "C" fn digarumbi_value(version: u32, value: &[u8], answer: &mut [u32]) -> usize
    ensures { ValueRead version value.now answer.old result answer.new }
{
    value_answer(version, value, answer)
}

// The same of an Argument.
#[unsafe(no_mangle)]
pub extern "C" fn digarumbi_argument(version: u32, argument: &[u8], answer: &mut [u32]) -> usize
    ensures { ArgumentRead version argument.now answer.old result answer.new }
{
    argument_answer(version, argument, answer)
}

// The number that a double's bits are: 1, with the number; 0, with 0, where they are a NaN's.
#[unsafe(no_mangle)]
pub extern "C" fn digarumbi_number(low: u32, high: u32, number: &mut f64) -> u32
    ensures value { result ≡ bit (number_of (high * 2 ^ 32 + low)).is }
    ensures number_after { number.new ≡ (number_of (high * 2 ^ 32 + low)).value }
{
    match number_of(high as u64 * 4294967296 + low as u64) {
        Some(x) => {
            *number = x;
            1
        }
        None => {
            *number = 0.0;
            0
        }
    }
}

// What a Value and an Argument say, as words at the front of a lent area.
#![tactic(auto)]

ghost use Rattle.std.specs.Prelude.{◌≡◌, Ok};
ghost use Rattle.layout.specs.Words.{word32};
ghost use Rattle.contents.specs.Answers.{contents_of, argument_answered};
ghost use Rattle.store.specs.Puts.{PutsWords};
ghost use Rattle.contents.specs.Laws.Plain.{plain_value};
ghost use Rattle.value_words.specs.Values as spec;

use contents::plain::{PLAIN_BYTES, is_plain, plain_bits, plain_format};
use contents::{Argument, Contents, RawValue, read_argument, read_value};
use layout::Step;
use refusals::Refusal;
use sizes::{ARGUMENT_ANSWER_WORDS, VALUE_ANSWER_WORDS};
use store::words::put;

// The low 32 bits of a place or a length.
fn low(n: usize) -> u32
    ensures { result ≡ word32 n }
{
    (n % 4294967296) as u32
}

fn raw_words(out: &mut [u32], st: Step, x: RawValue) -> Step
    ensures { PutsWords (spec.raw_words x) out.old st out.new result }
{
    put(
        out,
        st,
        &[
            x.form,
            x.format,
            (x.bits % 4294967296) as u32,
            (x.bits / 4294967296) as u32,
            x.show as u32,
            x.fixed as u32,
            low(x.text.place),
            low(x.text.length),
            low(x.var_name.place),
            low(x.var_name.length),
            low(x.label.place),
            low(x.label.length),
            low(x.id.place),
            low(x.id.length),
            low(x.c.place),
            low(x.c.length),
            x.arguments,
            low(x.first_argument),
        ],
    )
}

fn value_words(out: &mut [u32], answer: Result<Contents, Refusal>) -> Step
    ensures { PutsWords (spec.value_words (contents_of answer)) out.old (Ok 0) out.new result }
{
    match answer {
        Ok(x) => {
            let st = put(out, Ok(0), &[0, 0, low(x.length), low(x.zeros)]);
            raw_words(out, st, x.raw)
        }
        Err(refusal) => {
            let mut words = [0u32; VALUE_ANSWER_WORDS];
            words[0] = refusal.reason.number();
            words[1] = low(refusal.place);
            put(out, Ok(0), &words)
        }
    }
}

// The same of a plain number.
fn plain_words(out: &mut [u32], value: &[u8]) -> Step
    ensures { PutsWords (spec.value_words (plain_value value.now)) out.old (Ok 0) out.new result }
{
    let bits = plain_bits(value);
    let format = plain_format(value);
    put(
        out,
        Ok(0),
        &[
            0,
            0,
            PLAIN_BYTES as u32,
            0,
            1,
            format,
            (bits % 4294967296) as u32,
            (bits / 4294967296) as u32,
            0,
            0,
            0,
            0,
            0,
            0,
            0,
            0,
            0,
            0,
            0,
            0,
            0,
            0,
        ],
    )
}

fn argument_words(out: &mut [u32], answer: Result<Argument, Refusal>) -> Step
    ensures { PutsWords (spec.argument_words (argument_answered answer)) out.old (Ok 0) out.new result }
{
    match answer {
        Ok(x) => put(out, Ok(0), &[0, 0, low(x.length), x.values, low(x.first)]),
        Err(refusal) => put(
            out,
            Ok(0),
            &[refusal.reason.number(), low(refusal.place), 0, 0, 0],
        ),
    }
}

// What the Value in front of some bytes says: see `digarumbi_value` of `api`.
pub fn value_answer(version: u32, value: &[u8], answer: &mut [u32]) -> usize
    ensures { spec.ValueRead version value.now answer.old result answer.new }
{
    let short = answer.len() < VALUE_ANSWER_WORDS;
    if short {
        return 0;
    }
    let version = u64::from(version);
    if is_plain(value, version) {
        let _ = plain_words(answer, value);
        return VALUE_ANSWER_WORDS;
    }
    let _ = value_words(answer, read_value(value, version));
    VALUE_ANSWER_WORDS
}

// The same of an Argument: see `digarumbi_argument` of `api`.
pub fn argument_answer(version: u32, argument: &[u8], answer: &mut [u32]) -> usize
    ensures { spec.ArgumentRead version argument.now answer.old result answer.new }
{
    if answer.len() < ARGUMENT_ANSWER_WORDS {
        return 0;
    }
    let _ = argument_words(answer, read_argument(argument, u64::from(version)));
    ARGUMENT_ANSWER_WORDS
}

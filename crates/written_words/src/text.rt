// Text in old code pages, converted; and what was written as words.
ghost use Rattle.std.specs.Prelude.{length};
ghost use Rattle.convert.specs.Convert.{to, from, converted};
ghost use Rattle.written_words.specs.Encodings.{Converted};

use crate::answer_words;
use codepages::{from_utf8, to_utf8};
use sizes::WRITE_ANSWER_WORDS;

// Converts text in that page to UTF-8: see `digarumbi_to_utf8` of `api`.
pub fn to_utf8_answer(page: u32, input: &[u8], out: &mut [u8], answer: &mut [u32]) -> usize
    ensures { Converted (converted to page (length out.old) input.now) out.old answer.old result out.new answer.new }
{
    if answer.len() < WRITE_ANSWER_WORDS {
        return 0;
    }
    answer_words(answer, to_utf8(page, input, out))
}

// Converts UTF-8 to text in that page: see `digarumbi_from_utf8` of `api`.
pub fn from_utf8_answer(page: u32, input: &[u8], out: &mut [u8], answer: &mut [u32]) -> usize
    ensures { Converted (converted from page (length out.old) input.now) out.old answer.old result out.new answer.new }
{
    if answer.len() < WRITE_ANSWER_WORDS {
        return 0;
    }
    answer_words(answer, from_utf8(page, input, out))
}

// Text in old code pages, for programs in C, Rust and other languages.
ghost use Rattle.std.specs.Prelude.{length};
ghost use Rattle.convert.specs.Convert.{to, from, converted};
ghost use Rattle.written_words.specs.Encodings.{Converted};

use written_words::text::{from_utf8_answer, to_utf8_answer};

// Converts text in that page to UTF-8. WRITE_ANSWER_WORDS, with the refusal or 0, its place and the length at the front of `answer`; 0, with
// nothing written and nothing changed, if it is shorter.
#[unsafe(no_mangle)]
pub extern "C" fn digarumbi_to_utf8(
    page: u32,
    input: &[u8],
    out: &mut [u8],
    answer: &mut [u32],
) -> usize
    ensures { Converted (converted to page (length out.old) input.now) out.old answer.old result out.new answer.new }
{
    to_utf8_answer(page, input, out, answer)
}

// Converts UTF-8 to text in that page, likewise.
#[unsafe(no_mangle)]
pub extern "C" fn digarumbi_from_utf8(
    page: u32,
    input: &[u8],
    out: &mut [u8],
    answer: &mut [u32],
) -> usize
    ensures { Converted (converted from page (length out.old) input.now) out.old answer.old result out.new answer.new }
{
    from_utf8_answer(page, input, out, answer)
}

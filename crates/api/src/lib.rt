// The library for programs in C, Rust and other languages: numbers and slices alone. A slice is a pointer and a length there;
// include/digarumbi.h has these functions and the layout of their words.
#![tactic(auto)]

mod case_data; // compressed case data
mod encodings; // text in old code pages
mod member_list; // a night's members in one call
mod positions; // positions of cells
mod totals; // totals under a leaf
mod values; // what a Value says

ghost use Rattle.std.specs.Prelude.{◌≡◌, length};
ghost use Rattle.sizes.specs.Sizes.{abi, look_answer_words};
ghost use Rattle.grammar.specs.Laws.Layout.Read.{read};
ghost use Rattle.units.specs.Units.{in_pixels, in_points, height, height_of};
ghost use Rattle.grammar.specs.Part.{part_of};
ghost use Rattle.desk.specs.Desk.{filled_of, name_of, name_place_of, after_of};
ghost use Rattle.look.specs.Look.{TableLook};
ghost use Rattle.look.specs.Answers.{expected};
ghost use Rattle.look_words.specs.FieldWords as look_spec;
ghost use Rattle.store.specs.Puts.{AtFront};
ghost use Rattle.member_words.specs.MemberWords.{MemberRead};
ghost use Rattle.written_words.specs.Looks.{Rewritten};
ghost use Rattle.written_words.specs.Sections.{Sectioned};

use desk::place::node_name_place;
use desk::{node_after, node_name};
use look_words::look_answer;
use member::part;
use member_words::member_answer;
use refusals::Refusal;
use sizes::ABI;
use units::{Pt, Px, font_height, pt_to_px, px_to_pt};
use written_words::{rewrite_answer, sections_answer};

// The version of this interface. The header that a program was compiled with has its own: a record's words are as it says where the two are
// the same.
#[unsafe(no_mangle)]
pub extern "C" fn digarumbi_abi() -> u32
    ensures { result ≡ abi }
{
    ABI
}

// Reads a member. ANSWER_WORDS, with the answer in as many words at the front of `answer` and the records in the two areas where it is
// accepted; 0, with nothing read and nothing changed, if `answer` is shorter.
#[unsafe(no_mangle)]
pub extern "C" fn digarumbi_read_member(
    member: &[u8],
    answer: &mut [u32],
    nodes: &mut [u32],
    cells: &mut [u32],
) -> usize
    ensures { MemberRead member.now answer.old nodes.old cells.old result answer.new nodes.new cells.new }
{
    member_answer(member, answer, nodes, cells)
}

// The length of the name of node i, and its place in the member; both 0 if there is no record i, or if it points outside the member.
// Of `nodes` only the words of `count` records are looked at; an area with fewer has none filled.
#[unsafe(no_mangle)]
pub extern "C" fn digarumbi_node_name(
    member: &[u8],
    nodes: &[u32],
    count: usize,
    i: usize,
    place: &mut usize,
) -> usize
    ensures value { result ≡ length (name_of member.now (filled_of nodes.now count) i) }
    ensures place_after { place.new ≡ name_place_of member.now (filled_of nodes.now count) i }
{
    *place = node_name_place(member, nodes, count, i);
    node_name(member, nodes, count, i).len()
}

// The node after node i and all that is below it; `count` where there is none, and for a record that is not there or has a word that no
// record has. Of `nodes` only the words of `count` records are looked at, as by `digarumbi_node_name`.
#[unsafe(no_mangle)]
pub extern "C" fn digarumbi_node_after(nodes: &[u32], count: usize, i: usize) -> usize
    ensures { result ≡ after_of (filled_of nodes.now count) count i }
{
    node_after(nodes, count, i)
}

// The length of that part of the member; 0 if it does not lie inside.
#[unsafe(no_mangle)]
pub extern "C" fn digarumbi_part(member: &[u8], place: usize, n: usize) -> usize
    ensures { result ≡ length (part_of member.now place n) }
{
    part(member, place, n).len()
}

// Reads a look. LOOK_ANSWER_WORDS, with the answer in as many words at the front of `answer`; 0, with nothing read and nothing changed, if
// it is shorter.
#[unsafe(no_mangle)]
pub extern "C" fn digarumbi_read_look(file: &[u8], answer: &mut [u32]) -> usize
    ensures { AtFront look_answer_words (look_spec.answer_words_of (expected (read TableLook file.now 0))) answer.old result answer.new }
{
    look_answer(file, answer)
}

// Reads a look and writes it again. WRITE_ANSWER_WORDS, with the refusal or 0, its place and the length at the front of `answer`; 0, with
// nothing written and nothing changed, if it is shorter.
#[unsafe(no_mangle)]
pub extern "C" fn digarumbi_rewrite_look(file: &[u8], out: &mut [u8], answer: &mut [u32]) -> usize
    ensures { Rewritten file.now out.old answer.old result out.new answer.new }
{
    rewrite_answer(file, out, answer)
}

// Writes the Areas and Borders sections of a member of version 3 from a look. WRITE_ANSWER_WORDS, with the refusal or 0, its place in the look
// and the length at the front of `answer`; 0, with nothing read and nothing changed, if it is shorter.
#[unsafe(no_mangle)]
pub extern "C" fn digarumbi_look_sections(look: &[u8], out: &mut [u8], answer: &mut [u32]) -> usize
    ensures { Sectioned look.now out.old answer.old result out.new answer.new }
{
    sections_answer(look, out, answer)
}

// The number of a refusal, or 0; then `value` has the number, 0 after a refusal.
fn told(answer: Result<u32, Refusal>, value: &mut u32) -> u32
    ensures number { result ≡ (height_of answer).refusal }
    ensures value_after { value.new ≡ (height_of answer).value }
{
    match answer {
        Ok(n) => {
            *value = n;
            0
        }
        Err(refusal) => {
            *value = 0;
            refusal.reason.number()
        }
    }
}

// Points in pixels: 0 or the refusal's number, 7; the place is 0.
#[unsafe(no_mangle)]
pub extern "C" fn digarumbi_pt_to_px(points: u32, pixels: &mut u32) -> u32
    ensures value { result ≡ (in_pixels record { 0 = points }).refusal }
    ensures pixels_after { pixels.new ≡ (in_pixels record { 0 = points }).value.0 }
{
    told(pt_to_px(Pt(points)).map(|x| x.0), pixels)
}

// Pixels in points, likewise.
#[unsafe(no_mangle)]
pub extern "C" fn digarumbi_px_to_pt(pixels: u32, points: &mut u32) -> u32
    ensures value { result ≡ (in_points record { 0 = pixels }).refusal }
    ensures points_after { points.new ≡ (in_points record { 0 = pixels }).value.0 }
{
    told(px_to_pt(Px(pixels)).map(|x| x.0), points)
}

// The height of a font of that size, likewise.
#[unsafe(no_mangle)]
pub extern "C" fn digarumbi_font_height(size: i32, value: &mut u32) -> u32
    ensures value { result ≡ (height size).refusal }
    ensures value_after { value.new ≡ (height size).value }
{
    told(font_height(size), value)
}

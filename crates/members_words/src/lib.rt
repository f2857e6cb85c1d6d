// A night's members in one call: their answers as words, one after the other, and the records of each in its share of two areas.
#![tactic(auto)]

ghost use Rattle.std.specs.Prelude.{◌+◌, ◌*◌, ◌≤◌, length};
ghost use Rattle.sizes.specs.Sizes.{answer_words};
ghost use Rattle.members.specs.Members as members_spec;
ghost use Rattle.members_words.specs.Members.{MembersRead};
ghost use Rattle.members_words.specs.Laws.MembersRead.{OneRead, AllRead};

use layout::Step;
use member_words::member_words;
use members::{list_refusal, read_nth};
use sizes::{ANSWER_WORDS, MEMBERS_ANSWER_WORDS};
use store::words::put;

// Reads member i, with the words of its answer in their place among those of all members.
fn read_into(
    buffer: &[u8],
    list: &[u32],
    i: usize,
    answers: &mut [u32],
    nodes: &mut [u32],
    cells: &mut [u32],
)
    requires { answer_words * i + answer_words ≤ length answers.old }
    ensures { OneRead buffer.now list.now i answers.old nodes.old cells.old answers.new nodes.new cells.new }
{
    let a = read_nth(buffer, list, i, nodes, cells);
    let start = ANSWER_WORDS * i;
    let end = start + ANSWER_WORDS;
    let _ = member_words(&mut answers[start..end], a);
}

// Reads every member of a list, one after the other.
fn read_all(buffer: &[u8], list: &[u32], answers: &mut [u32], nodes: &mut [u32], cells: &mut [u32])
    requires { answer_words * members_spec.members list.now ≤ length answers.old }
    ensures { AllRead buffer.now list.now answers.old nodes.old cells.old answers.new nodes.new cells.new }
{
    for i in 0..list.len() / 2 {
        read_into(buffer, list, i, answers, nodes, cells);
    }
}

// Reads the members of a list: see `digarumbi_read_members` of `api`.
pub fn members_answer(
    buffer: &[u8],
    list: &[u32],
    answers: &mut [u32],
    nodes: &mut [u32],
    cells: &mut [u32],
) -> usize
    ensures { MembersRead buffer.now list.now answers.old nodes.old cells.old result answers.new nodes.new cells.new }
{
    if let Err(reason) = list_refusal(list) {
        if answers.len() < MEMBERS_ANSWER_WORDS {
            return 0;
        }
        let _ = put(answers, Ok(0), &[reason.number(), 0]);
        return MEMBERS_ANSWER_WORDS;
    }
    let words = MEMBERS_ANSWER_WORDS + ANSWER_WORDS * (list.len() / 2);
    if answers.len() < words {
        return 0;
    }
    let _ = put(answers, Ok(0), &[0, 0]);
    read_all(
        buffer,
        list,
        &mut answers[MEMBERS_ANSWER_WORDS..],
        nodes,
        cells,
    );
    words
}

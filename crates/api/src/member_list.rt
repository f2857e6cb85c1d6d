// A night's members in one call: their answers as words, one after the other, and the records of each in its share of two areas.
ghost use Rattle.members_words.specs.Members.{MembersRead};

use members_words::members_answer;

// Reads the members of a list, start and length in turn, each with its share of the two areas. The words of the answer, which stands at the
// front of `answers`; 0, with nothing read and nothing changed, if it is shorter.
#[unsafe(no_mangle)]
pub extern "C" fn digarumbi_read_members(
    buffer: &[u8],
    list: &[u32],
    answers: &mut [u32],
    nodes: &mut [u32],
    cells: &mut [u32],
) -> usize
    ensures { MembersRead buffer.now list.now answers.old nodes.old cells.old result answers.new nodes.new cells.new }
{
    members_answer(buffer, list, answers, nodes, cells)
}

// What the programs print of an answer, into a buffer that is lent.
#![tactic(auto)]

mod rows;
mod text;

ghost use Rattle.std.specs.Prelude.{◌≡◌, ◌≤◌, length};
ghost use Rattle.report.specs.Text.{Puts, Printed};
ghost use Rattle.report.specs.MemberLine.{MemberLine, MemberLineIn};
ghost use Rattle.report.specs.Lines.{refused_of, accepted_of, line_of, line_bytes, shape_of, shape_bytes, records_of, records_bytes};

use crate::rows::{part, row, table};
use crate::text::{counted, number, put};
use answer::Answer;
use sizes::{
    CELL_AREA, CELL_WORDS, DIMENSION_WORDS, MOST_CELLS, MOST_DIMENSIONS, MOST_NODES, NODE_AREA,
    NODE_WORDS,
};

// The longest line: three counts of ten digits.
pub const LINE_BYTES: usize = 59;

// A space and ten digits.
const WORD_BYTES: usize = 11;

// The longest row of each kind.
const DIMENSION_ROW: usize = 9 + WORD_BYTES * DIMENSION_WORDS + 1;

const AXES_ROW: usize = 4 + WORD_BYTES * 3 + 1;

const NODE_ROW: usize = 4 + WORD_BYTES * NODE_WORDS + 1;

const CELL_ROW: usize = 4 + WORD_BYTES * CELL_WORDS + 1;

// The longest records of a member.
pub const RECORDS_BYTES: usize = DIMENSION_ROW * MOST_DIMENSIONS
    + AXES_ROW
    + (5 + WORD_BYTES * MOST_DIMENSIONS + 1)
    + NODE_ROW * MOST_NODES
    + CELL_ROW * MOST_CELLS;

// ---- the line of document 01's test program

fn refused(out: &mut [u8], n: u32, place: usize) -> usize
    requires { line_bytes ≤ length out.old }
    ensures { Puts (refused_of n place) out.old 0 out.new result }
{
    let at = put(out, 0, b"refused ");
    let at = counted(out, at, n, b" at ");
    let at = number(out, at, place as u64);
    put(out, at, b"\n")
}

fn accepted(out: &mut [u8], dims: u32, nodes: u32, cells: u32) -> usize
    requires { line_bytes ≤ length out.old }
    ensures { Puts (accepted_of dims nodes cells) out.old 0 out.new result }
{
    let at = put(out, 0, b"accepted ");
    let at = counted(out, at, dims, b" dims ");
    let at = counted(out, at, nodes, b" nodes ");
    counted(out, at, cells, b" cells\n")
}

// The line of a refusal, at the start of a buffer, and how many bytes it has. A buffer of fewer than LINE_BYTES is left as it is: 0.
pub fn refusal(n: u32, place: usize, out: &mut [u8]) -> usize
    ensures { Printed line_bytes (refused_of n place) out.old out.new result }
{
    let fits = LINE_BYTES <= out.len();
    if fits { refused(out, n, place) } else { 0 }
}

// The line of an answer, likewise.
pub fn line(a: Answer, out: &mut [u8]) -> usize
    ensures { Printed line_bytes (line_of a) out.old out.new result }
{
    let ok = a.refusal == 0;
    if ok {
        let fits = LINE_BYTES <= out.len();
        if fits {
            accepted(out, a.dims, a.nodes, a.cells)
        } else {
            0
        }
    } else {
        refusal(a.refusal, a.place, out)
    }
}

// The line of a member, read with areas that are lent: they suffice for every member, and what they held makes no difference.
pub fn member_line_in(
    member: &[u8],
    nodes: &mut [u32; NODE_AREA],
    cells: &mut [u32; CELL_AREA],
    out: &mut [u8],
) -> usize
    ensures { MemberLineIn member.now nodes.old cells.old nodes.new cells.new out.old out.new result }
{
    let a = member::read_member(member, nodes, cells);
    line(a, out)
}

// The line of a member, read with areas of its own.
pub fn member_line(member: &[u8], out: &mut [u8]) -> usize
    ensures { MemberLine member.now out.old out.new result }
{
    let mut nodes = [0u32; NODE_AREA];
    let mut cells = [0u32; CELL_AREA];
    member_line_in(member, &mut nodes, &mut cells, out)
}

// ---- the records of an accepted member, one to a line

// The bytes of the longest records of so many dimensions, nodes and cells.
fn needed(dims: u32, nodes: u32, cells: u32) -> usize
    ensures { result ≡ records_bytes dims nodes cells }
{
    let d = dims as usize;
    let n = nodes as usize;
    let c = cells as usize;
    d * DIMENSION_ROW + AXES_ROW + (5 + WORD_BYTES * d + 1) + n * NODE_ROW + c * CELL_ROW
}

// The dimensions, the axes and their order.
fn shape(out: &mut [u8], a: Answer) -> usize
    requires { shape_bytes a.dims ≤ length out.old }
    ensures puts { Puts (shape_of a) out.old 0 out.new result }
    ensures upper_bound { result ≤ shape_bytes a.dims }
{
    let dimensions = a.dimensions;
    let order = a.order;
    let d = a.dims as usize;
    let counts = [a.layers, a.rows, a.columns];
    let used = part(&order, 0, d);
    let at = table(out, 0, b"dimension", &dimensions, d, DIMENSION_WORDS);
    let at = row(out, at, b"axes", &counts);
    row(out, at, b"order", used)
}

// The records of an accepted member, one to a line, at the start of a buffer, and how many bytes they have. A buffer that the longest
// records of so many dimensions, nodes and cells may not fit is left as it is: 0. One of RECORDS_BYTES fits those of every member.
pub fn records(a: Answer, nodes: &[u32], cells: &[u32], out: &mut [u8]) -> usize
    ensures { Printed (records_bytes a.dims a.nodes a.cells) (records_of a nodes.now cells.now) out.old out.new result }
{
    let fits = needed(a.dims, a.nodes, a.cells) <= out.len();
    if fits {
        let at = shape(out, a);
        let at = table(out, at, b"node", nodes, a.nodes as usize, NODE_WORDS);
        table(out, at, b"cell", cells, a.cells as usize, CELL_WORDS)
    } else {
        0
    }
}

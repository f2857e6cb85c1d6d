// The numbers of document 01 that code and specification share, each under one name: `specs/Sizes.antt` has the same ones for the
// contracts. What is computed from another is written so.
#![tactic(auto)]

// ---- document 01, "Sizes we accept"

pub const MEMBER_BYTES: usize = 1048576;

pub const MOST_DIMENSIONS: usize = 16;

pub const MOST_FOOTNOTES: usize = 256;

pub const MOST_NODES: usize = 4096;

pub const MOST_CELLS: usize = 4096;

pub const VALUE_DEPTH: usize = 8;

// Inside the outermost.
pub const BELOW_VALUE: usize = VALUE_DEPTH - 1;

pub const CATEGORY_DEPTH: usize = 8;
// the largest product of all n
pub const MOST_PLACES: u64 = 4294967295;

// ---- document 01, "What the caller gets"

// of a node: seven with how many nodes it contains (document 02, T-07)
pub const NODE_WORDS: usize = 7;

pub const CELL_WORDS: usize = 3;
// of a dimension: the place and length of its name, its n and its first node
pub const DIMENSION_WORDS: usize = 4;
// the words of a node record: of its name, of a leaf's index or the number of direct children, of how many nodes it contains
pub const NAME_PLACE: usize = 3;

pub const NAME_LENGTH: usize = 4;

pub const LEAF_INDEX: usize = 5;

pub const NODE_SIZE: usize = 6;
// the word of a dimension's entry that is its n
pub const DIMENSION_N: usize = 2;
// the parent of a node that has none
pub const NO_PARENT: u32 = 4294967295;

// from the end of a leaf's name to its index: three bytes and the number 2 of four bytes (003, Categories)
pub const NAME_TO_INDEX: usize = 7;

// areas that suffice for the records of every member
pub const NODE_AREA: usize = NODE_WORDS * MOST_NODES;

pub const CELL_AREA: usize = CELL_WORDS * MOST_CELLS;

// the entries of all dimensions
pub const DIMENSION_AREA: usize = DIMENSION_WORDS * MOST_DIMENSIONS;

// an answer as words: eight numbers, the entries of the dimensions and the axis order
pub const ANSWER_WORDS: usize = 8 + DIMENSION_AREA + MOST_DIMENSIONS;

// what a Value says as words: the refusal, its place, the length, the bytes 00, and 18 words of the form; of an Argument
pub const VALUE_ANSWER_WORDS: usize = 22;

pub const ARGUMENT_ANSWER_WORDS: usize = 5;

// ---- document 02, T-01

// the answer for one leaf as words: the refusal, its place, nodes, cells, and the totals
pub const TOTAL_ANSWER_WORDS: usize = 13;
// the answer for all leaves of a dimension: the refusal, its place, nodes, cells, leaves; and for each leaf its refusal, place and totals
pub const TOTALS_ANSWER_WORDS: usize = 5;

pub const LEAF_TOTAL_WORDS: usize = 11;

// ---- document 02, T-09

// the most members of a list, and the words of the answer before those of the members: the refusal and its place
pub const MOST_MEMBERS: usize = 64;

pub const MEMBERS_ANSWER_WORDS: usize = 2;

// ---- document 02, T-11

// a cell's position as words: the refusal, its place, layer, row, column; and the index of a position: the refusal, its place, the index
pub const POSITION_ANSWER_WORDS: usize = 5;

pub const INDEX_ANSWER_WORDS: usize = 3;

// ---- the interface for C

// its version, which the header has too: 2 since a node record has seven words, 3 since an old look has the words of a new one (our rule)
pub const ABI: u32 = 3;

// ---- looks

// the longest look, of version 02 with names of 255 bytes (document 02, T-02)
pub const LONGEST_LOOK: usize = 3160;
// a look as words; with the refusal and its place before them
pub const LOOK_WORDS: usize = 262;

pub const LOOK_ANSWER_WORDS: usize = 2 + LOOK_WORDS;
// the place of a continuation that stands in no file (document 02, T-10; our rule)
pub const NO_PLACE: u32 = 4294967295;
// the refusal, its place and the length of a look that was written
pub const WRITE_ANSWER_WORDS: usize = 3;

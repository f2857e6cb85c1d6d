// The first repeat among the first words of records. Any words get an answer: a word past the last counts as 0. A number of records
// above the most cells counts as that, a record longer than a node's as one of these.
// A step is a comparison of an index, a look for its mark or for a next place, or a store of either: each stands next to its `+= 1`.
#![tactic(auto)]

ghost use Rattle.std.specs.Prelude.{◌≡◌, true, [], ◌+◌, ◌*◌, ◌≤◌, ◌<◌, min, length};
ghost use Rattle.sizes.specs.Sizes.{most_cells, node_words, repeat_steps};
ghost use Rattle.grammar.specs.Repeat.{strided, Answered};
ghost use Rattle.once.specs.Laws.Marks.{Marks};
ghost use Rattle.repeats.specs.Laws.Repeats.{Compared, ByMarks};
ghost use Rattle.repeats.specs.Laws.Places.{PlaceTrees, Empty, buckets};
ghost use Rattle.repeats.specs.Laws.Places as spec;

use once::word;
use sizes::{MOST_CELLS, NODE_WORDS};

// So many numbers or fewer are compared pair by pair, where neither their order nor their marks tell: that is sooner done than slots
// are cleared.
const FEW: usize = 32;

// So many numbers or fewer have the short list of marks or of slots, which is sooner cleared.
const SHORT_UP_TO: usize = 512;

const SHORT_MARKS: usize = 1024;

const LONG_MARKS: usize = 16384;

// A slot for the first place of each tree, and four after each place.
const BUCKETS: usize = 4096;

const SHORT_SLOTS: usize = BUCKETS + 4 * SHORT_UP_TO;

const LONG_SLOTS: usize = BUCKETS + 4 * MOST_CELLS;

// The place of the first number that stands at an earlier place too, or how many numbers there are where none does; and how many steps
// it took to find. No Option for the place: `Answered`, which `first_repeat` promises, speaks of the place after the last where none repeats.
#[derive(Clone, Copy)]
pub struct Repeat {
    pub at: usize,
    pub steps: u64,
}

impl Repeat {
    // The same, found after so many steps more.
    fn after(self, steps: u64) -> Repeat
        requires { steps + self.steps ≤ repeat_steps * most_cells }
        ensures { (result.at ≡ self.at) × (result.steps ≡ steps + self.steps) }
    {
        Repeat {
            at: self.at,
            steps: steps + self.steps,
        }
    }
}

// The first words of the first `count` records of so many words.
#[derive(Clone, Copy)]
struct Numbers<'a> {
    words: &'a [u32],
    step: usize,
    count: usize,
    ghost short: { step ≤ node_words },
    ghost few: { count ≤ most_cells },
}

impl<'a> Numbers<'a> {
    // The number at place j.
    fn nth(&self, j: usize) -> u32
        requires { j ≤ most_cells }
        ensures { result ≡ strided self.now.step self.now.words.now j }
    {
        word(self.words, self.step * j)
    }

    // ---- in ascending order

    // Whether they are in strictly ascending order, so that none repeats another; and how many steps it took to find out.
    fn ascend(&self) -> (bool, u64)
        ensures few { result.1 ≤ self.now.count }
        ensures none { result.0 ≡ true → Answered (strided self.now.step self.now.words.now) self.now.count 1 self.now.count result.1 }
    {
        let mut last = self.nth(0);
        let mut steps: u64 = 0;
        for j in 1..self.count {
            let x = self.nth(j);
            steps += 1; // the comparison with the number before
            if x <= last {
                return (false, steps);
            }
            last = x;
        }
        (true, steps)
    }

    // ---- small numbers

    // The first repeat, by marks of which none is set; or the place of a number that has no mark, where that comes first. And how many
    // steps it took.
    fn by_marks(&self, marks: &mut [u8]) -> (Result<usize, usize>, u64)
        requires { Marks (length marks.old) marks.old [] }
        ensures { ByMarks (strided self.now.step self.now.words.now) self.now.count result.0 result.1 }
    {
        let mut steps: u64 = 0;
        for k in 0..self.count {
            let x = self.nth(k) as usize;
            steps += 1; // the comparison with the number of marks
            if marks.len() <= x {
                return (Err(k), steps);
            }
            steps += 1; // the look for its mark
            if marks[x] != 0 {
                return (Ok(k), steps);
            }
            steps += 1; // the store of its mark
            marks[x] = 1;
        }
        (Ok(self.count), steps)
    }

    // ---- few numbers

    // Whether x is one of the first k, which are compared one after the other; and how many steps it took.
    fn compare(&self, k: usize, x: u32) -> (bool, u64)
        requires { k ≤ most_cells }
        ensures { Compared (strided self.now.step self.now.words.now) k x result.0 result.1 }
    {
        let mut steps: u64 = 0;
        for i in 0..k {
            steps += 1; // the comparison with an earlier number
            if self.nth(i) == x {
                return (true, steps);
            }
        }
        (false, steps)
    }

    // The first repeat among few numbers, where every pair is compared.
    fn by_pairs(&self) -> Repeat
        requires { self.now.count ≤ 34 }
        ensures { Answered (strided self.now.step self.now.words.now) self.now.count 34 result.at result.steps }
    {
        let mut steps: u64 = 0;
        for k in 0..self.count {
            let (old, more) = self.compare(k, self.nth(k));
            steps += more;
            if old {
                return Repeat { at: k, steps };
            }
        }
        Repeat {
            at: self.count,
            steps,
        }
    }

    // ---- many numbers

    // Whether x is in the trees of the first k places, where place k is put if it is new; and how many steps it took.
    fn look(&self, k: usize, x: u32, slots: &mut [u16]) -> (bool, u64)
        requires { (k < most_cells) × (buckets + 4 * k + 4 ≤ length slots.old) × PlaceTrees (strided self.now.step self.now.words.now) k slots.old }
        ensures { spec.Looked (strided self.now.step self.now.words.now) k x slots.new result.0 result.1 }
    {
        let mut slot = bucket(x);
        let mut rest = x;
        let mut steps: u64 = 0;
        loop {
            let next = slots[slot] as usize;
            steps += 1; // the look for the next place
            if next == 0 {
                steps += 1; // the store of place k
                slots[slot] = (k + 1) as u16;
                return (false, steps);
            }
            let at = next - 1;
            steps += 1; // the comparison with its number
            if self.nth(at) == x {
                return (true, steps);
            }
            slot = BUCKETS + 4 * at + (rest % 4) as usize;
            rest /= 4;
        }
    }

    // The first repeat, by trees of the places before.
    fn by_trees(&self, slots: &mut [u16]) -> Repeat
        requires { Empty (strided self.now.step self.now.words.now) self.now.count slots.old }
        ensures { Answered (strided self.now.step self.now.words.now) self.now.count 34 result.at result.steps }
    {
        let mut steps: u64 = 0;
        for place in 0..self.count {
            let (old, more) = self.look(place, self.nth(place), slots);
            steps += more;
            if old {
                return Repeat { at: place, steps };
            }
        }
        Repeat {
            at: self.count,
            steps,
        }
    }

    // ---- lists

    fn with_marks<const MARKS: usize>(&self) -> (Result<usize, usize>, u64)
        requires { MARKS ≤ LONG_MARKS }
        ensures { ByMarks (strided self.now.step self.now.words.now) self.now.count result.0 result.1 }
    {
        let mut marks = [0u8; MARKS];
        self.by_marks(&mut marks)
    }

    fn with_slots<const SLOTS: usize>(&self) -> Repeat
        requires { (buckets + 4 * self.now.count ≤ SLOTS) × (SLOTS ≤ LONG_SLOTS) }
        ensures { Answered (strided self.now.step self.now.words.now) self.now.count 34 result.at result.steps }
    {
        let mut slots = [0u16; SLOTS];
        self.by_trees(&mut slots)
    }

    // The first repeat: the marks tell, or the numbers are compared. Each list is in a function of its own, so that the slots can have the
    // place of the marks.
    fn with_lists<const MARKS: usize, const SLOTS: usize>(&self) -> Repeat
        requires { (MARKS ≤ LONG_MARKS) × (buckets + 4 * self.now.count ≤ SLOTS) × (SLOTS ≤ LONG_SLOTS) }
        ensures { Answered (strided self.now.step self.now.words.now) self.now.count 37 result.at result.steps }
    {
        let (marked, steps) = self.with_marks::<MARKS>();
        if let Ok(at) = marked {
            return Repeat { at, steps };
        }
        if self.count <= FEW {
            return self.by_pairs().after(steps);
        }
        self.with_slots::<SLOTS>().after(steps)
    }
}

// The slot for the first place of the tree in which the number x is looked for: the high bits of a product.
fn bucket(x: u32) -> usize
    ensures { result ≡ spec.bucket x }
{
    (x as u64 * 2654435769 % 4294967296 / 1048576) as usize
}

// The first repeat among the first words of the first m records of so many words: their order tells, or their marks, or they are compared.
// It calls itself: into such a function the compiler puts none that has long lists. So the long ones are there for many numbers only.
pub fn first_repeat(words: &[u32], step: usize, m: usize) -> Repeat
    ensures { Answered (strided (min step node_words) words.now) (min m most_cells) repeat_steps result.at result.steps }
{
    if MOST_CELLS < m {
        return first_repeat(words, step, MOST_CELLS);
    }
    let numbers = Numbers {
        words,
        step: step.min(NODE_WORDS),
        count: m,
    };
    let (ordered, steps) = numbers.ascend();
    if ordered {
        return Repeat { at: m, steps };
    }
    if m <= SHORT_UP_TO {
        numbers
            .with_lists::<SHORT_MARKS, SHORT_SLOTS>()
            .after(steps)
    } else {
        numbers.with_lists::<LONG_MARKS, LONG_SLOTS>().after(steps)
    }
}

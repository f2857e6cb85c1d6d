// A member that was accepted.
ghost use Rattle.std.specs.Prelude.{ℕ, ◌<◌, get_or};

use answer::Answer;

// A member that was accepted: its bytes, what was answered, and the lists that begin with its records. A proof isn't told that what a slice in
// a struct holds are bytes. That it was accepted, `Taken`, is data and no proposition, so it is a clause and no ghost field.
#[derive(Clone, Copy)]
pub struct Accepted<'a> {
    pub member: &'a [u8],
    pub answer: &'a Answer,
    pub node_list: &'a [u32],
    pub cell_list: &'a [u32],
    pub ghost are_bytes: { (i : ℕ) → get_or member.now i 0 < 256 },
}

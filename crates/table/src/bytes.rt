// The bytes of a member.
ghost use Rattle.std.specs.Prelude.{◌≤◌, ◌<◌, ℕ, length, get_or};
ghost use Rattle.sizes.specs.Sizes.{member_bytes};

// The bytes of a member, no more than a member has, and its version. A proof isn't told that what a slice in a struct holds are bytes.
#[derive(Clone, Copy)]
pub struct Member<'a> {
    pub bytes: &'a [u8],
    pub version: u64,
    pub ghost are_bytes: { (i : ℕ) → get_or bytes.now i 0 < 256 },
    pub ghost short: { length bytes.now ≤ member_bytes },
}

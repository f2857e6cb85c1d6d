// How far a walk is.
ghost use Rattle.std.specs.Prelude.{◌≤◌};
ghost use Rattle.sizes.specs.Sizes.{most_nodes};

// The next position, and the number of nodes so far, no more than a member has.
#[derive(Clone, Copy)]
pub struct Reached {
    pub at: usize,
    pub used: usize,
    pub ghost few: { used ≤ most_nodes },
}

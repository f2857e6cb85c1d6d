// A way to convert a text, character by character. (Places are those of the whole text and output: refusals name them, and `valid_up_to` counts
// them so.)
ghost use Rattle.std.specs.Prelude.{◌≡◌, ◌<◌, List, ℕ, length};
ghost use Rattle.codepages.specs.Laws.Passes.{Plain, Ready, Wrote};
ghost use Rattle.codepages.specs.Found.{FoundAt};

// Bytes taken from the input, at least one, and how many are made of them.
#[derive(Clone, Copy, Debug, PartialEq, Eq)]
pub struct Taken {
    pub taken: usize,
    pub made: usize,
}

pub trait Way {
    ghost use Rattle.convert.specs.Convert.{Step};

    // what the character at the front of a text becomes
    ghost step: { Self → List ℕ → Step };

    // What stands at a place: several characters, or one, or none that can be converted.
    fn find(&self, input: &[u8], i: usize) -> Option<Taken>
        requires { i < length input.now }
        ensures { FoundAt (step self.now) input.now i result };

    // Stores one character, of a text that is known to be converted whole and to have room.
    fn store_one(&self, input: &[u8], i: usize, out: &mut [u8], w: usize) -> Taken
        requires inside { i < length input.now }
        requires ready { Ready (step self.now) input.now i out.old w }
        ensures { Wrote (step self.now) input.now i out.old w result.taken result.made out.new };

    // bytes under 128 stand for themselves
    ghost plain: { (way : Self) → Plain (step way) };
}

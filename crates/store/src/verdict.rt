// The verdicts of tests that only looks have.
ghost use Rattle.std.specs.Prelude.{◌≡◌, [], ◌∷◌, IfErr};
ghost use Rattle.grammar.specs.Layout.{a_color, a_version};
ghost use Rattle.refusals.specs.declared.Reason.TheVariants.{Color, Version};
ghost use Rattle.refusals.specs.Verdicts.{code};
ghost use Rattle.layout.specs.Reads.{verdict};

use layout::number::{unless, unless_either};
use refusals::{Reason, Verdict};

pub fn high_byte(v: u64) -> Verdict
    ensures code { code result ≡ verdict a_color v }
    ensures reason { IfErr result (λ r. r ≡ Color) }
{
    unless(v < 16777216, Reason::Color)
}

pub fn known_one(v: u64, a: u64) -> Verdict
    ensures code { code result ≡ verdict (a_version (a ∷ [])) v }
    ensures reason { IfErr result (λ r. r ≡ Version) }
{
    unless(v == a, Reason::Version)
}

pub fn known_two(v: u64, a: u64, b: u64) -> Verdict
    ensures code { code result ≡ verdict (a_version (a ∷ b ∷ [])) v }
    ensures reason { IfErr result (λ r. r ≡ Version) }
{
    unless_either(v, a, b, Err(Reason::Version))
}

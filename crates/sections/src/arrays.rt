// Arrays of rows of numbers, skipped without visiting each.
ghost use Rattle.grammar.specs.Conventions as notation;
ghost use Rattle.layout.specs.Reads.{Reads};
ghost use Rattle.grammar.specs.Sections as grammar;

use layout::number::any;
use layout::{BIG, LITTLE, Step};
use regions::production::Production;
use regions::rows::{Row, counted};

// A Border; a PointKeep is laid out the same.
#[derive(Clone, Copy)]
struct Triple;

impl Production for Triple {
    ghost layout = { λ _. grammar.Border };

    fn read(&self, s: &[u8], st: Step) -> Step {
        let st = any(s, st, 4);
        let st = any(s, st, 4);
        any(s, st, 4)
    }
}

impl Row for Triple {
    fn size(&self) -> usize {
        12
    }
}

// A count and as many Borders.
pub fn triples(s: &[u8], st: Step) -> Step
    ensures { Reads (notation.bemany grammar.Border) s.now st result }
{
    counted(s, st, BIG, &Triple)
}

#[derive(Clone, Copy)]
struct Pair;

impl Production for Pair {
    ghost layout = { λ _. grammar.Keep };

    fn read(&self, s: &[u8], st: Step) -> Step {
        let st = any(s, st, 4);
        any(s, st, 4)
    }
}

impl Row for Pair {
    fn size(&self) -> usize {
        8
    }
}

pub fn pairs(s: &[u8], st: Step) -> Step
    ensures { Reads grammar.Keeps s.now st result }
{
    counted(s, st, BIG, &Pair)
}

#[derive(Clone, Copy)]
struct StyleMap;

impl Production for StyleMap {
    ghost layout = { λ _. grammar.StyleMap };

    fn read(&self, s: &[u8], st: Step) -> Step {
        let st = any(s, st, 8);
        any(s, st, 2)
    }
}

impl Row for StyleMap {
    fn size(&self) -> usize {
        10
    }
}

pub fn style_maps(s: &[u8], st: Step) -> Step
    ensures { Reads (notation.many grammar.StyleMap) s.now st result }
{
    counted(s, st, LITTLE, &StyleMap)
}

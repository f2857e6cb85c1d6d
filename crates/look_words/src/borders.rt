// The words of borders: separators one by one, in fours, and the eleven of version 02.
ghost use Rattle.grammar.specs.Layout.{spell_all};
ghost use Rattle.look_words.specs.LookWords as spec;
ghost use Rattle.store.specs.Puts.{PutsWords};

use crate::words::put;
use layout::Step;
use look::{Frame, Frames, Lines, Separator};

fn separator(out: &mut [u32], st: Step, x: Separator) -> Step
    ensures { PutsWords (spec.separator x) out.old st out.new result }
{
    match x {
        Separator::NotDrawn => put(out, st, &[0, 0, 0, 0]),
        Separator::Drawn {
            color,
            style,
            width,
        } => put(out, st, &[1, color, style as u32, width as u32]),
    }
}

fn separators(out: &mut [u32], st: Step, xs: &[Separator]) -> Step
    ensures { PutsWords (spell_all spec.separator xs.now) out.old st out.new result }
{
    let mut st = st;
    for x in xs {
        st = separator(out, st, *x);
    }
    st
}

pub fn lines(out: &mut [u32], st: Step, x: Lines) -> Step
    ensures { PutsWords (spec.lines x) out.old st out.new result }
{
    let xs = [
        x.horizontal_dimension,
        x.vertical_dimension,
        x.horizontal_category,
        x.vertical_category,
    ];
    separators(out, st, &xs)
}

fn frame(out: &mut [u32], st: Step, x: Frame) -> Step
    ensures { PutsWords (spec.frame x) out.old st out.new result }
{
    separators(out, st, &[x.left, x.right, x.top, x.bottom])
}

pub fn frames(out: &mut [u32], st: Step, x: Frames) -> Step
    ensures { PutsWords (spec.frames x) out.old st out.new result }
{
    let st = separator(out, st, x.title);
    let st = frame(out, st, x.inner);
    let st = frame(out, st, x.outer);
    let st = separator(out, st, x.data_left);
    separator(out, st, x.data_top)
}

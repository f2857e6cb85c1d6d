// The words of areas: their colors and styles.
ghost use Rattle.look_words.specs.LookWords as spec;
ghost use Rattle.store.specs.Puts.{PutsWords};

use crate::word;
use crate::words::put;
use layout::Step;
use look::{Alignment, Area, AreaColor, Font, MostAreas, Typeface};
use store::write::to_bits;

fn area_color(out: &mut [u32], st: Step, x: AreaColor) -> Step
    ensures { PutsWords (spec.area_color x) out.old st out.new result }
{
    put(out, st, &[x.color10, x.color0, x.shading as u32])
}

fn alignment(out: &mut [u32], st: Step, x: Alignment) -> Step
    ensures { PutsWords (spec.alignment x) out.old st out.new result }
{
    put(
        out,
        st,
        &[
            x.valign as u32,
            x.halign as u32,
            x.decimal_offset as u32,
            x.left_margin as u32,
            x.right_margin as u32,
            x.top_margin as u32,
            x.bottom_margin as u32,
        ],
    )
}

fn font(out: &mut [u32], st: Step, x: Font) -> Step
    ensures { PutsWords (spec.font x) out.old st out.new result }
{
    put(
        out,
        st,
        &[
            to_bits(x.font_size),
            x.stretch as u32,
            x.rotation_angle,
            x.weight as u32,
        ],
    )
}

fn typeface(out: &mut [u32], st: Step, x: Typeface) -> Step
    ensures { PutsWords (spec.typeface x) out.old st out.new result }
{
    put(
        out,
        st,
        &[
            x.italic as u32,
            x.underline as u32,
            x.strikethrough as u32,
            x.rtf_charset_number,
            x.x as u32,
            word(x.font_name.place),
            word(x.font_name.length),
            x.text_color,
        ],
    )
}

pub fn area(out: &mut [u32], st: Step, x: Area) -> Step
    ensures { PutsWords (spec.area x) out.old st out.new result }
{
    let st = area_color(out, st, x.color);
    let st = alignment(out, st, x.style.alignment);
    let st = font(out, st, x.style.font);
    typeface(out, st, x.style.typeface)
}

pub fn most_areas(out: &mut [u32], st: Step, x: MostAreas) -> Step
    ensures { PutsWords (spec.most_areas x) out.old st out.new result }
{
    let st = area(out, st, x.layers);
    let st = area(out, st, x.corner);
    let st = area(out, st, x.row_labels);
    let st = area(out, st, x.column_labels);
    let st = area(out, st, x.data);
    let st = area(out, st, x.caption);
    area(out, st, x.footer)
}

// The double of a Value that is a number, and the form that has it, for those who ask for no more: no other form is read.
ghost use Rattle.std.specs.Prelude.{◌≡◌, true, [], ◌∷◌, IfSome};
ghost use Rattle.sizes.specs.Basics.{among};
ghost use Rattle.contents.specs.Laws.Answers.{value_answer};
ghost use Rattle.contents.specs.Laws.Figure as spec;

use crate::forms::{form_01, form_02};
use crate::plain::{is_plain, plain_bits};
use crate::{RawValue, readable};
use fields::Read;
use layout::LITTLE;
use layout::number::{any, peek};
use layout::run::skip;
use value::cell_zeros;

// The form, 1 or 2, by its number as in `RawValue`, and the bits of the double.
#[derive(Clone, Copy)]
pub struct Figure {
    pub form: u32,
    pub bits: u64,
}

// The figure of a form; none after a refusal. What is given has form 1 or 2: so there is one answer alone for each Value (here and below).
fn figure_of(read: Read<RawValue>) -> Option<Figure>
    ensures value { spec.figure_or_none result ≡ spec.figure_said read }
    ensures there { IfSome result (λ x. among x.form (1 ∷ 2 ∷ []) ≡ true) }
{
    let Ok((x, _)) = read else {
        return None;
    };
    let number = x.form == 1 || x.form == 2;
    if number {
        Some(Figure {
            form: x.form,
            bits: x.bits,
        })
    } else {
        None
    }
}

// A figure after the bytes 00 of a Value, by the first byte that follows.
fn figure_at(s: &[u8], version: u64) -> Option<Figure>
    ensures value { spec.figure_or_none result ≡ spec.figure (value_answer version s.now).raw }
    ensures there { IfSome result (λ x. among x.form (1 ∷ 2 ∷ []) ≡ true) }
{
    if readable(s, version).is_err() {
        return None;
    }
    let start = skip(s, Ok(0), 0, cell_zeros(version));
    let at = any(s, start, 1);
    match peek(s, start, LITTLE, 1) {
        1 => figure_of(form_01(s, at, version)),
        2 => figure_of(form_02(s, at, version)),
        _ => None,
    }
}

// The figure of the Value in front of the bytes, in a member of that version.
pub fn read_figure(s: &[u8], version: u64) -> Option<Figure>
    ensures value { spec.figure_or_none result ≡ spec.figure (value_answer version s.now).raw }
    ensures there { IfSome result (λ x. among x.form (1 ∷ 2 ∷ []) ≡ true) }
{
    if is_plain(s, version) {
        Some(Figure {
            form: 1,
            bits: plain_bits(s),
        })
    } else {
        figure_at(s, version)
    }
}

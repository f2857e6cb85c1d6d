// Areas, by the rule: alignments, fonts and their names.
ghost use Rattle.std.specs.Prelude.{◌≡◌};
ghost use Rattle.look_rules.specs.StyleRule as spec;
ghost use Rattle.look_rules.specs.StyleRule.{each, align_rule, alignment_rule, size_rule, font_rule, name_rule, typeface_rule, AreaStyleRule, MostAreasRule, PVTextStyleRule};
ghost use Rattle.look_rules.specs.Checks.{Checks};

use crate::verdict::{past, told};
use fields::read::{color, fixed_byte, int16, int32, zeros};
use layout::number::{any, boolean};
use layout::{LITTLE, Step};
use look::areas::area_color;
use look::section::section;
use refusals::Reason;
use regions::region::string;

// The last valign and the last halign that 002 lists.
const LAST_VALIGN: u16 = 2;

const LAST_HALIGN: u16 = 4;

// The greatest height of a font.
const MOST_HEIGHT: u64 = 1000000;

// An alignment up to the last that is listed.
fn aligned(s: &[u8], st: Step, last: u16) -> Step
    ensures { Checks (align_rule last) s.now st result }
{
    let at = st?;
    let (value, next) = int16(s, Ok(at))?;
    told(at, next, value <= last, Reason::NoMeaning)
}

// valign, halign, decimal-offset and the margins.
fn alignment(s: &[u8], st: Step) -> Step
    ensures { Checks alignment_rule s.now st result }
{
    let st = aligned(s, st, LAST_VALIGN);
    let st = aligned(s, st, LAST_HALIGN);
    let st = any(s, st, 2);
    let st = any(s, st, 2);
    let st = any(s, st, 2);
    let st = any(s, st, 2);
    let st = any(s, st, 2);
    let st = fixed_byte(s, st, 0);
    let st = fixed_byte(s, st, 0);
    let st = fixed_byte(s, st, 1);
    fixed_byte(s, st, 0)
}

// Whether a font size, by its bits, is below 0 and has a height that is allowed.
fn has_height(bits: u32) -> bool
    ensures { result ≡ spec.has_height bits }
{
    2147483648 <= bits && 4294967296 - u64::from(bits) <= MOST_HEIGHT
}

fn font_size(s: &[u8], st: Step) -> Step
    ensures { Checks size_rule s.now st result }
{
    let at = st?;
    let (bits, next) = int32(s, Ok(at))?;
    told(at, next, has_height(bits), Reason::Limit)
}

fn font(s: &[u8], st: Step) -> Step
    ensures { Checks font_rule s.now st result }
{
    let st = font_size(s, st);
    let st = any(s, st, 2);
    let st = zeros(s, st, 2);
    let st = any(s, st, 4);
    let st = zeros(s, st, 4);
    let st = any(s, st, 2);
    zeros(s, st, 2)
}

// A font name without a zero byte.
fn font_name(s: &[u8], st: Step) -> Step
    ensures { Checks name_rule s.now st result }
{
    string(s, st, LITTLE, 1)
}

fn typeface(s: &[u8], st: Step) -> Step
    ensures { Checks typeface_rule s.now st result }
{
    let st = boolean(s, st);
    let st = boolean(s, st);
    let st = boolean(s, st);
    let st = any(s, st, 4);
    let st = any(s, st, 1);
    let st = font_name(s, st);
    let st = past(color(s, st));
    zeros(s, st, 2)
}

fn area_style(s: &[u8], st: Step) -> Step
    ensures { Checks AreaStyleRule s.now st result }
{
    let st = alignment(s, st);
    let st = font(s, st);
    typeface(s, st)
}

fn area(s: &[u8], st: Step) -> Step
    ensures { Checks MostAreasRule s.now st result }
{
    let st = fixed_byte(s, st, 6);
    let st = fixed_byte(s, st, 0x80);
    let st = past(area_color(s, st));
    let st = fixed_byte(s, st, 8);
    let st = fixed_byte(s, st, 0x80);
    let st = fixed_byte(s, st, 0);
    area_style(s, st)
}

// n areas, layers first. As `borders::separators`: one function of both would take the rule by a trait, and be longer than the two loops.
fn areas(s: &[u8], st: Step, n: usize) -> Step
    ensures { Checks (each {n = n} MostAreasRule) s.now st result }
{
    let mut st = st;
    for _ in 0..n {
        st = area(s, st);
    }
    st
}

pub fn text_style(s: &[u8], st: Step) -> Step
    ensures { Checks PVTextStyleRule s.now st result }
{
    let st = section(s, st, b"PVTextStyle");
    let st = fixed_byte(s, st, 0);
    let st = area_style(s, st);
    areas(s, st, 7)
}

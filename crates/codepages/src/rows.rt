// From UTF-8, by the rows of a page.
ghost use Rattle.std.specs.Prelude.{◌≡◌, true, ◌+◌, ◌*◌, ◌≤◌, ◌<◌, length, get_or, drop};
ghost use Rattle.pages.specs.Numbers.{index};
ghost use Rattle.convert.specs.Pages as pages;
ghost use Rattle.convert.specs.Utf8 as utf8_spec;
ghost use Rattle.convert.specs.Convert.{from};
ghost use Rattle.convert.specs.Laws.Places.{groups, rows_of, look};
ghost use Rattle.codepages.specs.Found.{IsBelow};
ghost use Rattle.codepages.specs.Laws.Passes.{Skips, plain_from};
ghost use Rattle.codepages.specs.Laws.Back.{or_none};

use crate::tables::{BACK_1250, BACK_1251, BACK_1252, ROWS};
use crate::utf8::lead_size;
use crate::way::{Taken, Way};
use ascii::{ASCII, run_end};
use pages::Page;

// the first byte of each character of three bytes that stands in a page
const LEAD: u8 = 226;

#[derive(Clone, Copy)]
pub struct FromUtf8 {
    page: Page,
    rows: &'static [u8; ROWS],
    ghost are: { rows.now ≡ rows_of (index page) },
}

impl FromUtf8 {
    pub fn new(page: Page) -> FromUtf8
        ensures { result.page ≡ page }
    {
        match page {
            Page::Windows1250 => FromUtf8 {
                page,
                rows: &BACK_1250,
            },
            Page::Windows1251 => FromUtf8 {
                page,
                rows: &BACK_1251,
            },
            Page::Windows1252 => FromUtf8 {
                page,
                rows: &BACK_1252,
            },
        }
    }

    // The number in the rows for the lowest six bits d of a code point of group i.
    fn look_up(&self, i: usize, d: usize) -> u8
        requires { (i < groups) × (d < 64) }
        ensures { result ≡ look (index self.now.page) i d }
    {
        let row = self.rows[i] as usize;
        self.rows[64 * row + d]
    }

    // The byte of the character at a place, if it has one. No page has a character of four bytes, so the bytes of that row are not read.
    fn character(&self, input: &[u8], i: usize) -> Option<u8>
        requires { i < length input.now }
        ensures { IsBelow pages.no_byte (pages.byte (index self.now.page) (utf8_spec.decode (drop i input.now))) result }
    {
        let a = input[i];
        if a < ASCII {
            return Some(a);
        }
        if a < 224 {
            return self.two(a, byte_at(input, i + 1));
        }
        if a < 240 {
            return self.three(a, byte_at(input, i + 1), byte_at(input, i + 2));
        }
        None
    }

    // The byte of a character of two bytes. C0 and C1 have a row of none, since they begin overlong forms.
    fn two(&self, a: u8, b: u8) -> Option<u8>
        requires { (128 ≤ a) × (a < 224) }
        ensures { IsBelow pages.no_byte (pages.byte (index self.now.page) (utf8_spec.row_two a b)) result }
    {
        if 192 <= a && b / 64 == 2 {
            return or_none(self.look_up((a - 192) as usize, (b - 128) as usize));
        }
        None
    }

    // The same for three: only those from E2 80 to E2 87 stand in any page.
    fn three(&self, a: u8, b: u8, d: u8) -> Option<u8>
        requires { (224 ≤ a) × (a < 240) }
        ensures { IsBelow pages.no_byte (pages.byte (index self.now.page) (utf8_spec.row_three a b d)) result }
    {
        if a == LEAD && b / 8 == 16 && d / 64 == 2 {
            return or_none(self.look_up((b - 96) as usize, (d - 128) as usize));
        }
        None
    }

    // How many characters of two bytes stand at a place, one after the other. (A loop of its own, since they come in runs. A `for`
    // would need the most that there can be, and end in two ways.)
    fn find_twos(&self, input: &[u8], i: usize) -> usize
        requires { i ≤ length input.now }
        ensures { Skips (from (index self.now.page)) input.now i (2 * result) result }
    {
        let mut m: usize = 0;
        while self.two_at(input, i + 2 * m) {
            m += 1;
        }
        m
    }

    // Whether a character of two bytes stands at a place, and in the page. (Both bytes are read before either is tested, with one test
    // of the length.)
    fn two_at(&self, input: &[u8], j: usize) -> bool
        requires { j ≤ length input.now }
        ensures { result ≡ true → Skips (from (index self.now.page)) input.now j 2 1 }
    {
        if input.len() - j < 2 {
            return false;
        }
        let a = input[j];
        let b = input[j + 1];
        a / 32 == 6 && self.two(a, b).is_some()
    }

    // The byte of a character that is known to have one: nothing is tested again.
    fn known_two(&self, input: &[u8], i: usize) -> u8
        requires { (i < length input.now) × (pages.byte (index self.now.page) (utf8_spec.decode (drop i input.now)) < pages.no_byte) × (128 ≤ get_or input.now i 0) × (get_or input.now i 0 < 224) }
        ensures { result ≡ pages.byte (index self.now.page) (utf8_spec.decode (drop i input.now)) }
    {
        self.look_up(input[i] as usize - 192, input[i + 1] as usize - 128)
    }

    fn known_three(&self, input: &[u8], i: usize) -> u8
        requires { (i < length input.now) × (pages.byte (index self.now.page) (utf8_spec.decode (drop i input.now)) < pages.no_byte) × (224 ≤ get_or input.now i 0) × (get_or input.now i 0 < 240) }
        ensures { result ≡ pages.byte (index self.now.page) (utf8_spec.decode (drop i input.now)) }
    {
        self.look_up(input[i + 1] as usize - 96, input[i + 2] as usize - 128)
    }
}

// The byte at a place, 0 past the end.
fn byte_at(input: &[u8], i: usize) -> u8
    ensures { result ≡ get_or input.now i 0 }
{
    input.get(i).copied().unwrap_or(0)
}

fn or_none(x: u8) -> Option<u8>
    ensures { IsBelow pages.no_byte (or_none x) result }
{
    if x == 0 { None } else { Some(x) }
}

impl Way for FromUtf8 {
    ghost step = { λ way. from (index way.page) };

    // A run of bytes under 128, or characters of two bytes, or one character.
    fn find(&self, input: &[u8], i: usize) -> Option<Taken> {
        if input[i] < ASCII {
            let n = run_end(input, i + 1) - i;
            return Some(Taken { taken: n, made: n });
        }
        let m = self.find_twos(input, i);
        if 0 < m {
            return Some(Taken {
                taken: 2 * m,
                made: m,
            });
        }
        self.character(input, i)?;
        Some(Taken {
            taken: lead_size(input[i]),
            made: 1,
        })
    }

    fn store_one(&self, input: &[u8], i: usize, out: &mut [u8], w: usize) -> Taken {
        let a = input[i];
        if a < ASCII {
            out[w] = a;
            return Taken { taken: 1, made: 1 };
        }
        if a < 224 {
            out[w] = self.known_two(input, i);
            return Taken { taken: 2, made: 1 };
        }
        out[w] = self.known_three(input, i);
        Taken { taken: 3, made: 1 }
    }

    ghost plain = { λ way. plain_from (index way.page) };
}

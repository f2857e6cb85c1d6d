// To UTF-8, by the entries of a page.
ghost use Rattle.std.specs.Prelude.{◌≡◌, ◌+◌, ◌*◌, ◌/◌, ◌≤◌, ◌<◌, length, get_or, IfSome};
ghost use Rattle.std.proofs.lemmas.List.Edits.{sets};
ghost use Rattle.pages.specs.Numbers.{index};
ghost use Rattle.convert.specs.Pages as pages;
ghost use Rattle.convert.specs.Utf8 as utf8_spec;
ghost use Rattle.convert.specs.Convert.{to};
ghost use Rattle.codepages.specs.Found.{IsBelow};
ghost use Rattle.codepages.specs.Laws.Passes.{Skips, plain_to};
ghost use Rattle.codepages.specs.Laws.Usual.{many, odd_of, Usual};
ghost use Rattle.codepages.specs.Laws.Pairs.{first_of};

use crate::tables::{ENTRIES, PAGES};
use crate::utf8::{THREE_BYTES, TWO_BYTES, size};
use crate::way::{Taken, Way};
use ascii::{ASCII, long_run_end};
use pages::Page;

// bytes that are counted together
const MANY: usize = 64;

const FEW: usize = 8;

#[derive(Clone, Copy)]
pub struct ToUtf8 {
    page: Page,
    entries: &'static [u16; ENTRIES],
    ghost are: { entries.now ≡ pages.page (index page) },
}

impl ToUtf8 {
    pub fn new(page: Page) -> ToUtf8
        ensures { result.page ≡ page }
    {
        match page {
            Page::Windows1250 => ToUtf8 {
                page,
                entries: &PAGES[0],
            },
            Page::Windows1251 => ToUtf8 {
                page,
                entries: &PAGES[1],
            },
            Page::Windows1252 => ToUtf8 {
                page,
                entries: &PAGES[2],
            },
        }
    }

    // The entry at a place of the page.
    fn entry(&self, i: usize) -> u16
        requires { i < pages.page_entries }
        ensures { result ≡ get_or (pages.page (index self.now.page)) i 0 }
    {
        self.entries[i]
    }

    // The code point of a byte, if it has one.
    fn code_point(&self, b: u8) -> Option<u32>
        ensures { IsBelow pages.no_code_point (pages.code_point (index self.now.page) b) result }
    {
        if b < ASCII {
            return Some(b as u32);
        }
        let e = self.entry((b - ASCII) as usize);
        if e == 0 { None } else { Some(e as u32) }
    }

    // ---- usual bytes: those under 128, and those that have two bytes in UTF-8. They are counted without a table and without an exit on the
    // way, so that many are taken at once.

    // How many bytes the n bytes from i on have in UTF-8, if all are usual.
    fn usual(&self, input: &[u8], i: usize, n: usize) -> Option<usize>
        requires there { i + n ≤ length input.now }
        requires few { n ≤ many }
        ensures { IfSome result (λ m. (n ≤ m) × (m ≤ n + n) × Skips (to (index self.now.page)) input.now i n m) }
    {
        let odd = self.odd();
        let mut high: u8 = 0;
        let mut bad: u8 = 0;
        for b in &input[i..i + n] {
            high += *b / 128;
            bad |= unusual(*b, odd);
        }
        if bad == 0 {
            Some(n + high as usize)
        } else {
            None
        }
    }

    // The byte of the page, beside those from 128 to 159, that is not usual.
    fn odd(&self) -> u8
        ensures { result ≡ odd_of (index self.now.page) }
    {
        match self.page {
            Page::Windows1251 => 185,
            _ => 128,
        }
    }
}

// 0 for a usual byte.
fn unusual(b: u8, odd: u8) -> u8
    ensures { (result ≡ 0 → Usual odd b) × (b < pages.no_byte) }
{
    u8::from(b / 32 == 4) | u8::from(b == odd)
}

impl Way for ToUtf8 {
    ghost step = { λ way. to (index way.page) };

    // Many usual bytes, or few, or one byte.
    fn find(&self, input: &[u8], i: usize) -> Option<Taken> {
        let rest = input.len() - i;
        let n = rest.min(MANY);
        if let Some(made) = self.usual(input, i, n) {
            if made == n {
                let run = long_run_end(input, i + n) - i;
                return Some(Taken {
                    taken: run,
                    made: run,
                });
            }
            return Some(Taken { taken: n, made });
        }
        let few = rest.min(FEW);
        if let Some(made) = self.usual(input, i, few) {
            return Some(Taken { taken: few, made });
        }
        let c = self.code_point(input[i])?;
        Some(Taken {
            taken: 1,
            made: size(c),
        })
    }

    // Stores what a byte becomes. If others follow and its entry has two bytes, two are stored for a byte under 128 too: the second is then
    // overwritten, and there is no branch to miss.
    fn store_one(&self, input: &[u8], i: usize, out: &mut [u8], w: usize) -> Taken {
        let b = input[i];
        let n = b as usize; // once, for both uses
        let e = self.entry(n % 128);
        if e < 2048 && i + 1 < input.len() {
            out[w] = first_of(b, e);
            out[w + 1] = (128 + e % 64) as u8;
            return Taken {
                taken: 1,
                made: 1 + n / 128,
            };
        }
        let c = self.code_point(b).unwrap();
        Taken {
            taken: 1,
            made: put(out, w, c),
        }
    }

    ghost plain = { λ way. plain_to (index way.page) };
}

fn first_of(b: u8, e: u16) -> u8
    requires { e < utf8_spec.three_bytes }
    ensures { (result ≡ first_of b e) × (b < pages.no_byte) }
{
    if b < ASCII { b } else { (192 + e / 64) as u8 }
}

// Stores the bytes of a code point that has at most three; answers how many.
fn put(out: &mut [u8], w: usize, c: u32) -> usize
    requires { (w + length (utf8_spec.encode c) ≤ length out.old) × (c < utf8_spec.four_bytes) }
    ensures { (out.new ≡ sets out.old w (utf8_spec.encode c)) × (result ≡ length (utf8_spec.encode c)) }
{
    if c < TWO_BYTES {
        out[w] = c as u8;
        return 1;
    }
    if c < THREE_BYTES {
        out[w] = (192 + c / 64) as u8;
        out[w + 1] = (128 + c % 64) as u8;
        return 2;
    }
    out[w] = (224 + c / 4096) as u8;
    out[w + 1] = (128 + c / 64 % 64) as u8;
    out[w + 2] = (128 + c % 64) as u8;
    3
}

// The pages that are known, and their numbers.
#![tactic(auto)]

ghost use Rattle.pages.specs.Numbers.{Numbered, IsPage};

use refusals::Reason;

pub const PAGE_COUNT: usize = 3;

// A page, in the order of the numbers.
#[derive(Clone, Copy, Debug, PartialEq, Eq)]
pub enum Page {
    Windows1250,
    Windows1251,
    Windows1252,
}

impl TryFrom<u32> for Page {
    type Error = Reason;

    ghost try_from_gives = { IsPage };

    fn try_from(page: u32) -> Result<Page, Reason> {
        match page {
            1250 => Ok(Page::Windows1250),
            1251 => Ok(Page::Windows1251),
            1252 => Ok(Page::Windows1252),
            _ => Err(Reason::UnknownPage),
        }
    }
}

// The number of a page, PAGE_COUNT if it is unknown. (It stays beside `Page`, since docs/CONTRACTS.md names it.)
pub fn page_number(page: u32) -> usize
    ensures { Numbered page result }
{
    match Page::try_from(page) {
        Ok(known) => known as usize,
        Err(_) => PAGE_COUNT,
    }
}

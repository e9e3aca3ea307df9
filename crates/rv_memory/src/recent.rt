ghost use Rattle.std.specs.Prelude.{ℕ, ◌≡◌, ◌^◌, ◌<◌, IfSome, length, get_or};
ghost use Rattle.rv_memory.specs.Paged as paged;
ghost use Rattle.rv_memory.specs.Indexed.{AreRecent, IsIndexed};

use crate::index::PageIndex;
use crate::page::Page;
use std::alloc::{AllocError, Global};

/// A page that was used of late: its number, and its place among the touched pages.
#[derive(Clone, Copy)]
pub struct Recent {
    pub number: u32,
    pub place: u32,
}

/// The place of a page, if it is the last that was used of those with its low bits.
#[inline(always)]
#[tactic(auto, using(crate::proofs::Places::place_numbered, crate::proofs::Recents::placed_at))]
pub fn find_recent(
    recent: &Vec<Recent>,
    index: &PageIndex,
    pages: &Vec<Page>,
    number: u32,
) -> Option<usize>
    requires indexed { IsIndexed index.now pages.now.items }
    requires recent { AreRecent recent.now.items pages.now.items }
    ensures { IfSome result (λ k. (k < length pages.now.items) × (k ≡ paged.place pages.now.items number)) }
{
    match recent.get((number % 2048) as usize) {
        Some(used) if used.number == number => Some(used.place as usize),
        _ => None,
    }
}

/// Keeps the place of a page as the last that was used of those with its low bits.
#[tactic(auto, using(crate::proofs::Recents::recent_put))]
pub fn remember(recent: &mut Vec<Recent>, pages: &Vec<Page>, number: u32, k: usize)
    requires recent { AreRecent recent.old.items pages.now.items }
    requires there { k < length pages.now.items }
    requires number { (get_or pages.now.items k paged.no_page).number ≡ number }
    requires fits { k < 2 ^ 32 }
    ensures { AreRecent recent.new.items pages.now.items }
{
    let at = (number % 2048) as usize;
    if at < recent.len() {
        recent[at] = Recent {
            number,
            place: k as u32,
        };
    }
}

/// Makes the table of recent pages, if it is not there; at first each is the first page.
#[tactic(auto, using(crate::proofs::Recents::recent_fill))]
pub fn make_recent(
    alloc: Global,
    recent: &mut Vec<Recent>,
    pages: &Vec<Page>,
) -> Result<(), AllocError>
    requires recent { AreRecent recent.old.items pages.now.items }
    requires some { 0 < length pages.now.items }
    ensures { AreRecent recent.new.items pages.now.items }
{
    if recent.is_empty() {
        let first = Recent {
            number: pages[0].number,
            place: 0,
        };
        *recent = vec![in alloc; first; 2048]?;
    }
    Ok(())
}

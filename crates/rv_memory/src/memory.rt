ghost use Rattle.std.specs.Prelude.{ℕ, ◌≡◌, ◌+◌, ◌*◌, ◌/◌, ◌%◌, ◌^◌, ◌++◌, ◌∷◌, ◌<◌, ◌≤◌, ◌↔◌, IfOk, IfSome, IfNone, IfErr, OnOk, OnErr, IsTrue, vec_len, length, get_or, take, true, false, []};
ghost use Rattle.rv_memory.specs.Paged as paged;
ghost use Rattle.rv_memory.specs.Indexed.{AreRecent, IsIndexed};

use crate::index::PageIndex;
use crate::page::{Page, blank, read8, read16, read32, write_all, write8, write16, write32};
use crate::recent::{Recent, find_recent, make_recent, remember};
use std::alloc::{AllocError, Global};
use std::marker::Model;

/// Why a load or a store was refused.
#[derive(Clone, Copy, Debug, PartialEq, Eq)]
pub enum MemFault {
    /// The address is no multiple of the width of the access.
    Misaligned,
    /// The page of the address is new, and `pages`, the limit, were touched already.
    OverLimit { pages: u32 },
    /// There was no memory for the page.
    NoMemory,
}

/// The memory of a machine: 2^32 bytes, in pages of 4,096 that are made, as zeros, when they are touched.
///
/// A new memory holds no page. The second page makes a table of 16 KiB; each new page takes its bytes, and 4 KiB of
/// index for each 4 MiB of addresses that are used.
#[derive(Drop)]
pub struct Memory {
    alloc: Global,
    limit: u32,
    // For the low bits of a page's number, the page with these bits that was used last.
    recent: Vec<Recent>,
    index: PageIndex,
    pages: Vec<Page>,
}

impl Model for Memory {
    ghost use Rattle.std.specs.Prelude.{◌≤◌, ◌<◌, ◌^◌, vec_len};
    ghost use Rattle.rv_memory.specs.Paged.{State, IsWhole};
    ghost use Rattle.rv_memory.specs.Indexed.{AreRecent, IsIndexed};

    ghost Value = { State };

    ghost view = { λ m. record { limit = m.limit; pages = m.pages.items } };

    ghost invariant = { λ m. (IsIndexed m.index m.pages.items) × (IsWhole m.pages.items) × (vec_len m.pages ≤ m.limit) × (m.limit < 2 ^ 32) × (AreRecent m.recent.items m.pages.items) };
}

impl Memory {
    /// A memory in which no page was touched; `limit` is in pages.
    pub fn new(alloc: Global, limit: u32) -> Memory
        ensures { result ≡ record { limit = limit; pages = [] } }
    {
        Memory {
            alloc,
            limit,
            recent: Vec::new(alloc),
            index: PageIndex::new(alloc),
            pages: Vec::new(alloc),
        }
    }

    /// How many pages were touched.
    pub fn pages(&self) -> u32
        ensures count { result ≡ paged.page_count self.now }
        ensures within { result ≤ self.now.limit }
    {
        self.pages.len() as u32
    }

    /// The byte at the address, whose page is touched.
    #[inline(always)]
    #[tactic(auto, using(crate::proofs::Bytes::byte_at_touch))]
    pub fn load8(&mut self, at: u32) -> Result<u32, MemFault>
        ensures value { IfOk result (λ v. v ≡ paged.byte_at self.old at) }
        ensures byte { IfOk result (λ v. v < 2 ^ 8) }
        ensures touched { OnOk result (self.new ≡ paged.touch self.old (at / 4096)) }
        ensures allowed { OnOk result (paged.Allows 1 self.old at) }
        ensures refused { IfErr result (paged.Refuses 1 self.old at) }
        ensures unchanged { OnErr result (self.new ≡ self.old) }
    {
        let k = self.place(at)?;
        Ok(read8(&self.pages[k].bytes, at))
    }

    /// The two bytes at the address, the lowest first, whose page is touched.
    #[inline(always)]
    #[tactic(auto, using(crate::proofs::Bytes::half_at_touch))]
    pub fn load16(&mut self, at: u32) -> Result<u32, MemFault>
        ensures value { IfOk result (λ v. v ≡ paged.half_at self.old at) }
        ensures half { IfOk result (λ v. v < 2 ^ 16) }
        ensures touched { OnOk result (self.new ≡ paged.touch self.old (at / 4096)) }
        ensures allowed { OnOk result (paged.Allows 2 self.old at) }
        ensures refused { IfErr result (paged.Refuses 2 self.old at) }
        ensures unchanged { OnErr result (self.new ≡ self.old) }
    {
        if at % 2 != 0 {
            return Err(MemFault::Misaligned);
        }
        let k = self.place(at)?;
        Ok(read16(&self.pages[k].bytes, at))
    }

    /// The four bytes at the address, the lowest first, whose page is touched.
    #[inline(always)]
    #[tactic(auto, using(crate::proofs::Bytes::word_at_touch))]
    pub fn load32(&mut self, at: u32) -> Result<u32, MemFault>
        ensures value { IfOk result (λ v. v ≡ paged.word_at self.old at) }
        ensures touched { OnOk result (self.new ≡ paged.touch self.old (at / 4096)) }
        ensures allowed { OnOk result (paged.Allows 4 self.old at) }
        ensures refused { IfErr result (paged.Refuses 4 self.old at) }
        ensures unchanged { OnErr result (self.new ≡ self.old) }
    {
        if at % 4 != 0 {
            return Err(MemFault::Misaligned);
        }
        let k = self.place(at)?;
        Ok(read32(&self.pages[k].bytes, at))
    }

    /// Stores the low 8 bits of the value at the address, whose page is touched; gives the place of that page.
    #[inline(always)]
    #[tactic(auto, using(crate::proofs::Laws::changes_store8, crate::proofs::Laws::touches_store8))]
    pub fn store8(&mut self, at: u32, value: u32) -> Result<usize, MemFault>
        ensures place { IfOk result (λ k. k ≡ paged.place self.new.pages (at / 4096)) }
        ensures stored { OnOk result (self.new ≡ paged.store8 self.old at value) }
        ensures changes { OnOk result (paged.ChangesBytes self.old self.new at (value % 0x100 ∷ [])) }
        ensures touches { OnOk result (paged.TouchesPage self.old self.new (at / 4096)) }
        ensures allowed { OnOk result (paged.Allows 1 self.old at) }
        ensures refused { IfErr result (paged.Refuses 1 self.old at) }
        ensures unchanged { OnErr result (self.new ≡ self.old) }
    {
        self.set8(at, value)
    }

    /// Stores the low 16 bits of the value at the address, the lowest byte first; its page is touched. Gives the place of
    /// that page.
    #[inline(always)]
    #[tactic(auto, using(crate::proofs::Laws::changes_store16, crate::proofs::Laws::touches_store16))]
    pub fn store16(&mut self, at: u32, value: u32) -> Result<usize, MemFault>
        ensures place { IfOk result (λ k. k ≡ paged.place self.new.pages (at / 4096)) }
        ensures stored { OnOk result (self.new ≡ paged.store16 self.old at value) }
        ensures changes { OnOk result (paged.ChangesBytes self.old self.new at (paged.half_bytes value)) }
        ensures touches { OnOk result (paged.TouchesPage self.old self.new (at / 4096)) }
        ensures allowed { OnOk result (paged.Allows 2 self.old at) }
        ensures refused { IfErr result (paged.Refuses 2 self.old at) }
        ensures unchanged { OnErr result (self.new ≡ self.old) }
    {
        self.set16(at, value)
    }

    /// Stores the value at the address, the lowest byte first; its page is touched. Gives the place of that page.
    #[inline(always)]
    #[tactic(auto, using(crate::proofs::Laws::changes_store32, crate::proofs::Laws::touches_store32))]
    pub fn store32(&mut self, at: u32, value: u32) -> Result<usize, MemFault>
        ensures place { IfOk result (λ k. k ≡ paged.place self.new.pages (at / 4096)) }
        ensures stored { OnOk result (self.new ≡ paged.store32 self.old at value) }
        ensures changes { OnOk result (paged.ChangesBytes self.old self.new at (paged.word_bytes value)) }
        ensures touches { OnOk result (paged.TouchesPage self.old self.new (at / 4096)) }
        ensures allowed { OnOk result (paged.Allows 4 self.old at) }
        ensures refused { IfErr result (paged.Refuses 4 self.old at) }
        ensures unchanged { OnErr result (self.new ≡ self.old) }
    {
        self.set32(at, value)
    }

    /// The place of the page of an address, if it was touched.
    pub fn find(&self, at: u32) -> Option<usize>
        ensures some { IfSome result (λ k. (k < length self.now.pages) × (k ≡ paged.place self.now.pages (at / 4096))) }
        ensures none { IfNone result (paged.place self.now.pages (at / 4096) ≡ length self.now.pages) }
    {
        look(&self.recent, &self.index, &self.pages, at / 4096)
    }

    /// Whether the pages of `count` bytes from the address on may be touched: the touched ones and the new ones
    /// together are no more than the limit. No byte, no page.
    pub fn fits(&self, at: u32, count: u64) -> bool
        requires { at + count ≤ 2 ^ 32 }
        ensures { result ≡ paged.fits self.now at count }
    {
        let first = at / 4096;
        let mut new = 0u32;
        for k in 0..span(at, count) {
            if !self.has_page(first + k) {
                new += 1;
            }
        }
        self.pages.len() as u64 + new as u64 <= self.limit as u64
    }

    /// Touches the pages of `count` bytes from the address on. Want of memory leaves the memory as it was.
    pub fn touch_range(&mut self, at: u32, count: u64) -> Result<(), AllocError>
        requires space { at + count ≤ 2 ^ 32 }
        requires room { paged.fits self.old at count ≡ true }
        ensures touched { OnOk result (self.new ≡ paged.touch_range self.old at count) }
        ensures covered { OnOk result (paged.AllTouched self.new at count) }
        ensures unchanged { OnErr result (self.new ≡ self.old) }
    {
        let first = at / 4096;
        let kept = self.pages.len();
        for k in 0..span(at, count) {
            if let Err(error) = self.ensure(first + k) {
                self.forget_after(kept);
                return Err(error);
            }
        }
        Ok(())
    }

    /// Puts the bytes from the address on.
    pub fn copy_in(&mut self, at: u32, bytes: &[u8])
        requires space { at + length bytes.now ≤ 2 ^ 32 }
        requires touched { paged.AllTouched self.old at (length bytes.now) }
        ensures { self.new ≡ paged.store_bytes self.old at bytes.now }
    {
        let mut done = 0;
        while done < bytes.len() {
            let here = at + done as u32;
            let end = bytes.len().min(done + (4096 - here as usize % 4096));
            self.put_in_page(here, &bytes[done..end]);
            done = end;
        }
    }

    /// Appends the `count` bytes from the address on. Want of memory leaves `out` as it was.
    pub fn copy_out(&self, at: u32, count: u32, out: &mut Vec<u8>) -> Result<(), AllocError>
        requires { at + count ≤ 2 ^ 32 }
        ensures ok { OnOk result (out.new.items ≡ out.old.items ++ paged.bytes_at self.now at count) }
        ensures unchanged { OnErr result (out.new.items ≡ out.old.items) }
    {
        out.reserve(count as usize)?;
        for k in 0..count {
            out.push_reserved(self.byte(at + k));
        }
        Ok(())
    }

    // What `store8` does, as a function of its own for the proof alone: all that `store8` promises follows by laws.
    #[inline(always)]
    #[tactic(auto, using(crate::proofs::Places::indexed_set, crate::proofs::Places::whole_set, crate::proofs::Recents::recent_set))]
    fn set8(&mut self, at: u32, value: u32) -> Result<usize, MemFault>
        ensures place { IfOk result (λ k. k ≡ paged.place self.new.pages (at / 4096)) }
        ensures stored { OnOk result (self.new ≡ paged.store8 self.old at value) }
        ensures whole { OnOk result (paged.IsWhole self.old.pages) }
        ensures allowed { OnOk result (paged.Allows 1 self.old at) }
        ensures refused { IfErr result (paged.Refuses 1 self.old at) }
        ensures unchanged { OnErr result (self.new ≡ self.old) }
    {
        let k = self.place(at)?;
        let page = &mut self.pages[k];
        write8(&mut page.bytes, at, value);
        Ok(k)
    }

    // What `store16` does, as a function of its own for the proof alone: all that `store16` promises follows by laws.
    #[inline(always)]
    #[tactic(auto, using(crate::proofs::Places::indexed_set, crate::proofs::Places::whole_set, crate::proofs::Recents::recent_set, crate::proofs::Storing::store16_in_page, crate::proofs::Storing::length_set_bytes))]
    fn set16(&mut self, at: u32, value: u32) -> Result<usize, MemFault>
        ensures place { IfOk result (λ k. k ≡ paged.place self.new.pages (at / 4096)) }
        ensures stored { OnOk result (self.new ≡ paged.store16 self.old at value) }
        ensures whole { OnOk result (paged.IsWhole self.old.pages) }
        ensures allowed { OnOk result (paged.Allows 2 self.old at) }
        ensures refused { IfErr result (paged.Refuses 2 self.old at) }
        ensures unchanged { OnErr result (self.new ≡ self.old) }
    {
        if at % 2 != 0 {
            return Err(MemFault::Misaligned);
        }
        let k = self.place(at)?;
        let page = &mut self.pages[k];
        write16(&mut page.bytes, at, value);
        Ok(k)
    }

    // What `store32` does, as a function of its own for the proof alone: all that `store32` promises follows by laws.
    #[inline(always)]
    #[tactic(auto, using(crate::proofs::Places::indexed_set, crate::proofs::Places::whole_set, crate::proofs::Recents::recent_set, crate::proofs::Storing::store32_in_page, crate::proofs::Storing::length_set_bytes))]
    fn set32(&mut self, at: u32, value: u32) -> Result<usize, MemFault>
        ensures place { IfOk result (λ k. k ≡ paged.place self.new.pages (at / 4096)) }
        ensures stored { OnOk result (self.new ≡ paged.store32 self.old at value) }
        ensures whole { OnOk result (paged.IsWhole self.old.pages) }
        ensures allowed { OnOk result (paged.Allows 4 self.old at) }
        ensures refused { IfErr result (paged.Refuses 4 self.old at) }
        ensures unchanged { OnErr result (self.new ≡ self.old) }
    {
        if at % 4 != 0 {
            return Err(MemFault::Misaligned);
        }
        let k = self.place(at)?;
        let page = &mut self.pages[k];
        write32(&mut page.bytes, at, value);
        Ok(k)
    }

    /// The place of the page of an address among the touched ones, in the order in which they were touched. The page is
    /// touched.
    #[inline(always)]
    pub fn place(&mut self, at: u32) -> Result<usize, MemFault>
        ensures ok { IfOk result (λ k. (k < length self.new.pages) × (k ≡ paged.place self.new.pages (at / 4096))) }
        ensures touched { OnOk result (self.new ≡ paged.touch self.old (at / 4096)) }
        ensures allowed { OnOk result (paged.is_over self.old (at / 4096) ≡ false) }
        ensures whole { OnOk result (paged.IsWhole self.old.pages) }
        ensures refused { IfErr result (paged.Refuses 1 self.old at) }
        ensures unchanged { OnErr result (self.new ≡ self.old) }
    {
        match find_recent(&self.recent, &self.index, &self.pages, at / 4096) {
            Some(k) => Ok(k),
            None => {
                let k = self.recall(at / 4096);
                if k < self.pages.len() {
                    Ok(k)
                } else {
                    self.touch(at / 4096)
                }
            }
        }
    }
}

impl Memory {
    fn has_page(&self, number: u32) -> bool
        ensures { result ≡ paged.is_touched self.now number }
    {
        find(&self.index, &self.pages, number).is_some()
    }

    // Touches a page, for which there is room.
    fn ensure(&mut self, number: u32) -> Result<(), AllocError>
        requires number { number < 1048576 }
        requires room { paged.is_over self.old number ≡ false }
        ensures touched { OnOk result (self.new ≡ paged.touch self.old number) }
        ensures unchanged { OnErr result (self.new ≡ self.old) }
    {
        match find(&self.index, &self.pages, number) {
            Some(_) => Ok(()),
            None => self.add(number),
        }
    }

    // Takes back the pages behind the first `kept`.
    #[tactic(auto, using(crate::proofs::Places::indexed_take, crate::proofs::Places::whole_take, crate::proofs::Recents::recent_none))]
    fn forget_after(&mut self, kept: usize)
        ensures { self.new ≡ record { limit = self.old.limit; pages = take kept self.old.pages } }
    {
        self.recent.truncate(0);
        self.pages.truncate(kept);
    }

    // Puts bytes that lie in one page, which was touched.
    #[tactic(auto, using(crate::proofs::Places::indexed_set, crate::proofs::Places::whole_set, crate::proofs::Recents::recent_set, crate::proofs::Storing::store_bytes_in_touched, crate::proofs::Storing::length_set_bytes))]
    fn put_in_page(&mut self, at: u32, bytes: &[u8])
        requires some { 0 < length bytes.now }
        requires one { at % 4096 + length bytes.now ≤ 4096 }
        requires touched { paged.is_touched self.old (at / 4096) ≡ true }
        ensures { self.new ≡ paged.store_bytes self.old at bytes.now }
    {
        if let Some(k) = find(&self.index, &self.pages, at / 4096) {
            let page = &mut self.pages[k];
            write_all(&mut page.bytes, (at % 4096) as usize, bytes);
        }
    }

    // The byte at an address, 0 where its page was not touched.
    fn byte(&self, at: u32) -> u8
        ensures { result ≡ paged.byte_at self.now at }
    {
        match look(&self.recent, &self.index, &self.pages, at / 4096) {
            Some(k) => self.pages[k].bytes[(at % 4096) as usize],
            None => 0,
        }
    }

    // The place of a page, which is the next to be guessed, or the number of pages where it was not touched.
    #[cold]
    #[inline(never)]
    fn recall(&mut self, number: u32) -> usize
        ensures place { result ≡ paged.place self.old.pages number }
        ensures bound { result ≤ length self.old.pages }
        ensures unchanged { self.new ≡ self.old }
    {
        match find(&self.index, &self.pages, number) {
            Some(k) => {
                remember(&mut self.recent, &self.pages, number, k);
                k
            }
            None => self.pages.len(),
        }
    }

    // Touches a new page; gives its place.
    #[cold]
    #[inline(never)]
    fn touch(&mut self, number: u32) -> Result<usize, MemFault>
        requires number { number < 1048576 }
        requires fresh { paged.place self.old.pages number ≡ length self.old.pages }
        ensures ok { IfOk result (λ k. (k < length self.new.pages) × (k ≡ paged.place self.new.pages number)) }
        ensures touched { OnOk result (self.new ≡ paged.touch self.old number) }
        ensures allowed { OnOk result (paged.is_over self.old number ≡ false) }
        ensures whole { OnOk result (paged.IsWhole self.old.pages) }
        ensures refused { IfErr result (paged.Refuses 1 self.old (4096 * number)) }
        ensures unchanged { OnErr result (self.new ≡ self.old) }
    {
        let n = self.pages.len();
        if n >= self.limit as usize {
            return Err(MemFault::OverLimit { pages: self.limit });
        }
        match self.add(number) {
            Ok(()) => Ok(n),
            Err(_) => Err(MemFault::NoMemory),
        }
    }

    // Adds a page of zeros.
    fn add(&mut self, number: u32) -> Result<(), AllocError>
        requires number { number < 1048576 }
        requires fresh { paged.place self.old.pages number ≡ length self.old.pages }
        requires room { length self.old.pages < self.old.limit }
        ensures pages { OnOk result (self.new ≡ record { limit = self.old.limit; pages = self.old.pages ++ record { number = number; bytes = paged.zeros } ∷ [] }) }
        ensures unchanged { OnErr result (self.new ≡ self.old) }
    {
        let n = self.pages.len();
        // The first page is found without a table.
        if n > 0 {
            make_recent(self.alloc, &mut self.recent, &self.pages)?;
        }
        add_page(&mut self.index, &mut self.pages, number)?;
        remember(&mut self.recent, &self.pages, number, n);
        Ok(())
    }
}

// How many pages hold one of `count` bytes from an address on.
fn span(at: u32, count: u64) -> u32
    requires { at + count ≤ 2 ^ 32 }
    ensures { result ≡ paged.span at count }
{
    if count == 0 {
        0
    } else {
        (at + (count - 1) as u32) / 4096 - at / 4096 + 1
    }
}

// Whether the page at a place has the number.
#[inline(always)]
fn is_at(pages: &Vec<Page>, k: usize, number: u32) -> bool
    ensures { IsTrue result ↔ ((k < length pages.now.items) × ((get_or pages.now.items k paged.no_page).number ≡ number)) }
{
    match pages.get(k) {
        Some(page) => page.number == number,
        None => false,
    }
}

// The place of a page, if it was touched; a recent one is found at once.
#[inline(always)]
fn look(recent: &Vec<Recent>, index: &PageIndex, pages: &Vec<Page>, number: u32) -> Option<usize>
    requires indexed { IsIndexed index.now pages.now.items }
    requires recent { AreRecent recent.now.items pages.now.items }
    ensures none { IfNone result (paged.place pages.now.items number ≡ length pages.now.items) }
    ensures some { IfSome result (λ k. (k < length pages.now.items) × (k ≡ paged.place pages.now.items number)) }
{
    match find_recent(recent, index, pages, number) {
        Some(k) => Some(k),
        None => find(index, pages, number),
    }
}

// The place of a page, if it was touched.
#[tactic(auto, using(crate::proofs::Places::place_numbered, crate::proofs::Places::place_unlisted))]
fn find(index: &PageIndex, pages: &Vec<Page>, number: u32) -> Option<usize>
    requires { IsIndexed index.now pages.now.items }
    ensures none { IfNone result (paged.place pages.now.items number ≡ length pages.now.items) }
    ensures some { IfSome result (λ k. (k < length pages.now.items) × (k ≡ paged.place pages.now.items number)) }
    ensures number { IfSome result (λ k. (get_or pages.now.items k paged.no_page).number ≡ number) }
{
    let k = index.find(number);
    if is_at(pages, k, number) {
        Some(k)
    } else {
        None
    }
}

#[tactic(auto, using(crate::proofs::Places::indexed_push, crate::proofs::Places::indexed_kept, crate::proofs::Places::whole_push))]
fn add_page(index: &mut PageIndex, pages: &mut Vec<Page>, number: u32) -> Result<(), AllocError>
    requires number { number < 1048576 }
    requires indexed { IsIndexed index.old pages.old.items }
    requires whole { paged.IsWhole pages.old.items }
    requires fresh { paged.place pages.old.items number ≡ length pages.old.items }
    requires room { vec_len pages.old < 2 ^ 32 }
    ensures pages { OnOk result (pages.new.items ≡ pages.old.items ++ record { number = number; bytes = paged.zeros } ∷ []) }
    ensures indexed { IsIndexed index.new pages.new.items }
    ensures whole { paged.IsWhole pages.new.items }
    ensures unchanged { OnErr result (pages.new.items ≡ pages.old.items) }
{
    let n = pages.len();
    pages.reserve(1)?;
    index.insert(number, n as u32)?;
    pages.push_reserved(Page {
        number,
        bytes: blank(),
    });
    Ok(())
}

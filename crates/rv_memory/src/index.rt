ghost use Rattle.std.specs.Prelude.{◌≡◌, ◌≢◌, ℕ, ◌/◌, ◌<◌, ◌≤◌, IfOk, IfSome, IfNone, OnOk, OnErr, length, get_or, Some, [], true, false};
ghost use Rattle.rv_memory.specs.PageIndex as paging;

use std::alloc::{AllocError, Global};

/// The places of 1,024 pages, whose numbers divided by 1,024 are the region.
#[derive(Drop)]
pub struct Leaf {
    pub region: u32,
    pub slots: [u32; 1024],
}

/// For each page its place among the touched ones, in two levels. What is found for a page that was never put in is
/// any number, so whoever looks up compares the number of the page that is found.
#[derive(Drop)]
pub struct PageIndex {
    pub tops: Vec<usize>,
    pub leaves: Vec<Leaf>,
}

impl PageIndex {
    /// An index of no page. It takes no memory before a page is put in.
    pub fn new(alloc: Global) -> PageIndex
        ensures tops { result.tops.items ≡ [] }
        ensures leaves { result.leaves.items ≡ [] }
    {
        PageIndex {
            tops: Vec::new(alloc),
            leaves: Vec::new(alloc),
        }
    }

    /// The place of a page that was put in; for another page any number.
    #[inline(always)]
    pub fn find(&self, number: u32) -> usize
        ensures { (k : ℕ) → paging.entry self.now number ≡ Some k → result ≡ k }
    {
        match self.leaf_of(number / 1024) {
            Some(leaf) => self.leaves[leaf].slots[(number % 1024) as usize] as usize,
            None => 0,
        }
    }

    /// Puts in the place of a page. Each page that was put in stays.
    #[tactic(auto, using(crate::proofs::Paging::put_here, crate::proofs::Paging::put_others))]
    pub fn insert(&mut self, number: u32, place: u32) -> Result<(), AllocError>
        requires { number < 1048576 }
        ensures here { OnOk result (paging.entry self.new number ≡ Some place) }
        ensures others { OnOk result ((q k : ℕ) → q ≢ number → paging.entry self.old q ≡ Some k → paging.entry self.new q ≡ Some k) }
        ensures kept { OnErr result ((q k : ℕ) → paging.entry self.old q ≡ Some k → paging.entry self.new q ≡ Some k) }
    {
        let leaf = self.ensure_leaf(number / 1024)?;
        self.leaves[leaf].slots[(number % 1024) as usize] = place;
        Ok(())
    }

    // The leaf of a region, which is made where there is none.
    fn ensure_leaf(&mut self, region: u32) -> Result<usize, AllocError>
        requires { region < 1024 }
        ensures leaf { IfOk result (λ l. (paging.has_leaf self.new region ≡ true) × (l ≡ paging.top self.new region) × (l < length self.new.leaves.items)) }
        ensures kept { (q k : ℕ) → paging.entry self.old q ≡ Some k → paging.entry self.new q ≡ Some k }
    {
        match self.leaf_of(region) {
            Some(leaf) => Ok(leaf),
            None => self.add_leaf(region),
        }
    }

    #[tactic(auto, using(crate::proofs::Paging::leaf_kept))]
    fn add_leaf(&mut self, region: u32) -> Result<usize, AllocError>
        requires region { region < 1024 }
        requires absent { paging.has_leaf self.old region ≡ false }
        ensures leaf { IfOk result (λ l. (paging.has_leaf self.new region ≡ true) × (l ≡ paging.top self.new region) × (l < length self.new.leaves.items)) }
        ensures kept { (q k : ℕ) → paging.entry self.old q ≡ Some k → paging.entry self.new q ≡ Some k }
    {
        extend_with_zeros(&mut self.tops, region as usize + 1)?;
        let leaf = self.leaves.len();
        self.leaves.push(Leaf {
            region,
            slots: [0; 1024],
        })?;
        self.tops[region as usize] = leaf;
        Ok(leaf)
    }

    // The leaf of a region, if it has one.
    #[inline(always)]
    fn leaf_of(&self, region: u32) -> Option<usize>
        ensures some { IfSome result (λ l. (paging.has_leaf self.now region ≡ true) × (l ≡ paging.top self.now region) × (l < length self.now.leaves.items)) }
        ensures none { IfNone result (paging.has_leaf self.now region ≡ false) }
    {
        let top = self.top(region);
        match self.leaves.get(top) {
            Some(leaf) if leaf.region == region => Some(top),
            _ => None,
        }
    }

    #[inline(always)]
    fn top(&self, region: u32) -> usize
        ensures { result ≡ paging.top self.now region }
    {
        match self.tops.get(region as usize) {
            Some(top) => *top,
            None => 0,
        }
    }
}

// Makes the table of the regions at least so long; a region that had no entry has 0, as before.
#[tactic(auto, using(crate::proofs::Paging::zero_pushed))]
fn extend_with_zeros(tops: &mut Vec<usize>, size: usize) -> Result<(), AllocError>
    ensures same { (r : ℕ) → get_or tops.new.items r 0 ≡ get_or tops.old.items r 0 }
    ensures size { OnOk result (size ≤ length tops.new.items) }
{
    let len = tops.len();
    tops.reserve(size.saturating_sub(len))?;
    for _k in len..size {
        tops.push(0)?;
    }
    Ok(())
}

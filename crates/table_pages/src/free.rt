//! `FreePages`. A clause sees them as a flag for each page of the table: whether it is free.
ghost use Rattle.std.specs.Prelude.{◌≡◌, ◌+◌, ◌<◌, ◌≤◌, ◌^◌, true, false, IfOk, length, replicate, drop, count_by, position, option_map, slice_index_or, slice_set};

use std::alloc::{AllocError, Global};
use std::marker::Model;

/// The free pages of a name table: a set of pages below the number of its pages.
#[derive(Drop)]
pub struct FreePages {
    flags: Vec<bool>,
}

impl Model for FreePages {
    ghost use Rattle.std.specs.Prelude.{◌<◌, ◌^◌, Bool, List, length};

    ghost Value = { List Bool };

    ghost view = { λ f. f.flags.items };

    ghost invariant = { λ f. length f.flags.items < 2 ^ 32 };
}

// The place of the first that is true.
fn first_true(flags: &[bool]) -> Option<usize>
    ensures { result ≡ position (λ flag. flag) flags.now }
{
    flags.iter().position(|flag| *flag)
}

impl FreePages {
    /// No page of so many is free. It takes a byte for each of them.
    pub fn new(alloc: Global, pages: u32) -> Result<FreePages, AllocError>
        ensures ok { IfOk result (λ f. f ≡ replicate pages false) }
    {
        let flags = vec![in alloc; false; pages as usize]?;
        Ok(FreePages { flags })
    }

    /// The pages with these flags.
    pub fn of(flags: Vec<bool>) -> FreePages
        requires { length flags.items < 2 ^ 32 }
        ensures { result ≡ flags.items }
    {
        FreePages { flags }
    }

    /// Of each page whether it is free.
    pub fn as_slice(&self) -> &[bool]
        ensures { result.now ≡ self.now }
    {
        self.flags.as_slice()
    }

    /// The number of pages of the table.
    pub fn pages(&self) -> u32
        ensures { result ≡ length self.now }
    {
        self.flags.len() as u32
    }

    /// How many pages are free.
    pub fn count(&self) -> u32
        ensures { result ≡ count_by (λ free. free) self.now }
    {
        self.flags.iter().filter(|free| **free).count() as u32
    }

    /// Whether a page is free. No page that the table does not have is.
    pub fn has(&self, page: u32) -> bool
        ensures { result ≡ slice_index_or self.now page false }
    {
        self.flags.get(page as usize) == Some(&true)
    }

    /// The least free page from this one on.
    pub fn next(&self, from: u32) -> Option<u32>
        requires { from ≤ length self.now }
        ensures { result ≡ option_map (λ i. from + i) (position (λ free. free) (drop from self.now)) }
    {
        match first_true(&self.flags[from as usize..]) {
            Some(place) => Some(from + place as u32),
            None => None,
        }
    }

    /// Makes a page free that is not.
    pub fn add(&mut self, page: u32)
        requires below { page < length self.old }
        requires new { slice_index_or self.old page false ≡ false }
        ensures { self.new ≡ slice_set self.old page true }
    {
        self.flags[page as usize] = true;
    }

    /// Takes a free page out.
    pub fn remove(&mut self, page: u32)
        requires { slice_index_or self.old page false ≡ true }
        ensures { self.new ≡ slice_set self.old page false }
    {
        self.flags[page as usize] = false;
    }
}

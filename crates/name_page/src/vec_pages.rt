//! Pages of a name table that all stand in memory.
ghost use Rattle.std.specs.Prelude.{◌≡◌, ◌<◌, ◌≤◌, ◌^◌, Some, is_some, length, count_by};
ghost use Rattle.fsd_table.specs.Pages.{page_at};
ghost use Rattle.name_page.specs.Accepted.{AreAccepted};
ghost use Rattle.name_page.specs.Pages.{first_step, renewed};

use crate::fault::read_page;
use crate::marks::{count_true, first_true, put_one};
use crate::pages::{MOST_CHANGED, MOST_REACHED, Pages};
use arrayvec::ArrayVec;
use fsd_bytes::Refusal;

/// All pages of a name table. None of them is ever missing. A step may reach [`MOST_REACHED`] of them, and
/// [`MOST_CHANGED`] may be changed until the leave is renewed. A page is read by the grammar where it is reached first,
/// and again once it was changed; how many pages are spare is counted once.
#[derive(Drop)]
pub struct VecPages {
    pages: Vec<[u8; 512]>,
    spare: Vec<bool>,
    free: u32,
    accepted: [bool; 4096],
    home_a: u32,
    reached: ArrayVec<u32, MOST_REACHED>,
    changed: ArrayVec<u32, MOST_CHANGED>,
    promised: u32,
    refusal: Option<Refusal>,
    ghost small: { length pages.items ≤ 4096 },
    ghost flags: { length spare.items ≡ length pages.items },
    ghost counted: { free ≡ count_by (λ spare. spare) spare.items },
    ghost kept: { promised ≤ free },
    ghost are_accepted: { AreAccepted accepted pages.items },
}

impl VecPages {
    /// The pages in order, which of them are spare, and the first sector of their homes A.
    pub fn new(pages: Vec<[u8; 512]>, spare: Vec<bool>, home_a: u32) -> VecPages
        requires small { length pages.items ≤ 4096 }
        requires flags { length spare.items ≡ length pages.items }
        ensures { ⟦<VecPages as Pages>⟧.step result ≡ first_step pages.items spare.items home_a MOST_REACHED MOST_CHANGED }
    {
        let free = count_true(&spare) as u32;
        VecPages {
            pages,
            spare,
            free,
            accepted: [false; 4096],
            home_a,
            reached: ArrayVec::new(),
            changed: ArrayVec::new(),
            promised: 0,
            refusal: None,
        }
    }

    /// Ends the step, and renews the leave to change.
    pub fn renew(&mut self)
        ensures { ⟦<VecPages as Pages>⟧.step self.new ≡ renewed (⟦<VecPages as Pages>⟧.step self.old) }
    {
        self.rest();
        self.changed.clear();
    }

    // Whether the grammar accepts a page.
    fn is_accepted(&self, page: u32) -> bool
        requires { page < length self.now.pages.items }
        ensures { result ≡ is_some (page_at self.now.pages.items page) }
    {
        let i = page as usize;
        self.accepted[i] || read_page(&self.pages[i], page, self.count()).is_ok()
    }

    fn refuse(&mut self, refusal: Refusal) -> Refusal
        ensures refusal { result ≡ refusal }
        ensures kept { self.new ≡ record self.old { refusal = Some refusal } }
    {
        self.refusal = Some(refusal);
        refusal
    }
}

impl Pages for VecPages {
    ghost use Rattle.std.specs.Prelude.{refl, ⊤, None};
    ghost use Rattle.name_page.specs.VecPages.{written};
    ghost use Rattle.name_page.specs.declared.pages.TheConstants.{MOST_CHANGED, MOST_REACHED};

    ghost step = { λ s. record { images = s.pages.items; spares = s.spare.items; home_a = s.home_a; reached = s.reached.items; changed = s.changed.items; promised = s.promised; refusal = s.refusal; most_reached = MOST_REACHED; most_changed = MOST_CHANGED } };

    ghost written = { written };

    ghost trusted = { λ s. ⊤ };

    ghost in_memory = { λ s page. ⊤ };

    ghost outside = { λ refusal a b. refusal ≡ None };

    ghost changed = { λ s page bytes. refl };

    ghost quiet = { λ s page bytes. refl };

    ghost still = { λ s. refl };

    ghost then = { λ a b c refusal x y. y };

    ghost trust = { λ a b refusal x y. tt };

    ghost small = { λ s. s.small };

    ghost flags = { λ s. s.flags };

    fn count(&self) -> u32 {
        self.pages.len() as u32
    }

    #[tactic(auto, unfolding(fsd_table::specs::Pages::page_at))]
    fn reach(&mut self, page: u32) -> Result<(), Refusal> {
        let i = page as usize;
        if self.spare[i] || !self.is_accepted(page) {
            let sector = self.home_a.wrapping_add(page);
            return Err(self.refuse(Refusal::Unsound(sector)));
        }
        self.accepted[i] = true;
        self.reached.push(page);
        Ok(())
    }

    fn spare(&mut self, n: u32) -> Result<(), Refusal> {
        let free = self.free;
        if free < n {
            return Err(self.refuse(Refusal::NameTableFull { free }));
        }
        self.promised = n;
        Ok(())
    }

    #[tactic(auto, unfolding(fsd_table::specs::Pages::page_at))]
    fn look(&self, page: u32) -> &[u8; 512] {
        &self.pages[page as usize]
    }

    fn change(&mut self, page: u32) -> &mut [u8; 512] {
        self.accepted[page as usize] = false;
        put_one(&mut self.changed, page);
        &mut self.pages[page as usize]
    }

    fn take(&mut self) -> u32 {
        let i = first_true(&self.spare);
        put_one(&mut self.changed, i as u32);
        self.promised -= 1;
        self.free -= 1;
        self.spare[i] = false;
        i as u32
    }

    fn give_back(&mut self, page: u32) {
        self.free += 1;
        self.spare[page as usize] = true;
    }

    fn rest(&mut self) {
        self.reached.clear();
        self.promised = 0;
        self.refusal = None;
    }
}

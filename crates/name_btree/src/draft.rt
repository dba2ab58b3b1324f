//! Pages that are to be written, and such that are to be spare, once nothing can fail any more.
ghost use Rattle.std.specs.Prelude.{◌≡◌, ◌+◌, ◌<◌, ◌≤◌, List, [], ◌∷◌, IfOk, IfErr, None, length, true, false};
ghost use Rattle.std.specs.List.{AllByRecursion};
ghost use Rattle.run_table.specs.Space.{all_differ};
ghost use Rattle.fsd_formats.specs.NamePage.{Leaf, Interior, is_page, FitsEntry, FitsSeparator};
ghost use Rattle.fsd_table.specs.Pages.{page_at};
ghost use Rattle.name_btree.specs.Draft.{IsTreeDraft, with_freed, drafted, committed, freed, last_sheet, AreSheets, MayGo, IsDrafted, IsSeenPage, IsSeenChild};
ghost use Rattle.name_btree.specs.Fault.{outer_told, FailsBy, IsMisfit};
ghost use Rattle.name_btree.specs.Grown.{TakesSpare};
ghost use Rattle.fsd_formats.specs.declared.entry.Entry.{Entry};
ghost use Rattle.fsd_formats.specs.NamePage as grammar;
ghost use Rattle.name_page.specs.Node.{content_of};
ghost use Rattle.name_page.specs.Text.{IsTextOf};
ghost use Rattle.name_page.specs.declared.pages.TheConstants.{MOST_CHANGED};
ghost use Rattle.name_page.specs.Looks.{OnlyReaches};
ghost use Rattle.name_page.specs.Pages.{reaches, changes, is_spare, with_page, IsReached, MayChange};

use crate::child::node_at;
use crate::fault::TreeFault;
use crate::sheets::Sheets;
use arrayvec::ArrayVec;
use fsd_formats::{Entry, Separator};
use fsd_table::Child;
use name_page::{
    LeafText, MOST_CHANGED, Node, Pages, node_fits, node_in, write_entries, write_text, write_ways,
};

/// What a page is to have.
#[derive(Drop)]
pub(crate) struct Sheet {
    page: u32,
    image: [u8; 512],
}

impl Default for Sheet {
    fn default() -> Sheet {
        Sheet {
            page: 0,
            image: [0; 512],
        }
    }
}

/// Pages that are to be written one after another, and such that are to be spare then.
#[derive(Drop)]
pub(crate) struct Draft {
    sheets: Sheets,
    freed: ArrayVec<u32, 20>,
}

// The bytes of the last sheet of a page.
fn last_sheet(sheets: &[Sheet], page: u32) -> Option<[u8; 512]>
    ensures { result ≡ last_sheet page sheets.now }
{
    let mut last = None;
    for sheet in sheets {
        if sheet.page == page {
            last = Some(sheet.image);
        }
    }
    last
}

fn write_sheet<T: Pages>(t: &mut T, sheet: &Sheet)
    requires reached { IsReached (T.step t.old) sheet.now.page }
    requires more { MayChange (T.step t.old) sheet.now.page }
    ensures outside { T.outside None t.old t.new }
    ensures step { T.step t.new ≡ with_page sheet.now.page sheet.now.image (T.step t.old) }
{
    *t.change(sheet.page) = sheet.image;
}

fn write_sheets<T: Pages>(t: &mut T, sheets: &[Sheet])
    requires sheets { AreSheets (T.step t.old) sheets.now }
    requires more { length sheets.now ≤ changes (T.step t.old) }
    ensures outside { T.outside None t.old t.new }
    ensures step { T.step t.new ≡ committed sheets.now (T.step t.old) }
{
    for sheet in sheets {
        write_sheet(t, sheet);
    }
}

fn free_pages<T: Pages>(t: &mut T, pages: &[u32])
    requires pages { AllByRecursion (MayGo (T.step t.old)) pages.now }
    requires apart { all_differ pages.now ≡ true }
    ensures outside { T.outside None t.old t.new }
    ensures step { T.step t.new ≡ freed pages.now (T.step t.old) }
{
    for page in pages {
        t.give_back(*page);
    }
}

/// Takes a page that was promised, which the sheets don't have.
pub(crate) fn take_page<T: Pages>(t: &mut T) -> u32
    requires promised { 0 < (T.step t.old).promised }
    requires more { 0 < changes (T.step t.old) }
    ensures outside { T.outside None t.old t.new }
    ensures takes { TakesSpare (T.step t.old) (T.step t.new) (result ∷ []) }
    ensures home { (T.step t.new).home_a ≡ (T.step t.old).home_a }
    ensures reached { (T.step t.new).reached ≡ (T.step t.old).reached }
{
    t.take()
}

impl Draft {
    /// Nothing is to be written yet.
    pub(crate) fn new() -> Draft
        ensures sheets { result.sheets.items ≡ [] }
        ensures freed { result.freed.items ≡ [] }
    {
        Draft {
            sheets: Sheets::new(),
            freed: ArrayVec::new(),
        }
    }

    /// Looks at a page as it is to be, and reaches it where nothing is to be written there.
    pub(crate) fn node_at<T: Pages>(&self, t: &mut T, page: u32) -> Result<Node, TreeFault>
        requires more { 0 < reaches (T.step t.old) }
        requires within { page < length (T.step t.old).images }
        requires sheets { AreSheets (T.step t.old) self.now.sheets.items }
        ensures calls { OnlyReaches T.Pages (outer_told result) t.old t.new }
        ensures reaches { reaches (T.step t.old) ≤ reaches (T.step t.new) + 1 }
        ensures sheets { AreSheets (T.step t.new) self.now.sheets.items }
        ensures read { IfOk result (λ node. IsSeenPage (T.step t.old) (T.step t.new) self.now.sheets.items page (content_of node)) }
        ensures fault { IfErr result (FailsBy (T.step t.new) (λ pages other. (other ≡ page) × (page_at (drafted self.now.sheets.items pages) page ≡ None))) }
    {
        match last_sheet(self.sheets.as_slice(), page) {
            Some(image) => Ok(node_in(&image)),
            None => node_at(t, page),
        }
    }

    /// Looks at a child as it is to be, whose keys are to stand between its bounds.
    pub(crate) fn child_node<T: Pages>(&self, t: &mut T, child: &Child) -> Result<Node, TreeFault>
        requires more { 0 < reaches (T.step t.old) }
        requires sheets { AreSheets (T.step t.old) self.now.sheets.items }
        ensures calls { OnlyReaches T.Pages (outer_told result) t.old t.new }
        ensures reaches { reaches (T.step t.old) ≤ reaches (T.step t.new) + 1 }
        ensures sheets { AreSheets (T.step t.new) self.now.sheets.items }
        ensures read { IfOk result (λ node. IsSeenChild (T.step t.old) (T.step t.new) self.now.sheets.items child.now (content_of node)) }
        ensures fault { IfErr result (FailsBy (T.step t.new) (λ pages. IsMisfit (drafted self.now.sheets.items pages) child.now)) }
    {
        if child.page >= t.count() {
            return Err(TreeFault::Broken(child.page));
        }
        let node = self.node_at(t, child.page)?;
        if !node_fits(child, &node) {
            return Err(TreeFault::Broken(child.page));
        }
        Ok(node)
    }

    /// The page is to be a leaf of these entries.
    pub(crate) fn put_leaf<T: Pages>(&mut self, t: &T, page: u32, entries: &[Entry])
        requires room { length self.old.sheets.items < MOST_CHANGED }
        requires sheets { AreSheets (T.step t.now) self.old.sheets.items }
        requires reached { IsReached (T.step t.now) page }
        requires used { is_spare (T.step t.now).spares page ≡ false }
        requires accepted { is_page page 0 (Leaf entries.now) ≡ true }
        requires fits { AllByRecursion FitsEntry entries.now }
        ensures sheets { IsDrafted (T.step t.now) self.old.sheets.items self.new.sheets.items page (Leaf entries.now) }
        ensures freed { self.new.freed.items ≡ self.old.freed.items }
    {
        let mut image = *t.look(page);
        write_entries(page, entries, &mut image);
        self.sheets.push(Sheet { page, image });
    }

    /// The page is to be a leaf of the entries of these bytes.
    pub(crate) fn put_text<T: Pages>(&mut self, t: &T, page: u32, text: &LeafText)
        requires room { length self.old.sheets.items < MOST_CHANGED }
        requires sheets { AreSheets (T.step t.now) self.old.sheets.items }
        requires reached { IsReached (T.step t.now) page }
        requires used { is_spare (T.step t.now).spares page ≡ false }
        requires most { length text.now.bytes.items ≤ grammar.room }
        ensures sheets { (entries : List Entry) → IsTextOf text.now entries → is_page page 0 (Leaf entries) ≡ true → AllByRecursion FitsEntry entries
            → IsDrafted (T.step t.now) self.old.sheets.items self.new.sheets.items page (Leaf entries) }
        ensures freed { self.new.freed.items ≡ self.old.freed.items }
    {
        let mut image = *t.look(page);
        write_text(page, text, &mut image);
        self.sheets.push(Sheet { page, image });
    }

    /// The page is to lead to a first child, and behind each separator to another.
    pub(crate) fn put_ways<T: Pages>(
        &mut self,
        t: &T,
        page: u32,
        first: u32,
        separators: &[Separator],
    )
        requires room { length self.old.sheets.items < MOST_CHANGED }
        requires sheets { AreSheets (T.step t.now) self.old.sheets.items }
        requires reached { IsReached (T.step t.now) page }
        requires used { is_spare (T.step t.now).spares page ≡ false }
        requires accepted { is_page page (length (T.step t.now).images) (Interior first separators.now) ≡ true }
        requires fits { AllByRecursion FitsSeparator separators.now }
        ensures sheets { IsDrafted (T.step t.now) self.old.sheets.items self.new.sheets.items page (Interior first separators.now) }
        ensures freed { self.new.freed.items ≡ self.old.freed.items }
    {
        let mut image = *t.look(page);
        write_ways(page, first, separators, &mut image);
        self.sheets.push(Sheet { page, image });
    }

    /// The page is to be spare, once. Page 0 never is.
    pub(crate) fn free<T: Pages>(&mut self, t: &T, page: u32)
        requires room { length self.old.freed.items < 20 }
        requires draft { IsTreeDraft (T.step t.now) self.old }
        requires reached { IsReached (T.step t.now) page }
        requires used { is_spare (T.step t.now).spares page ≡ false }
        ensures draft { IsTreeDraft (T.step t.now) self.new }
        ensures sheets { self.new.sheets.items ≡ self.old.sheets.items }
        ensures freed { self.new.freed.items ≡ with_freed page self.old.freed.items }
    {
        if page != 0 && !self.freed.as_slice().contains(&page) {
            self.freed.push(page);
        }
    }

    /// Writes all that is to be written, and then makes pages spare.
    pub(crate) fn commit<T: Pages>(&self, t: &mut T)
        requires sheets { AreSheets (T.step t.old) self.now.sheets.items }
        requires more { length self.now.sheets.items ≤ changes (T.step t.old) }
        requires freed { AllByRecursion (MayGo (T.step t.old)) self.now.freed.items }
        requires apart { all_differ self.now.freed.items ≡ true }
        ensures outside { T.outside None t.old t.new }
        ensures step { T.step t.new ≡ freed self.now.freed.items (committed self.now.sheets.items (T.step t.old)) }
        ensures images { (T.step t.new).images ≡ drafted self.now.sheets.items (T.step t.old).images }
    {
        write_sheets(t, self.sheets.as_slice());
        free_pages(t, self.freed.as_slice());
    }
}

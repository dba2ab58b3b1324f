//! Laws over the definitions: the functions do nothing, the contract of each is a law.
ghost use Rattle.std.specs.Prelude.{◌≡◌, ◌≤◌, ◌+◌, ℕ, List, Some, None, IsTrue, length};
ghost use Rattle.fsd_formats.specs.declared.entry.Entry.{Entry};
ghost use Rattle.fsd_formats.specs.NamePage.{Leaf, are_ascending};
ghost use Rattle.fsd_table.specs.Pages.{entry_keys, page_at};
ghost use Rattle.fsd_table.specs.Table.{told_in, one_leaf, BreaksTable, Telling};
ghost use Rattle.fsd_table.specs.Tree.{IsTree, pages_of, table_of};

/// A tree tells its entries level by level, in strictly ascending order of their keys.
pub fn trees_are_told()
    ensures ascending { (pages : List (List ℕ)) (height : ℕ) → IsTree pages height → IsTrue (are_ascending (entry_keys (table_of pages height))) }
    ensures told { (pages : List (List ℕ)) (height : ℕ) → IsTree pages height
        → told_in pages ≡ Some (record { entries = table_of pages height; reached = length (pages_of pages height) }) }
{}

/// What is told is a tree.
pub fn what_is_told_is_a_tree()
    ensures { (pages : List (List ℕ)) (t : Telling) → told_in pages ≡ Some t → (height : ℕ) × IsTree pages height }
{}

/// No page of a tree breaks it.
pub fn trees_are_unbroken()
    ensures { (pages : List (List ℕ)) (height page : ℕ) → IsTree pages height → BreaksTable pages page → ⊥ }
{}

/// A table of one page is page 0, a leaf, and tells its entries.
pub fn leaves_are_told()
    ensures leaf { (pages : List (List ℕ)) (entries : List Entry) → page_at pages 0 ≡ Some (Leaf entries) → told_in pages ≡ Some (one_leaf entries) }
    ensures one { (pages : List (List ℕ)) (t : Telling) → told_in pages ≡ Some t → t.reached ≡ 1 → page_at pages 0 ≡ Some (Leaf t.entries) }
{}

/// A table has its root, and beside it no more than a page for each entry.
pub fn tables_have_few_pages()
    ensures some { (pages : List (List ℕ)) (t : Telling) → told_in pages ≡ Some t → 1 ≤ t.reached }
    ensures most { (pages : List (List ℕ)) (t : Telling) → told_in pages ≡ Some t → t.reached ≤ length t.entries + 1 }
{}

/// Pages tell a table exactly where none that is reached breaks its order or shape.
pub fn tables_are_told_or_broken()
    ensures broken { (pages : List (List ℕ)) (page : ℕ) → BreaksTable pages page → told_in pages ≡ None }
    ensures untold { (pages : List (List ℕ)) → told_in pages ≡ None → (page : ℕ) × BreaksTable pages page }
{}

//! Laws over the definitions: the functions do nothing, the contract of each is a law.
ghost use Rattle.std.specs.Prelude.{◌≡◌, ◌<◌, ◌≤◌, ◌^◌, ℕ, List, Some};
ghost use Rattle.fsd_formats.specs.declared.entry.Entry.{Entry};
ghost use Rattle.fsd_formats.specs.declared.page.Separator.{Separator};
ghost use Rattle.fsd_formats.specs.NamePage.{Content, Leaf, Interior, read_page, page_bytes};
ghost use Rattle.fsd_formats.specs.Record.{Stamp, stamp_bytes};
ghost use Rattle.fsd_bytes.specs.Bytes.{with_bytes};
ghost use Rattle.name_page.specs.Reading.{content_in, entries_read, first_in, separators_in};

/// What a page of a table has is what its bytes have by themselves, and a stamp changes the stamp alone.
pub fn pages_are_read()
    ensures content { (page p : ℕ) (bytes : List ℕ) (x : Content) → page < 2 ^ 32 → p ≤ 2 ^ 32 → read_page page p bytes ≡ Some x → content_in bytes ≡ Some x }
    ensures leaf { (bytes : List ℕ) (entries : List Entry) → content_in bytes ≡ Some (Leaf entries) → entries_read bytes ≡ entries }
    ensures first { (bytes : List ℕ) (first : ℕ) (separators : List Separator) → content_in bytes ≡ Some (Interior first separators) → first_in bytes ≡ Some first }
    ensures separators { (bytes : List ℕ) (first : ℕ) (separators : List Separator) → content_in bytes ≡ Some (Interior first separators) → separators_in bytes ≡ separators }
    ensures stamped { (page : ℕ) (old new : Stamp) (x : Content) → with_bytes 16 (stamp_bytes new) (page_bytes page old x) ≡ page_bytes page new x }
{}

//! Laws over the definitions: the functions do nothing, the contract of each is a law.
ghost use Rattle.std.specs.Prelude.{◌≡◌, ℕ, List, Option, Some, T, false, true};
ghost use Rattle.std.specs.FinMap.{is_sorted};
ghost use Rattle.std.specs.List.{list_any};
ghost use Rattle.fsd_bytes.specs.declared.key.Key.{Key};
ghost use Rattle.fsd_bytes.specs.Keys.{key_cmp, same_key};
ghost use Rattle.fsd_formats.specs.declared.entry.Entry.{Entry};
ghost use Rattle.fsd_formats.specs.NamePage.{are_ascending};
ghost use Rattle.fsd_table.specs.Pages.{entry_keys};
ghost use Rattle.fsd_files.specs.Answers.{entry_of, entry_put, highest_entry};
ghost use Rattle.fsd_files.specs.Files.{File, Files, gone_by_move, moved_keep, new_keep, new_key};
ghost use Rattle.fsd_files.specs.Kept.{Lists};
ghost use Rattle.fsd_files.specs.Volume.{entries_without};
ghost use Rattle.name_btree.specs.Map.{without_all};
ghost use Rattle.name_page.specs.Edits.{with_entry};
ghost use Rattle.name_page.specs.Lookups.{entry_with, highest_of};
ghost use Rattle.version_table.specs.Moving.{keep_moved, leaving_by_move};
ghost use Rattle.version_table.specs.Versions.{next_keep, next_key};

/// What is looked up in the table, and what is put in and taken out, is what the words of the files say of its entries.
pub fn tables_are_files_entries()
    ensures found { (key : Key) (table : List Entry) → entry_with key table ≡ entry_of key table }
    ensures highest { (name : List ℕ) (table : List Entry) → highest_of name table ≡ highest_entry name table }
    ensures without { (keys : List Key) (table : List Entry) → are_ascending (entry_keys table) ≡ true → without_all keys table ≡ entries_without keys table }
    ensures entered { (e : Entry) (keys : List Key) (table : List Entry) → list_any (same_key e.key) keys ≡ false → are_ascending (entry_keys table) ≡ true → with_entry e (without_all keys table) ≡ entries_without keys (entry_put e table) }
{}

/// The key and the keep of a name's next version are those that a put makes among the files whose entries these are.
pub fn next_versions_are_those_of_puts()
    ensures key { (name : List ℕ) (s : Files) (table : List Entry) → Lists s table → new_key name s ≡ next_key name table }
    ensures keep { (name : List ℕ) (given : Option ℕ) (s : Files) (table : List Entry) → Lists s table → new_keep name given s ≡ next_keep name given table }
{}

/// The keep of a version that moves, and what goes by it, are those of a move among the files whose entries these are.
pub fn moves_are_those_of_files()
    ensures keep { (name : List ℕ) (own : ℕ) (s : Files) (table : List Entry) → Lists s table → moved_keep name own s ≡ keep_moved name own table }
    ensures gone { (key : Key) (name : List ℕ) (x : File) (e : Entry) (s : Files) (table : List Entry) → Lists s table → T (is_sorted key_cmp s) → are_ascending (entry_keys table) ≡ true → entry_of key table ≡ Some e → x.keep ≡ e.keep → gone_by_move key name x s ≡ leaving_by_move key name e.keep table }
{}

//! The bytes of entries, to be written into a leaf.
ghost use Rattle.std.specs.Prelude.{◌≡◌, ◌≤◌, ◌+◌, ◌++◌, ℕ, List, Some, true, length};
ghost use Rattle.std.specs.List.{AllByRecursion, flat_map};
ghost use Rattle.fsd_formats.specs.declared.entry.Entry.{Entry};
ghost use Rattle.fsd_formats.specs.NamePage.{Leaf, FitsEntry, entry_bytes, is_entry, is_page, read_page, room};
ghost use Rattle.name_page.specs.Edits.{beside, with_entry};
ghost use Rattle.name_page.specs.Text.{IsTextOf};

use crate::entries::Side;
use crate::node::Entries;
use crate::writing::{entry_text, put_head};
use arrayvec::ArrayVec;
use fsd_bytes::{Key, put_bytes};
use fsd_formats::Entry;

/// The bytes of some entries, one more than a leaf has room for at most, and how many they are.
#[derive(Drop)]
pub struct LeafText {
    pub count: u16,
    pub bytes: ArrayVec<u8, 596>,
}

// Appends the bytes of an entry.
fn put_text(text: &mut LeafText, bytes: &[u8])
    requires few { text.old.count + 1 ≤ 65535 }
    requires room { length text.old.bytes.items + length bytes.now ≤ 596 }
    ensures bytes { text.new.bytes.items ≡ text.old.bytes.items ++ bytes.now }
    ensures count { text.new.count ≡ text.old.count + 1 }
{
    text.bytes.try_extend_from_slice(bytes).unwrap();
    text.count += 1;
}

// Appends the bytes of the entries on one side of a key.
fn put_side(text: &mut LeafText, entries: &Entries, key: &Key, side: Side)
    requires few { text.old.count + length (beside side key.now entries.now) ≤ 65535 }
    requires room { length text.old.bytes.items + length (flat_map entry_bytes (beside side key.now entries.now)) ≤ 596 }
    ensures bytes { text.new.bytes.items ≡ text.old.bytes.items ++ flat_map entry_bytes (beside side key.now entries.now) }
    ensures count { text.new.count ≡ text.old.count + length (beside side key.now entries.now) }
    ensures fits { AllByRecursion FitsEntry (beside side key.now entries.now) }
{
    for i in 0..entries.len() {
        if side.has(entries.compare(i, key)) {
            put_text(text, entries.text(i));
        }
    }
}

/// The bytes of the entries with this one, in place of that with its key.
pub fn text_with(entries: &Entries, entry: &Entry) -> LeafText
    requires few { length entries.now ≤ 18 }
    requires room { length (flat_map entry_bytes entries.now) ≤ room }
    requires entry { is_entry entry.now ≡ true }
    requires fits { FitsEntry entry.now }
    ensures text { IsTextOf result (with_entry entry.now entries.now) }
    ensures fits { AllByRecursion FitsEntry (with_entry entry.now entries.now) }
{
    let mut text = LeafText {
        count: 0,
        bytes: ArrayVec::new(),
    };
    put_side(&mut text, entries, &entry.key, Side::Lesser);
    put_text(&mut text, entry_text(entry).as_slice());
    put_side(&mut text, entries, &entry.key, Side::Greater);
    text
}

/// Writes a leaf that reads as the entries of these bytes.
pub fn write_text(page: u32, text: &LeafText, out: &mut [u8; 512])
    requires { length text.now.bytes.items ≤ room }
    ensures { (entries : List Entry) → IsTextOf text.now entries → is_page page 0 (Leaf entries) ≡ true → AllByRecursion FitsEntry entries
        → (p : ℕ) → read_page page p out.new ≡ Some (Leaf entries) }
{
    let bytes = text.bytes.as_slice();
    put_head(out, 1, text.count, bytes.len() as u16, page);
    put_bytes(out, 24, bytes);
}

//! Look-ups in a small table, page by page as the format spells it, and tables that are broken.
ghost use Rattle.std.specs.Prelude.{◌≡◌, IfOk};
ghost use Rattle.name_page.specs.declared.pages.TheConstants.{MOST_REACHED};
ghost use Rattle.name_page.specs.Pages.{reaches};

use fsd_bytes::{FileName, Key, Refusal};
use name_btree::{TreeFault, find, highest, next_after};
use name_page::{Pages, VecPages};
use std::alloc::{AllocError, Global};
use std::test::Fail;

// Page 0, whose keys of the right child are from b!9 on; its children are put into the bytes 27 and 76.
const ROOT: &[u8] = b"CNPG\x02\0\0\x01\0\x35\0\0\0\0\0\0\0\0\0\0\0\0\0\0\
    \0\0\0\0\x28nnnnnnnnnnnnnnnnnnnnnnnnnnnnnnnnnnnnnnnb\0\0\0\x09\0\0\0\0";

// Two leaves of three entries, of 66 bytes each.
const LOW: &[u8] = b"CNPG\x01\0\0\x03\0\xc6\0\0\0\0\0\x01\0\0\0\0\0\0\0\0\
    \x28nnnnnnnnnnnnnnnnnnnnnnnnnnnnnnnnnnnnnnna\0\0\0\x01\0\x02\0\0\0\x02\0\0\0\x01\0\0\0\0\x01\0\0\x03\x99\0\x01\
    \x28nnnnnnnnnnnnnnnnnnnnnnnnnnnnnnnnnnnnnnnb\0\0\0\x02\0\x02\0\0\0\x02\0\0\0\x01\0\0\0\0\x01\0\0\x03\x9a\0\x01\
    \x28nnnnnnnnnnnnnnnnnnnnnnnnnnnnnnnnnnnnnnnb\0\0\0\x05\0\x02\0\0\0\x02\0\0\0\x01\0\0\0\0\x01\0\0\x03\x9b\0\x01";

const HIGH: &[u8] = b"CNPG\x01\0\0\x03\0\xc6\0\0\0\0\0\x02\0\0\0\0\0\0\0\0\
    \x28nnnnnnnnnnnnnnnnnnnnnnnnnnnnnnnnnnnnnnnp\0\0\0\x01\0\x02\0\0\0\x02\0\0\0\x01\0\0\0\0\x01\0\0\x03\x9c\0\x01\
    \x28nnnnnnnnnnnnnnnnnnnnnnnnnnnnnnnnnnnnnnnq\0\0\0\x03\0\x02\0\0\0\x02\0\0\0\x01\0\0\0\0\x01\0\0\x03\x9d\0\x01\
    \x28nnnnnnnnnnnnnnnnnnnnnnnnnnnnnnnnnnnnnnnq\0\0\0\x04\0\x02\0\0\0\x02\0\0\0\x01\0\0\0\0\x01\0\0\x03\x9e\0\x01";

// The page that begins so and goes on with zeros.
fn page(front: &[u8]) -> [u8; 512] {
    let mut bytes = [0; 512];
    for (byte, spelled) in bytes.iter_mut().zip(front) {
        *byte = *spelled;
    }
    bytes
}

// A root with these children, and two leaves.
fn table(alloc: Global, left: u8, right: u8) -> Result<VecPages, AllocError>
    ensures { IfOk result (λ t. reaches (⟦<VecPages as Pages>⟧.step t) ≡ MOST_REACHED) }
{
    let mut root = page(ROOT);
    root[27] = left;
    root[76] = right;
    let pages = vec![in alloc; root, page(LOW), page(HIGH)]?;
    Ok(VecPages::new(pages, vec![in alloc; false; 3]?, 100))
}

// A version of the name of 40 bytes with this last one.
fn key(last: u8, version: u32) -> Key {
    let mut bytes = [b'n'; 40];
    bytes[39] = last;
    let name = FileName::parse(&bytes).unwrap_or_default();
    Key { name, version }
}

// The last byte of a name, a version, whether it stands, and the highest version of the name, or 0.
const KEYS: [(u8, u32, bool, u32); 5] = [
    (b'a', 1, true, 1),
    (b'b', 5, true, 5),
    (b'b', 9, false, 5),
    (b'c', 1, false, 0),
    (b'q', 3, true, 4),
];

const IN_ORDER: [(u8, u32); 6] = [
    (b'a', 1),
    (b'b', 2),
    (b'b', 5),
    (b'p', 1),
    (b'q', 3),
    (b'q', 4),
];

#[test]
fn versions_are_found_and_come_in_order(rt: HostRuntime) -> Result<(), Fail> {
    let mut t = table(rt.alloc(), 1, 2)?;
    for (last, version, stands, most) in KEYS {
        let key = key(last, version);
        t.rest();
        assert_eq!(rt; find(&mut t, &key)?.is_some(), stands);
        t.rest();
        let found = highest(&mut t, &key.name)?;
        assert_eq!(rt; found.map_or(0, |f| f.entry.key.version), most);
    }
    let mut last = None;
    for (letter, version) in IN_ORDER {
        t.rest();
        let found = next_after(&mut t, last.as_ref())?;
        last = found.map(|f| f.entry.key);
        assert_eq!(rt; last, Some(key(letter, version)));
    }
    t.rest();
    assert!(rt; next_after(&mut t, last.as_ref())?.is_none());
    Ok(())
}

// The children of a root, and what a look-up tells.
const BROKEN: [(u8, u8, TreeFault); 3] = [
    (2, 1, TreeFault::Broken(1)),
    (1, 0, TreeFault::Broken(0)),
    (1, 3, TreeFault::Pages(Refusal::Unsound(100))),
];

#[test]
fn broken_tables_are_told(rt: HostRuntime) -> Result<(), Fail> {
    for (left, right, fault) in BROKEN {
        let mut t = table(rt.alloc(), left, right)?;
        assert_eq!(rt; find(&mut t, &key(b'q', 3)).err(), Some(fault));
    }
    Ok(())
}

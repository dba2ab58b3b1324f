//! Pages as they are spelled.
ghost use Rattle.std.specs.Prelude.{◌≡◌, ◌≤◌, IfSome, true};
ghost use Rattle.fsd_formats.specs.NamePage.{is_entry};

use fsd_bytes::{FileName, Key, Serial};
use name_page::{
    Entry, Page, PageFault, PageKind, entry_len, read_page, stamp_page, write_free, write_leaf,
};
use run_table::{Run, Runs};

// An empty version in one sector.
fn entry(name: &[u8], version: u32, start: u32) -> Option<Entry>
    requires { 1 ≤ version }
    ensures { IfSome result (λ e. is_entry e ≡ true) }
{
    let mut runs = Runs::new();
    runs.push(Run { start, length: 1 });
    match FileName::parse(name) {
        Ok(name) => Some(Entry {
            key: Key { name, version },
            keep: 2,
            serial: Serial { epoch: 2, count: 1 },
            length: 0,
            runs,
        }),
        Err(_) => None,
    }
}

#[test]
fn pages_are_spelled_as_on_paper(rt: HostRuntime) {
    let (Some(first), Some(long)) = (
        entry(b"a", 1, 921),
        entry(b"0123456789012345678901234567890123456789", 7, 922),
    ) else {
        return;
    };
    assert_eq!(rt; (entry_len(&first), entry_len(&long)), (27, 66));
    let mut page = [0; 512];
    stamp_page(&mut page, 1, 0);
    write_leaf(0, &[first.copied()], &mut page);
    let spelled = b"CNPG\x01\0\0\x01\0\x1b\0\0\0\0\0\0\0\0\0\x01\0\0\0\0\
        \x01a\0\0\0\x01\0\x02\0\0\0\x02\0\0\0\x01\0\0\0\0\x01\0\0\x03\x99\0\x01\0";
    assert!(rt; page.starts_with(spelled));
    let head = Page {
        kind: PageKind::Leaf,
        count: 1,
        used: 27,
    };
    assert_eq!(rt; read_page(&page, 0, 64), Ok(head));
    assert_eq!(rt; read_page(&page, 1, 64), Err(PageFault { place: 8 }));
    page[50] = 0;
    assert_eq!(rt; read_page(&page, 0, 64), Err(PageFault { place: 49 }));
    write_free(0, &mut page);
    let free = Page {
        kind: PageKind::Free,
        count: 0,
        used: 0,
    };
    assert_eq!(rt; read_page(&page, 0, 6), Ok(free));
}

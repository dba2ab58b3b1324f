//! Records of the log and the anchor, as their fields lie.
use fsd_bytes::{put_bytes, put_u32, u16_at, u32_at};
use fsd_formats::Anchor;
use log_record::{Judged, anchor_bytes, judge, lay, read_anchor};
use volume_layout::Kind;

/// This page as the record of this number has it, in epoch 2.
pub(crate) fn image_in(page: u32, number: u32) -> [u8; 512] {
    let mut b = [0; 512];
    put_bytes(&mut b, 0, b"CNPG");
    put_u32(&mut b, 12, page);
    put_u32(&mut b, 16, 2);
    put_u32(&mut b, 20, number);
    b
}

// The record (2, 1) of page 0.
fn laid() -> [u8; 3584] {
    let mut out = [255; 3584];
    lay(Kind::Two, 2, 1, &[0], &image_in(0, 1), &mut out);
    out
}

/// One of the sectors of a record.
pub(crate) fn sector(out: &[u8; 3584], k: usize) -> [u8; 512] {
    let mut b = [0; 512];
    if k < 7 {
        b.copy_from_slice(&out[512 * k..512 * k + 512]);
    }
    b
}

// Which record it is with its page and its end damaged.
fn judged(bytes: &[u8; 3584]) -> Judged {
    let whole = [true, true, true, false, false, true, true];
    judge(Kind::Two, &whole, bytes, 16, 2, 1)
}

// How each sector of a record begins.
const BEGINNINGS: [(usize, u32); 7] = [
    (0, 0x434c_4844),
    (1, 0),
    (2, 0x434c_4844),
    (3, 0x434e_5047),
    (4, 0x434c_454e),
    (5, 0x434e_5047),
    (6, 0x434c_454e),
];

#[test]
fn records_lie_as_the_format_says(rt: HostRuntime) {
    let out = laid();
    for (k, magic) in BEGINNINGS {
        assert_eq!(rt; u32_at(&sector(&out, k), 0), magic);
    }
    let header = sector(&out, 0);
    assert_eq!(rt; (u32_at(&header, 4), u32_at(&header, 8)), (2, 1));
    assert_eq!(rt; (u16_at(&header, 12), u32_at(&header, 32)), (1, 0));
    match judged(&out) {
        Judged::Good(f) => {
            assert_eq!(rt; (f.n, f.header_copy, f.end_copy), (1, false, true));
            assert_eq!(rt; f.pages.as_slice()[..], [0].as_slice()[..]);
            assert_eq!(rt; f.page_copy.as_slice()[..], [true].as_slice()[..]);
        }
        Judged::NotThere => assert!(rt; false),
    }
}

#[test]
fn anchors_lie_as_the_format_says(rt: HostRuntime) {
    let anchor = Anchor {
        epoch: 1,
        third: 0,
        first: 1,
    };
    let b = anchor_bytes(&anchor);
    assert_eq!(rt; (u32_at(&b, 0), u32_at(&b, 4)), (0x4346_5341, 1));
    assert_eq!(rt; (u32_at(&b, 8), u32_at(&b, 12)), (0, 1));
    assert_eq!(rt; read_anchor(&b), Some(anchor));
}

//! The root sector, which says the layout.
ghost use Rattle.std.specs.Prelude.{◌≡◌};
ghost use Rattle.volume_layout.specs.Kinds.{kind_of};
ghost use Rattle.volume_layout.specs.Root.{root_bytes, read_root};

use crate::kind::Kind;
use crate::layout::Layout;
use fsd_bytes::{put_bytes, put_u32, u32_at};

/// The sector that says a layout: the magic `CFSR`, the kind of layout, its three numbers, and the sectors that it may grow
/// to, or 0 (docs/FORMAT.md).
pub fn root_bytes(l: &Layout) -> [u8; 512]
    ensures { result ≡ root_bytes l.now }
{
    let mut b = [0; 512];
    put_bytes(&mut b, 0, b"CFSR");
    put_u32(&mut b, 4, l.kind().number());
    put_u32(&mut b, 8, l.sectors());
    put_u32(&mut b, 12, l.third());
    put_u32(&mut b, 16, l.pages());
    put_u32(&mut b, 20, l.most());
    b
}

/// The layout whose root this is: one is found exactly on what `root_bytes` writes.
pub fn read_root(b: &[u8; 512]) -> Option<Layout>
    ensures { result ≡ read_root b.now }
{
    let kind = kind_of(u32_at(b, 4));
    match Layout::plan_as(
        kind,
        u32_at(b, 8),
        u32_at(b, 12),
        u32_at(b, 16),
        u32_at(b, 20),
    ) {
        Ok(l) => if root_bytes(&l) == *b { Some(l) } else { None },
        Err(_) => None,
    }
}

// The kind of a layout with this number.
fn kind_of(number: u32) -> Kind
    ensures { result ≡ kind_of number }
{
    if number == 2 { Kind::Three } else { Kind::Two }
}

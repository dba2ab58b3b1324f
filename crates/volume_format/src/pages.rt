//! The sectors of a volume that is new.
ghost use Rattle.std.specs.Prelude.{◌≡◌};
ghost use Rattle.fsd_sound.specs.Format.{format_page};

use fsd_bytes::{put_bytes, put_u8, put_u32};

// A name page: page 0 is an empty leaf, the others are free.
pub(crate) fn format_page(page: u32) -> [u8; 512]
    ensures { result ≡ format_page page }
{
    let mut b = [0; 512];
    put_bytes(&mut b, 0, b"CNPG");
    if page == 0 {
        put_u8(&mut b, 4, 1);
    }
    put_u32(&mut b, 12, page);
    put_u32(&mut b, 16, 1);
    b
}

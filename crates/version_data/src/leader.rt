//! Leaders as sectors.
ghost use Rattle.std.specs.Prelude.{◌≡◌, ◌≤◌, All};
ghost use Rattle.fsd_formats.specs.Leader.{leader_bytes, read_leader};

use fsd_bytes::{Serial, put_bytes, put_u8, put_u32, u8_at, u32_at};
use fsd_formats::Leader;
use run_table::Runs;

/// The one spelling of a leader: magic, serial, the version's bytes, its runs, and zeros (docs/FORMAT.md).
pub fn leader_bytes(x: &Leader) -> [u8; 512]
    requires { All (λ r. (1 ≤ r.length) × (r.length ≤ 65535)) x.now.runs }
    ensures { result ≡ leader_bytes x.now }
{
    let mut b = [0; 512];
    put_bytes(&mut b, 0, b"CLDR");
    put_u32(&mut b, 4, x.serial.epoch);
    put_u32(&mut b, 8, x.serial.count);
    put_u32(&mut b, 12, x.length);
    let runs = x.runs.as_slice();
    put_u8(&mut b, 16, runs.len() as u8);
    x.runs.put_bytes(&mut b[17..]);
    b
}

/// The leader that this sector spells, its one to eight runs none of them empty.
pub fn read_leader(b: &[u8; 512]) -> Option<Leader>
    ensures { result ≡ read_leader b.now }
{
    let count = usize::from(u8_at(b, 16));
    if count == 0 || count > 8 {
        return None;
    }
    let x = Leader {
        serial: Serial {
            epoch: u32_at(b, 4),
            count: u32_at(b, 8),
        },
        length: u32_at(b, 12),
        runs: Runs::read_bytes(&b[17..17 + 6 * count])?,
    };
    if leader_bytes(&x) == *b {
        Some(x)
    } else {
        None
    }
}

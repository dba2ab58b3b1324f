//! What a client has open.
ghost use Rattle.std.specs.Prelude.{◌≡◌, ℕ, None, List, Option, Some};
ghost use Rattle.sector_disk.specs.Machine.{Moment};
ghost use Rattle.volume_contract.specs.State.{Known, Stands};
ghost use Rattle.client_desk.specs.Clients.{GivesUpPart, IsOf};
ghost use Rattle.client_desk.specs.Ends.{IsOpenIn, given_up};

use fsd_bytes::FileName;
use sector_disk::Machine;
use volume_contract::{Draft, Files, Held};

/// A version that is made in pieces. The whole slices of its bytes so far are written, and all of them once it is
/// whole; the bytes behind them, which fill no slice, are here.
pub struct Creation {
    pub name: FileName,
    pub draft: Draft,
    pub got: u32,
    pub slice: [u8; 512],
}

/// A version that is read, and the place of its next byte.
pub struct Reader {
    pub held: Held,
    pub place: u32,
}

/// What a client has open.
pub enum Client {
    Idle,
    Writing(Creation),
    Reading(Reader),
}

/// Gives up what a client has open.
pub fn end<M: Machine, V: Files<M>>(v: &mut V, client: Client)
    requires { IsOf (V.state v.old) client }
    ensures idle { client ≡ Client.Idle → v.new ≡ v.old }
    ensures state { GivesUpPart client (V.state v.old) (V.state v.new) }
    ensures done { (k : Known) (now : Moment) → IsOpenIn k.opened client → Stands V.state V.holds v.old k now → Stands V.state V.holds v.new (given_up k client) now }
{
    match client {
        Client::Idle => {}
        Client::Writing(
            Creation {
                name: _,
                draft,
                got: _,
                slice: _,
            },
        ) => v.abandon(draft),
        Client::Reading(Reader { held, place: _ }) => v.unhold(held),
    }
}

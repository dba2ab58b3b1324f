//! Why a version isn't there, or is and no more was done.

use fsd_bytes::{Key, Refusal};

/// The put was refused, or the version of this key is made and the call behind the put was refused, or it is committed
/// and the sync failed at this place.
#[derive(Drop)]
pub enum ExampleFault {
    Put(Refusal),
    Behind { key: Key, why: Refusal },
    Unsynced { key: Key, place: u32 },
}

//! Room for the images of one record.
use log_record::MOST_PAGES;
use std::alloc::{AllocError, Global};
use std::marker::Model;

/// Room for the images of the most pages that a record has. A force that has it takes no memory.
#[derive(Drop)]
pub struct RecordRoom {
    pub(crate) images: Vec<u8>,
}

impl Model for RecordRoom {
    ghost use Rattle.std.specs.Prelude.{◌≡◌, ◌*◌, ℕ, List, length};
    ghost use Rattle.fsd_formats.specs.Record.{max_pages};

    ghost Value = { List ℕ };

    ghost view = { λ r. r.images.items };

    ghost invariant = { λ r. length r.images.items ≡ 512 * max_pages };
}

impl RecordRoom {
    ghost use Rattle.std.specs.Prelude.{◌≡◌, ◌*◌, IfOk, length};
    ghost use Rattle.fsd_formats.specs.Record.{max_pages};

    /// Room with nothing in it.
    pub fn new(alloc: Global) -> Result<RecordRoom, AllocError>
        ensures { IfOk result (λ r. length r ≡ 512 * max_pages) }
    {
        let images = vec![in alloc; 0u8; 512 * MOST_PAGES]?;
        Ok(RecordRoom { images })
    }
}

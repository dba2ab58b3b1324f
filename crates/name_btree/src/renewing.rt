//! Pages whose leave to change is renewed between calls.
ghost use Rattle.std.specs.Prelude.{◌≡◌, OnOk, IfErr, length};
ghost use Rattle.name_page.specs.Pages.{IsOuter, outer_in, renewed, with_images, with_refusal};

use fsd_bytes::Refusal;
use name_page::{Pages, VecPages};

/// Pages whose leave to change is renewed between calls:
/// where they stand in memory at any time, where they wait in a cache once they are written.
pub trait RenewedPages: Pages {
    /// Begins a step with the whole leave to change.
    fn begin(&mut self) -> Result<(), Refusal>
        ensures outside { Self.outside (outer_in result) self.old self.new }
        ensures count { length (Self.step self.new).images ≡ length (Self.step self.old).images }
        ensures stays { Self.trusted self.new → (Self.step self.new).images ≡ (Self.step self.old).images }
        ensures step { OnOk result (Self.step self.new ≡ renewed (with_images (Self.step self.new).images (Self.step self.old))) }
        ensures refused { IfErr result (λ refusal. Self.step self.new ≡ with_refusal refusal (with_images (Self.step self.new).images (Self.step self.old))) }
        ensures cause { IfErr result IsOuter };
}

impl RenewedPages for VecPages {
    fn begin(&mut self) -> Result<(), Refusal> {
        self.renew();
        Ok(())
    }
}

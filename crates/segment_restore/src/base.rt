//! What a repair begins from.
ghost use Rattle.std.specs.Prelude.{◌≡◌};
ghost use Rattle.std.specs.Option.{option_map};
ghost use Rattle.page_image.specs.declared.sealed.Sealed.{Sealed};
ghost use Rattle.segment_restore.specs.declared.base.Base.{Base};

use media::PageBytes;
use page_image::Sealed;

/// An image of a page, and its bytes where they are at hand: a page without a later record is written back as it was read, and
/// isn't sealed anew.
#[derive(Drop)]
pub struct Base {
    pub sealed: Sealed,
    pub bytes: Option<PageBytes>,
}

/// The image alone.
pub fn sealed_of(base: Option<Base>) -> Option<Sealed>
    ensures { result ≡ option_map (λ (b : Base). b.sealed) base }
{
    match base {
        Some(Base { sealed, .. }) => Some(sealed),
        None => None,
    }
}

ghost use Rattle.std.specs.Prelude.{◌≡◌};
ghost use Rattle.page_format.specs.Pages.{PageFits, page_bytes};

use crate::page::Page;
use std::marker::Model;

/// A page as a message brings it. Contracts see the bytes that spell it, all 16,384. In memory are those of its objects
/// alone: on the way nobody spells it, nor reads it anew.
#[derive(Debug, Drop)]
pub struct PageImage {
    page: Page,
}

impl Model for PageImage {
    ghost use Rattle.std.specs.Prelude.{ℕ, List};
    ghost use Rattle.page_format.specs.Pages.{PageFits, page_bytes};

    ghost Value = { List ℕ };

    ghost view = { λ i. page_bytes i.page };

    ghost invariant = { λ i. PageFits i.page };
}

impl PageImage {
    /// The image of a page. It takes no memory.
    pub fn new(page: Page) -> PageImage
        ensures { result ≡ page_bytes page }
    {
        page.within();
        let _number = page.number();
        PageImage { page }
    }

    /// The page whose bytes these are.
    pub fn page(&self) -> &Page
        ensures bytes { self.now ≡ page_bytes result.now }
        ensures fits { PageFits result.now }
    {
        &self.page
    }
}

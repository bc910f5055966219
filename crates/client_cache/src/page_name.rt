ghost use Rattle.std.specs.Prelude.{◌≡◌};
ghost use Rattle.client_cache.specs.Pages.{page_of};

use thor_value::Oref;

/// A page of a repository.
#[derive(Clone, Copy, Debug, PartialEq, Eq, Hash)]
pub struct PageName {
    /// The repository, from 0.
    pub repo: u8,
    /// The page of the repository, from 0.
    pub page: u32,
}

impl PageName {
    /// The page on which an object lies.
    pub fn of(oref: Oref) -> PageName
        ensures { result ≡ page_of oref }
    {
        PageName {
            repo: oref.repo,
            page: oref.page,
        }
    }
}

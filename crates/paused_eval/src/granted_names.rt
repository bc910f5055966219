ghost use Rattle.std.specs.Prelude.{◌≡◌, true, OnOk, OnErr};
ghost use Rattle.std.proofs.Props.{props};
ghost use Rattle.paused_eval.specs.FromPages.{FromPages};

use method_eval::Names;
use std::alloc::Global;
use thor_value::{NoMemory, Oref};

/// The names that repositories have granted to a client with their pages, and how many of them are given.
#[derive(Drop)]
pub struct GrantedNames {
    pub names: Names,
    pub ghost from_pages: { FromPages names } by { Prim.hlevel props },
}

impl GrantedNames {
    ghost use Rattle.method_eval.specs.Names as spec;

    /// No names. It takes no memory.
    pub fn new(alloc: Global) -> GrantedNames
        ensures { result.names ≡ spec.none }
    {
        GrantedNames {
            names: Names::new(alloc),
        }
    }

    /// Whether it has no name of this page that isn't spent.
    pub fn has_none_of(&self, repo: u8, page: u32) -> bool
        ensures { result ≡ spec.has_none_of self.now.names repo page }
    {
        self.names.has_none_of(repo, page)
    }

    /// A repository grants a page: its twelve names, but for those that are spent, come behind the others. The
    /// page wasn't granted since the repository's names were last dropped. After `NoMemory` it is as it was.
    #[tactic(auto, using(crate::proofs::Granted::granted_page))]
    pub fn grant(&mut self, repo: u8, page: u32) -> Result<(), NoMemory>
        requires { spec.has_none_of self.old.names repo page ≡ true }
        ensures ok { OnOk result (self.new.names ≡ spec.grant self.old.names repo page) }
        ensures err { OnErr result (self.new.names ≡ self.old.names) }
    {
        self.names.grant(repo, page)
    }

    /// Takes back the names that were given since the last `spend`. They are given again, in the same order.
    #[tactic(auto, using(crate::proofs::Granted::granted_reset))]
    pub fn reset(&mut self)
        ensures { self.new.names ≡ spec.reset self.old.names }
    {
        self.names.reset();
    }

    /// Spends the names that were given: they are never given again.
    #[tactic(auto, using(crate::proofs::Granted::granted_spend))]
    pub fn spend(&mut self)
        ensures { self.new.names ≡ spec.spend self.old.names }
    {
        self.names.spend();
    }

    /// Drops a repository's names, also those that were given. Which of them are spent is kept.
    #[tactic(auto, using(crate::proofs::Granted::granted_drop))]
    pub fn drop_repo(&mut self, repo: u8)
        ensures { self.new.names ≡ spec.drop_repo self.old.names repo }
    {
        self.names.drop_repo(repo);
    }
}

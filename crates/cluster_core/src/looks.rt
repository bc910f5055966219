//! What a store shows while it is open.

ghost use Rattle.cluster_core.specs.Counts.{clients_of, sites_in};
ghost use Rattle.std.specs.Prelude.{◌≡◌};

use crate::cluster::Cluster;
use cluster_port::{Opening, Site};
use disk_trait::Parts;
use front_end::FrontEnd;

impl<P: Parts, O: Opening> Cluster<P, O> {
    /// The repositories, in their order.
    pub fn sites(&self) -> &[Site<P, O>]
        ensures { result.now ≡ sites_in self.now }
    {
        self.sites.as_slice()
    }

    /// The clients 1, 2, ..
    pub fn clients(&self) -> &[FrontEnd]
        ensures { result.now ≡ clients_of self.now }
    {
        self.clients.as_slice()
    }
}

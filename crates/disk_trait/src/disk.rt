ghost use Rattle.disk_trait.specs.Numbers.{number};
ghost use Rattle.std.specs.Prelude.{◌≡◌, ◌<◌};

/// One of a repository's three disks.
#[derive(Clone, Copy, Debug, PartialEq, Eq)]
pub enum Disk {
    /// The first of the two that have its log.
    Log0,
    /// The second.
    Log1,
    /// That of its pages.
    Pages,
}

impl Disk {
    /// Its number, from 0, as contracts speak of it.
    pub fn number(self) -> u8
        ensures number { result ≡ number self }
        ensures there { result < 3 }
    {
        match self {
            Disk::Log0 => 0,
            Disk::Log1 => 1,
            Disk::Pages => 2,
        }
    }
}

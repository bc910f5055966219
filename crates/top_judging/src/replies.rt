//! What the program replies where a store wasn't opened.

ghost use Rattle.repo_opening.specs.declared.unopened.Unopened.TheVariants.{Failed};
ghost use Rattle.std.specs.Prelude.{IfOk, Ok, ℕ, ◌≡◌};
ghost use Rattle.top_judging.specs.Stages.{RepliesUnopened, RepliesUnsettled, RepliesWhy};
ghost use Rattle.top_reply.specs.declared.reply.Reply.TheVariants.{DiskFault};

use repo_opening::Unopened;
use thor_value::NoMemory;
use top_reply::Reply;

/// The reply where what the disks hold couldn't be read, or is no store.
pub fn unopened(why: Unopened) -> Result<Reply, NoMemory>
    ensures replied { IfOk result RepliesUnopened }
    ensures told { IfOk result (RepliesWhy why) }
{
    match why {
        Unopened::Failed { repo } => Ok(Reply::DiskFault { repo }),
        Unopened::Damaged { repo, disk, place } => Ok(Reply::Damaged { repo, disk, place }),
        Unopened::NoMemory => Err(NoMemory),
    }
}

/// The reply where a store that was read couldn't be opened then. Nothing is replied of a disk that gives other bytes than it gave: none
/// of its faults was counted, and the store's disks may have been written to.
pub fn unsettled(why: Unopened) -> Result<Reply, NoMemory>
    ensures replied { IfOk result RepliesUnsettled }
    ensures failed { (repo : ℕ) → result ≡ Ok (DiskFault repo) → why ≡ Failed repo }
{
    match why {
        Unopened::Failed { repo } => Ok(Reply::DiskFault { repo }),
        Unopened::Damaged { .. } | Unopened::NoMemory => Err(NoMemory),
    }
}

//! A repository's parts: three disks that a crash may tear, and a clock.
#![tactic(auto)]

mod all_disks;
mod clock;
mod counts;
mod crash;
mod disk;
mod files;
mod fuse;
mod fused;
mod mem_calls;
mod mem_disk;
mod mem_parts;
mod parts;
mod record;

pub use all_disks::{content_is_left, restart_all};
pub use clock::{Clock, SystemClock, TickClock};
pub use disk::Disk;
pub use files::FileParts;
pub use fused::Fused;
pub use mem_parts::MemParts;
pub use parts::{FARTHEST_END, Outage, Parts};
pub use record::{Call, Change, Did};

//! The store for C and Rust: a script is played on disks in memory, which are handed in and come back as bytes.
#![tactic(auto)]

mod devices;
mod given;
mod images;
mod playing;

use crate::images::Unread;
use crate::playing::{Lengths, play, play_on, play_with_devices};
pub use given::KilntaupeGiven;
use std::alloc::Global;
use top_reply::Status;

/// How long a report and an image are, whether they had room or not.
#[repr(C)]
#[derive(Clone, Copy)]
pub struct KilntaupeLengths {
    pub report: usize,
    pub image: usize,
}

/// The status of a run, whose lengths are put into their place. Without a run they are 0.
fn put_lengths(into: &mut KilntaupeLengths, played: Result<Lengths, Unread>) -> u8 {
    match played {
        Ok(lengths) => {
            into.report = lengths.report;
            into.image = lengths.image;
            lengths.status.code()
        }
        Err(why) => {
            into.report = 0;
            into.image = 0;
            match why {
                Unread::Wrong => Status::Words.code(),
                Unread::NoMemory => Status::NoMemory.code(),
            }
        }
    }
}

/// Plays a script on a new store in memory, which is let go of. The text that `kilntaupe play` would write goes into `report`, as much
/// of it as there is room for. The answer is the status with which it would end; 2, too, where an option isn't in its range.
#[unsafe(no_mangle)]
pub extern "C" fn kilntaupe_c_play(
    alloc: Global,
    given: &KilntaupeGiven,
    script: &[u8],
    report: &mut [u8],
    lengths: &mut KilntaupeLengths,
) -> u8 {
    put_lengths(lengths, play(alloc, given, script, report))
}

/// Plays a script on the store of an image, where it has bytes; else on a new store. The text that `kilntaupe play` would write goes
/// into `report`, and the image of what the disks hold then into `after`, as much of each as there is room for. The answer is the
/// status with which it would end; 2, too, where an option isn't in its range, or the image is none of so many repositories.
///
/// A run with the same arguments comes to the same, so where there wasn't room enough it can be made again.
#[unsafe(no_mangle)]
pub extern "C" fn kilntaupe_c_play_on(
    alloc: Global,
    given: &KilntaupeGiven,
    script: &[u8],
    image: &[u8],
    report: &mut [u8],
    after: &mut [u8],
    lengths: &mut KilntaupeLengths,
) -> u8 {
    put_lengths(lengths, play_on(alloc, given, script, image, report, after))
}

/// The same on disks and clocks that behave as `devices` says, to see what a store comes to where they fail.
///
/// `devices` has for each repository how many numbers its clock gives, and these; then how many calls of its disks fail, and of each
/// the number of its disk, 0 to 2 (the logs, then the pages), and which call of that disk it is, counted from 1. All are numbers of
/// eight bytes, the highest first. Behind its last number a clock gives that again and again, and 0 where it has none. A call that
/// fails changes nothing. Behind the image in `after` stand the calls of each disk: how many there were, as eight bytes, and a letter
/// for each: `r` it read, `l` told its length, `w` wrote, `s` synced, `c` was crashed and started again, `f` failed.
///
/// The answer is 2, too, where `devices` is none of so many repositories. An image may end behind any repository: those that are left
/// are new.
#[unsafe(no_mangle)]
pub extern "C" fn kilntaupe_c_play_with(
    alloc: Global,
    given: &KilntaupeGiven,
    script: &[u8],
    image: &[u8],
    devices: &[u8],
    report: &mut [u8],
    after: &mut [u8],
    lengths: &mut KilntaupeLengths,
) -> u8 {
    let played = play_with_devices(alloc, given, script, image, devices, report, after);
    put_lengths(lengths, played)
}

//! A script is played.

use crate::devices::GivenClock;
use crate::given::KilntaupeGiven;
use crate::images::{
    Disks, Unread, image_of, new_disks, put_all_calls, read_image, read_with_devices,
};
use disk_trait::{Clock, MemParts};
use outside::{MemSink, MemSource};
use std::alloc::Global;
use thor_top::{Outcome, Status, StoreParts, perform};
use thor_value::{Ints, NoMemory, Text, both};
use top_words::{Command, Plan};

/// The status of a run, and how long what it gives is.
#[derive(Clone, Copy)]
pub(crate) struct Lengths {
    pub status: Status,
    pub report: usize,
    pub image: usize,
}

/// What a run has come to.
#[derive(Drop)]
struct Played<C> {
    status: Status,
    /// How long its text is.
    report: usize,
    disks: Disks<C>,
}

/// Puts bytes into a room, as many as it takes. How many there were.
fn put_into(room: &mut [u8], bytes: &[u8]) -> usize {
    for (place, byte) in room.iter_mut().zip(bytes.iter()) {
        *place = *byte;
    }
    bytes.len()
}

/// Plays a script that is a text of its own, on disks.
fn play_text<C: Clock>(
    alloc: Global,
    given: &KilntaupeGiven,
    script: Text,
    disks: Disks<C>,
    report: &mut [u8],
) -> Played<C> {
    let mut source = MemSource::new(script, Ints::new(alloc));
    let mut sink = MemSink::new(Ints::new(alloc));
    let plan = Plan {
        command: Command::Play,
        repos: given.repos,
        store: None,
        tries: given.tries,
        mob: given.mob,
        cache: given.cache,
    };
    let Outcome {
        status,
        reply,
        parts,
        traces,
    } = perform(
        alloc,
        plan,
        &mut source,
        &mut sink,
        StoreParts {
            repositories: disks,
        },
    );
    drop(reply);
    drop(traces);
    let StoreParts { repositories } = parts;
    Played {
        status,
        report: put_into(report, sink.taken()),
        disks: repositories,
    }
}

/// Plays a script on disks.
fn play_disks<C: Clock>(
    alloc: Global,
    given: &KilntaupeGiven,
    script: &[u8],
    disks: Disks<C>,
    report: &mut [u8],
) -> Result<Played<C>, NoMemory> {
    let (disks, text) = both(disks, Text::from_slice(alloc, script))?;
    Ok(play_text(alloc, given, text, disks, report))
}

/// Plays a script on a new store.
pub(crate) fn play(
    alloc: Global,
    given: &KilntaupeGiven,
    script: &[u8],
    report: &mut [u8],
) -> Result<Lengths, Unread> {
    if !given.is_within_ranges() {
        return Err(Unread::Wrong);
    }
    let disks = new_disks(alloc, given.repos)?;
    let played = play_disks(alloc, given, script, disks, report)?;
    Ok(Lengths {
        status: played.status,
        report: played.report,
        image: 0,
    })
}

/// Plays a script on the store of an image, and puts the image of what its disks hold then.
pub(crate) fn play_on(
    alloc: Global,
    given: &KilntaupeGiven,
    script: &[u8],
    image: &[u8],
    report: &mut [u8],
    after: &mut [u8],
) -> Result<Lengths, Unread> {
    if !given.is_within_ranges() {
        return Err(Unread::Wrong);
    }
    let disks = read_image(alloc, image, given.repos)?;
    let played = play_disks(alloc, given, script, disks, report)?;
    let image = image_of(alloc, played.disks.as_slice());
    put_image(played, image, after)
}

/// The lengths of a run whose disks have this image.
fn put_image<C: Clock>(
    played: Played<C>,
    image: Result<Text, NoMemory>,
    after: &mut [u8],
) -> Result<Lengths, Unread> {
    let Played {
        status,
        report,
        disks,
    } = played;
    drop(disks);
    let image = image?;
    Ok(Lengths {
        status,
        report,
        image: put_into(after, image.as_slice()),
    })
}

/// The image of disks, and behind it the calls on them.
fn image_and_calls(alloc: Global, disks: &[MemParts<GivenClock>]) -> Result<Text, NoMemory> {
    let mut image = image_of(alloc, disks)?;
    put_all_calls(&mut image, disks)?;
    Ok(image)
}

/// Plays a script on the store of an image, with given clocks and failing calls, and puts the image of what its disks hold then, and
/// behind it the calls on them.
pub(crate) fn play_with_devices(
    alloc: Global,
    given: &KilntaupeGiven,
    script: &[u8],
    image: &[u8],
    devices: &[u8],
    report: &mut [u8],
    after: &mut [u8],
) -> Result<Lengths, Unread> {
    if !given.is_within_ranges() {
        return Err(Unread::Wrong);
    }
    let disks = read_with_devices(alloc, image, devices, given.repos)?;
    let played = play_disks(alloc, given, script, disks, report)?;
    let image = image_and_calls(alloc, played.disks.as_slice());
    put_image(played, image, after)
}

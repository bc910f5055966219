//! The top call, between standard input and standard output.

use disk_trait::Parts;
use outside::StdSource;
use std::mem;
use std::sync::Wait;
use std::thread::Threads;
use thor_top::{Outcome, Status, StoreParts, thor};
use thor_value::Texts;
use top_host::{Behind, NotingSink, Progress, advise_behind};

/// How the program ended, with the parts.
#[derive(Drop)]
pub struct Ended<P> {
    pub status: Status,
    /// Whether the report tells of a repository that was down.
    pub is_down: bool,
    pub parts: Vec<P>,
}

/// Calls the top call, and tells what its answer leaves open; on a terminal also how far a run is. The program ends behind it: what a run took beside the parts is
/// left to the system.
pub fn perform<R: Threads + Wait + Sync, P: Parts + Send>(
    rt: HostRuntime,
    threads: &R,
    words: &Texts,
    parts: Vec<P>,
) -> Ended<P> {
    let mut source = StdSource::new(rt.stdin());
    let progress = Progress::new(rt);
    let mut sink = NotingSink::new(rt.stdout(), &progress);
    let Outcome {
        status,
        parts,
        traces,
        ..
    } = thor(
        threads,
        rt.alloc(),
        words.as_slice(),
        &mut source,
        &mut sink,
        StoreParts {
            repositories: parts,
        },
        &progress,
    );
    progress.clear();
    let noted = sink.noted();
    advise_behind(
        rt,
        status,
        Behind {
            is_run: !traces.as_slice().is_empty(),
            is_unsound: progress.is_unsound(),
            is_changed: progress.is_changed(),
            noted,
        },
    );
    mem::forget(traces);
    let StoreParts { repositories } = parts;
    Ended {
        status,
        is_down: noted.is_down,
        parts: repositories,
    }
}

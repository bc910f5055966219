//! How far a run is, told on a terminal while it goes on.

use outside::Gate;
use std::io::IsTerminal;
use std::sync::atomic::Ordering::SeqCst;
use std::sync::atomic::{AtomicBool, AtomicU64, AtomicUsize};
use std::time::Instant;

/// How long the program has been at work before it tells how far a run is, in milliseconds.
const FIRST: u64 = 1_000;

/// How long it is until it tells that again, in milliseconds.
const PAUSE: u64 = 250;

/// The gate of the program: it lets everyone pass at once, and tells on standard error how many items of the run have ended, where
/// that is a terminal. That is one line, which is written over. It is written whole, and the cursor stands below it, so that a program
/// that is killed leaves nothing half written.
#[derive(Drop)]
pub struct Progress {
    rt: HostRuntime,
    /// When the program began; nothing where nobody is told, or the machine's clock can't be read.
    begun: Option<Instant>,
    /// How many items the run has.
    items: AtomicUsize,
    /// How many of them have ended.
    ended: AtomicUsize,
    /// When it is told next, in milliseconds since the program began.
    next: AtomicU64,
    /// Whether a thread is telling it.
    is_telling: AtomicBool,
    /// Whether the line stands above the cursor.
    is_shown: AtomicBool,
    /// Whether a run's history didn't pass its check.
    is_unsound: AtomicBool,
    /// Whether a disk gave other bytes than as the store was read.
    is_changed: AtomicBool,
}

impl Progress {
    /// A program begins, which tells it where standard error is a terminal.
    pub fn new(rt: HostRuntime) -> Progress {
        let begun = if rt.stderr().is_terminal() {
            Instant::now(&rt).ok()
        } else {
            None
        };
        Progress {
            rt,
            begun,
            items: AtomicUsize::new(0),
            ended: AtomicUsize::new(0),
            next: AtomicU64::new(FIRST),
            is_telling: AtomicBool::new(false),
            is_shown: AtomicBool::new(false),
            is_unsound: AtomicBool::new(false),
            is_changed: AtomicBool::new(false),
        }
    }

    /// Whether a run's history didn't pass its check.
    pub fn is_unsound(&self) -> bool {
        self.is_unsound.load(SeqCst)
    }

    /// Whether a disk gave other bytes than as the store was read.
    pub fn is_changed(&self) -> bool {
        self.is_changed.load(SeqCst)
    }

    /// Takes the line away, where it stands there. No thread tells any more.
    pub fn clear(&self) {
        if self.is_shown.swap(false, SeqCst) {
            let _ = eprint!(self.rt; "\x1b[A\r\x1b[K");
        }
    }

    /// How many milliseconds a program has been at work that began then.
    fn at_work(&self, begun: Instant) -> Option<u64> {
        let elapsed = begun.elapsed(&self.rt).ok()?;
        u64::try_from(elapsed.as_millis()).ok()
    }

    /// Whether all items of the run have ended.
    fn is_at_end(&self) -> bool {
        self.ended.load(SeqCst) == self.items.load(SeqCst)
    }

    /// Tells it where it is time to, and where the last item has ended. One thread alone does that at a time, and no other one waits
    /// for it.
    fn tell_when_due(&self, begun: Instant) {
        let Some(now) = self.at_work(begun) else {
            return;
        };
        if now < FIRST || now < self.next.load(SeqCst) && !self.is_at_end() {
            return;
        }
        if self.is_telling.swap(true, SeqCst) {
            return;
        }
        self.next.store(now.saturating_add(PAUSE), SeqCst);
        self.tell(now / 1_000);
        self.is_telling.store(false, SeqCst);
    }

    /// Writes the line in one piece, over the one that stands there. Where standard error takes nothing, nothing is told.
    fn tell(&self, seconds: u64) {
        let items = self.items.load(SeqCst);
        let ended = self.ended.load(SeqCst);
        let over = if self.is_shown.swap(true, SeqCst) {
            "\x1b[A"
        } else {
            ""
        };
        let _ = eprint!(self.rt;
            "{over}\r\x1b[Kkilntaupe: {ended} of {items} items have ended, {seconds} s\n"
        );
    }
}

impl Gate for Progress {
    fn pass(&self, _point: u32) {}

    fn begin_run(&self, items: usize) {
        self.items.store(items, SeqCst);
    }

    fn end_items(&self, count: usize) {
        if count == 0 {
            return;
        }
        if let Some(begun) = self.begun {
            self.ended.fetch_add(count, SeqCst);
            self.tell_when_due(begun);
        }
    }

    fn find_unsound(&self) {
        self.is_unsound.store(true, SeqCst);
    }

    fn find_changed(&self) {
        self.is_changed.store(true, SeqCst);
    }
}

//! Standard output, of which is noted what a person has to be told besides.

ghost use Rattle.std.specs.Prelude.{None};

use crate::progress::Progress;
use memchr::memmem::find;
use outside::{Failed, Sink, StdSink};
use std::io::Stdout;

/// What a report says of items that weren't done.
#[derive(Clone, Copy, Debug)]
pub struct Noted {
    /// One was refused since no timestamp was left.
    pub is_clock_end: bool,
    /// One was refused since a repository was down, or it isn't known whether it was done.
    pub is_down: bool,
}

/// Standard output. It tells nothing but its count of faults.
#[derive(Drop)]
pub struct NotingSink<'a> {
    sink: StdSink,
    /// What was told of the run meanwhile, which is taken away before the first write.
    progress: &'a Progress,
    /// What the text says; nothing before the first write, which has the whole text.
    noted: Option<Noted>,
}

impl<'a> NotingSink<'a> {
    /// Standard output, as a runtime gives it.
    pub fn new(output: Stdout, progress: &'a Progress) -> NotingSink<'a> {
        NotingSink {
            sink: StdSink::new(output),
            progress,
            noted: None,
        }
    }

    /// What the text said that was to be written.
    pub fn noted(&self) -> Noted {
        self.noted.unwrap_or(Noted {
            is_clock_end: false,
            is_down: false,
        })
    }
}

impl<'a> Sink for NotingSink<'a> {
    ghost taken = { λ _. None };

    ghost faults = { λ s. s.sink };

    fn write(&mut self, bytes: &[u8]) -> Result<usize, Failed> {
        if self.noted.is_none() {
            self.progress.clear();
            self.noted = Some(noted_in(bytes));
        }
        self.sink.write(bytes)
    }
}

fn noted_in(text: &[u8]) -> Noted {
    Noted {
        is_clock_end: find(text, b" Refused ClockEnd ").is_some(),
        is_down: find(text, b" Refused Down ").is_some() || find(text, b" Unknown ").is_some(),
    }
}

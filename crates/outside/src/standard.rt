ghost use Rattle.std.specs.Prelude.{◌≡◌, ◌≤◌, ◌<◌, ℕ, List, None, length, IfOk};

use crate::failed::Failed;
use crate::sink::Sink;
use crate::source::Source;
use std::io::{ErrorKind, Read, Result as IoResult, Stdin, Stdout, Write};
use std::marker::Model;

/// Standard input. It tells nothing but its count of faults, which is what contracts see of it.
#[derive(Debug, Drop)]
pub struct StdSource {
    input: Stdin,
    faults: u64,
}

/// Standard output. It tells nothing but its count of faults, which is what contracts see of it.
#[derive(Debug, Drop)]
pub struct StdSink {
    output: Stdout,
    faults: u64,
}

impl Model for StdSource {
    ghost Value = { ℕ };

    ghost view = { λ s. s.faults };
}

impl Model for StdSink {
    ghost Value = { ℕ };

    ghost view = { λ s. s.faults };
}

impl StdSource {
    /// Standard input, as a runtime gives it.
    pub fn new(input: Stdin) -> StdSource
        ensures { result ≡ 0 }
    {
        StdSource { input, faults: 0 }
    }

    /// How many reads failed. A read that a signal broke off is made again and is no fault.
    pub fn faults(&self) -> u64
        ensures { result ≡ self.now }
    {
        self.faults
    }
}

impl StdSink {
    /// Standard output, as a runtime gives it.
    pub fn new(output: Stdout) -> StdSink
        ensures { result ≡ 0 }
    {
        StdSink { output, faults: 0 }
    }

    /// How many writes failed. A write that a signal broke off is made again and is no fault.
    pub fn faults(&self) -> u64
        ensures { result ≡ self.now }
    {
        self.faults
    }
}

impl Source for StdSource {
    ghost left = { λ _. None };

    ghost faults = { λ count. count };

    fn read(&mut self, into: &mut [u8]) -> Result<usize, Failed> {
        match read_unbroken(self.input, into) {
            Ok(count) => Ok(count),
            Err(_) => {
                self.faults = self.faults.saturating_add(1);
                Err(Failed)
            }
        }
    }
}

impl Sink for StdSink {
    ghost taken = { λ _. None };

    ghost faults = { λ count. count };

    fn write(&mut self, bytes: &[u8]) -> Result<usize, Failed> {
        match write_unbroken(self.output, bytes) {
            Ok(count) if count > 0 || bytes.is_empty() => Ok(count),
            _ => {
                self.faults = self.faults.saturating_add(1);
                Err(Failed)
            }
        }
    }
}

/// Reads once, and again where a signal broke the read off.
fn read_unbroken(mut input: Stdin, into: &mut [u8]) -> IoResult<usize>
    ensures { IfOk result (λ count. count ≤ length into.new) }
{
    let mut answer = input.read(into);
    for _ in 0..u64::MAX {
        match answer {
            Err(error) if error.kind() == ErrorKind::Interrupted => answer = input.read(into),
            other => return other,
        }
    }
    answer
}

/// Writes once, and again where a signal broke the write off.
fn write_unbroken(mut output: Stdout, bytes: &[u8]) -> IoResult<usize>
    ensures { IfOk result (λ count. count ≤ length bytes.now) }
{
    let mut answer = output.write(bytes);
    for _ in 0..u64::MAX {
        match answer {
            Err(error) if error.kind() == ErrorKind::Interrupted => answer = output.write(bytes),
            other => return other,
        }
    }
    answer
}

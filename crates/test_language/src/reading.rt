//! Reports that are read back and printed again, and texts that are none.

use crate::reports::what;
use report_parse::{Line, Lines, Report, read_report};
use report_text::print_report;
use script_text::{Syntax, SyntaxError};
use serial_model::{Did, Dids, Ends};
use std::alloc::Global;
use thor_value::{NoMemory, Text};

/// Reports in which each form of a line comes, with the least and the greatest numbers.
const REPORTS: &[&[u8]] = &[
    b"history\nend 0\n",
    b"1.1 Done 1.0.1 try 2 :\n1.2 Done 2.0.1 try 2 upgrade 1\n1.3 Faulted NullCall 6.0.1 try 2\n1.4 Refused Stale 0.1.0 9 try 2\n1.5 Unknown 12.0.1\nhistory\n1.0.1 1.1 new 0.1.0 0.1.11 : 70 -7\n2.0.1 1.2 upgrade 1\n6.0.1 1.3 ! NullCall\nend 3\n",
    b"1.1 Faulted NullCall 3.0.1 try 1\n1.2 Faulted Steps 4.0.1 try 1\n1.3 Faulted Depth 5.0.1 try 1\n1.4 Faulted Large 6.0.1 try 1\nhistory\n3.0.1 1.1 ! NullCall\n4.0.1 1.2 ! Steps\n5.0.1 1.3 ! Depth\n6.0.1 1.4 ! Large\nend 4\n",
    b"2.1 Refused Stale 0.0.0 1 try 1\n2.2 Refused Earlier 7.0.1 1.2.3 try 1\n2.3 Refused Later 8.0.1 1.2.3 try 1\n2.4 Refused TooOld 9.0.1 try 1\n2.5 Refused Epoch 3 try 1\n2.6 Refused Blocked 10.0.1 try 1\n2.7 Refused Gone 4 try 1\n2.8 Refused Missing 7.65535.11 try 1\n2.9 Refused Down 2 try 1\n2.10 Refused Full 12 try 1\n2.11 Refused ClockEnd try 1\n2.12 Refused Calls try 1\nhistory\nend 0\n",
    b"255.4294967295 Done 10.0.1 try 4294967295 : -9223372036854775808 9223372036854775807 0\n64.1 Refused Stale 255.4294967295.255 18446744073709551615 try 1\n0.0 Done 18446744073709551615.255.4294967295 try 0 upgrade 4294967295\nhistory\n18446744073709551615.255.4294967295 255.4294967295 new 255.4294967295.255 : -9223372036854775808\n0.0.0 0.0 upgrade 4294967295\nend 2\n",
];

/// Texts that are no report, with the line on which they stop to be one.
const OTHERS: &[(&[u8], u32)] = &[
    // The end is missing, or what comes before it.
    (b"", 1),
    (b"history\n", 1),
    (b"history\nend 0", 2),
    (b"1.1 Unknown 1.0.1\n", 1),
    (b"1.1 Unknown 1.0.1\nend 0\n", 2),
    (b"history\n1.0.1 1.1 :\n", 2),
    // The end counts other entries, or something stands behind it.
    (b"history\nend 1\n", 2),
    (b"history\n1.0.1 1.1 :\nend 0\n", 3),
    (b"history\nend 00\n", 2),
    (b"history\nend 0\n\n", 3),
    (b"history\nend 0\nend 0\n", 3),
    // The words of a line in another order or form.
    (b"history\n1.1 1.0.1 :\nend 1\n", 2),
    (b"history\n1.0.1 1.1 new :\nend 1\n", 2),
    (b"history\n1.0.1 1.1 upgrade 0\nend 1\n", 2),
    (b"history\n1.0.1 1.1 : 1 new 0.1.0\nend 1\n", 2),
    (b"history\n1.0.1 1.1 ! Other\nend 1\n", 2),
    (b"1.1 Done 1.0.1 : try 1\nhistory\nend 0\n", 1),
    (b"1.1 Done 1.0.1 try 1:\nhistory\nend 0\n", 1),
    (b"1.1  Unknown 1.0.1\nhistory\nend 0\n", 1),
    (b"1.1 Unknown 1.0.1 try 1\nhistory\nend 0\n", 1),
    (b"1.1 Refused Calls\nhistory\nend 0\n", 1),
    // Numbers with a zero in front, of minus nothing, and above the greatest.
    (b"1.1 Done 1.0.1 try 01 :\nhistory\nend 0\n", 1),
    (b"1.1 Done 1.0.1 try 1 : -0\nhistory\nend 0\n", 1),
    (
        b"1.1 Done 1.0.1 try 1 : 9223372036854775808\nhistory\nend 0\n",
        1,
    ),
    (b"256.1 Unknown 1.0.1\nhistory\nend 0\n", 1),
    (b"1.1 Unknown 18446744073709551616.0.1\nhistory\nend 0\n", 1),
    (b"1.1 Done 1.0.1 try 4294967296 :\nhistory\nend 0\n", 1),
];

/// The entry of a line.
fn entry(alloc: Global, line: Line) -> Result<Did, NoMemory> {
    Ok(Did {
        ts: line.ts,
        who: line.who,
        what: what(alloc, line.number)?,
        number: line.number,
        fresh: line.fresh,
        answer: line.answer,
    })
}

/// The entries of lines.
fn entries(alloc: Global, lines: Lines) -> Result<Dids, NoMemory> {
    let mut history = Dids::new(alloc);
    for line in lines.into_vec() {
        history.push(entry(alloc, line)?)?;
    }
    Ok(history)
}

fn printed(alloc: Global, ended: &Ends, lines: Lines) -> Result<Text, NoMemory> {
    let history = entries(alloc, lines)?;
    print_report(alloc, ended, &history)
}

/// Whether a text is a report of which the same is printed.
fn is_printed_again(alloc: Global, text: &[u8]) -> bool {
    match read_report(alloc, text) {
        Ok(
            Report {
                ended,
                lines,
                looks: _,
                backups: _,
            },
        ) => match printed(alloc, &ended, lines) {
            Ok(again) => again.as_slice() == text,
            Err(_) => false,
        },
        Err(_) => false,
    }
}

/// How many reports are printed again before one that isn't.
fn printed_again(alloc: Global) -> usize {
    let mut count = 0usize;
    for text in REPORTS {
        if !is_printed_again(alloc, text) {
            return count;
        }
        count = count.saturating_add(1);
    }
    count
}

#[test]
fn reports_are_read_and_printed_again(rt: HostRuntime) {
    assert!(rt; printed_again(rt.alloc()) == REPORTS.len());
}

/// The line on which a text stops to be a report.
fn stop(alloc: Global, text: &[u8]) -> Option<u32> {
    match read_report(alloc, text) {
        Err(SyntaxError::Fault(Syntax { line })) => Some(line),
        _ => None,
    }
}

/// How many texts stop to be a report where they should, before one that doesn't.
fn stopped(alloc: Global) -> usize {
    let mut count = 0usize;
    for (text, line) in OTHERS {
        if stop(alloc, text) != Some(*line) {
            return count;
        }
        count = count.saturating_add(1);
    }
    count
}

#[test]
fn other_texts_are_refused_with_their_line(rt: HostRuntime) {
    assert!(rt; stopped(rt.alloc()) == OTHERS.len());
}

//! What the transactions of the schedules do, and what they are to print.

use crate::draws::Draws;
use std::alloc::Global;
use std::fmt::Write;
use thor_value::NoMemory;

/// How many roots there are.
pub(crate) const ROOTS: usize = 3;

/// What a transaction does to the numbers that the roots hold.
#[derive(Clone, Copy)]
pub(crate) enum Deed {
    /// It prints that of one.
    Get { root: usize },
    /// It adds to that of one, and prints it.
    Add { root: usize, amount: i64 },
    /// It moves from one to another, and prints both.
    Move { from: usize, to: usize, amount: i64 },
    /// It prints all.
    Sum,
}

/// What the roots hold.
pub(crate) type Values = [i64; ROOTS];

fn name(root: usize) -> &'static str {
    match root {
        0 => "a",
        1 => "b",
        _ => "c",
    }
}

fn root(draws: &mut Draws) -> usize {
    draws.below(3) as usize
}

fn amount(draws: &mut Draws) -> i64 {
    draws.below(90) as i64
}

/// One of the deeds.
pub(crate) fn draw_deed(draws: &mut Draws) -> Deed {
    match draws.below(5) {
        0 => Deed::Get { root: root(draws) },
        1 => Deed::Sum,
        2 => Deed::Add {
            root: root(draws),
            amount: amount(draws),
        },
        _ => Deed::Move {
            from: root(draws),
            to: root(draws),
            amount: amount(draws),
        },
    }
}

/// Puts a transaction's text behind others.
pub(crate) fn put_text(text: &mut String, deed: Deed) -> Result<(), NoMemory> {
    let written = match deed {
        Deed::Get { root } => write!(text, "tx {{ print {}.get(); }}\n", name(root)),
        Deed::Add { root, amount } => {
            write!(text, "tx {{ print {}.add({}); }}\n", name(root), amount)
        }
        Deed::Move { from, to, amount } => write!(
            text,
            "tx {{ print {}.add(0 - {}); print {}.add({}); }}\n",
            name(from),
            amount,
            name(to),
            amount
        ),
        Deed::Sum => write!(
            text,
            "tx {{ print a.get(); print b.get(); print c.get(); }}\n"
        ),
    };
    match written {
        Ok(()) => Ok(()),
        Err(_) => Err(NoMemory),
    }
}

/// Adds to what a root holds, and prints it.
fn add(
    alloc: Global,
    values: &mut Values,
    root: usize,
    amount: i64,
    out: &mut Vec<i64>,
) -> Result<(), NoMemory> {
    let _ = alloc;
    if let Some(value) = values.get_mut(root) {
        *value = value.wrapping_add(amount);
        out.push(*value)?;
    }
    Ok(())
}

/// Does a deed. What it prints.
pub(crate) fn perform(
    alloc: Global,
    values: &mut Values,
    deed: Deed,
) -> Result<Vec<i64>, NoMemory> {
    let mut out = Vec::new(alloc);
    match deed {
        Deed::Get { root } => add(alloc, values, root, 0, &mut out)?,
        Deed::Add { root, amount } => add(alloc, values, root, amount, &mut out)?,
        Deed::Move { from, to, amount } => {
            add(alloc, values, from, amount.wrapping_neg(), &mut out)?;
            add(alloc, values, to, amount, &mut out)?;
        }
        Deed::Sum => {
            for root in 0..ROOTS {
                add(alloc, values, root, 0, &mut out)?;
            }
        }
    }
    Ok(out)
}

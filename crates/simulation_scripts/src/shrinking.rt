//! A script at which something is wrong is shrunk: pieces are taken away while something stays wrong.

use crate::options::{Ending, Options};
use crate::pieces::Piece;
use crate::script::Script;
use std::alloc::Global;
use thor_value::NoMemory;

/// What tells whether something is wrong at a script.
pub trait Trial {
    /// Whether something is wrong.
    fn is_wrong(&mut self, script: &Script) -> Result<bool, NoMemory>;
}

/// How often all pieces are tried at most.
const ROUNDS: u8 = 6;

/// How many pieces beside one another are tried at once.
const SIZES: [usize; 4] = [24, 6, 2, 1];

/// Takes pieces away, from one place up to another, and puts their places down.
fn take_away(
    alloc: Global,
    pieces: &mut [Piece],
    from: usize,
    to: usize,
) -> Result<Vec<usize>, NoMemory> {
    let mut taken = Vec::new(alloc);
    for place in from..to {
        if let Some(piece) = pieces.get_mut(place) {
            if !piece.is_away {
                taken.push(place)?;
                piece.is_away = true;
            }
        }
    }
    Ok(taken)
}

/// Puts pieces back.
fn put_back(pieces: &mut [Piece], taken: &[usize]) {
    for place in taken {
        if let Some(piece) = pieces.get_mut(*place) {
            piece.is_away = false;
        }
    }
}

/// Tries to take pieces away. Whether they are away.
fn try_pieces<T: Trial>(
    alloc: Global,
    script: &mut Script,
    from: usize,
    to: usize,
    trial: &mut T,
) -> Result<bool, NoMemory> {
    let taken = take_away(alloc, &mut script.pieces, from, to)?;
    if taken.is_empty() {
        return Ok(false);
    }
    if trial.is_wrong(script)? {
        return Ok(true);
    }
    put_back(&mut script.pieces, &taken);
    Ok(false)
}

/// Tries all pieces, so many beside one another at once, the last ones first. Whether some went.
fn try_all<T: Trial>(
    alloc: Global,
    script: &mut Script,
    size: usize,
    trial: &mut T,
) -> Result<bool, NoMemory> {
    let mut went = false;
    let mut to = script.pieces.len();
    for _ in 0..script.pieces.len() {
        let from = to.saturating_sub(size);
        if from == to {
            return Ok(went);
        }
        if try_pieces(alloc, script, from, to, trial)? {
            went = true;
        }
        to = from;
    }
    Ok(went)
}

/// Tries other options. Whether they serve.
fn try_options<T: Trial>(
    script: &mut Script,
    options: Options,
    trial: &mut T,
) -> Result<bool, NoMemory> {
    let kept = script.options;
    script.options = options;
    if trial.is_wrong(script)? {
        return Ok(true);
    }
    script.options = kept;
    Ok(false)
}

/// Tries the usual options, one at a time, and fewer repositories.
fn try_usual<T: Trial>(script: &mut Script, trial: &mut T) -> Result<(), NoMemory> {
    let ending = Ending::Drained;
    let options = script.options;
    try_options(script, Options { ending, ..options }, trial)?;
    let options = script.options;
    try_options(
        script,
        Options {
            tries: 16,
            ..options
        },
        trial,
    )?;
    let options = script.options;
    try_options(
        script,
        Options {
            cache: 64,
            ..options
        },
        trial,
    )?;
    let options = script.options;
    let mob = 1_048_576;
    try_options(script, Options { mob, ..options }, trial)?;
    for _ in 0..7u8 {
        let options = script.options;
        let repos = options.repos.saturating_sub(1);
        if repos == 0 || !try_options(script, Options { repos, ..options }, trial)? {
            return Ok(());
        }
    }
    Ok(())
}

/// Tries pieces of all sizes. Whether some went.
fn try_sizes<T: Trial>(
    alloc: Global,
    script: &mut Script,
    trial: &mut T,
) -> Result<bool, NoMemory> {
    let mut went = false;
    for size in SIZES {
        if try_all(alloc, script, size, trial)? {
            went = true;
        }
    }
    Ok(went)
}

/// Takes away of a script what it doesn't need to be wrong.
pub fn shrink<T: Trial>(alloc: Global, script: &mut Script, trial: &mut T) -> Result<(), NoMemory> {
    for _ in 0..ROUNDS {
        try_usual(script, trial)?;
        if !try_sizes(alloc, script, trial)? {
            return Ok(());
        }
    }
    Ok(())
}

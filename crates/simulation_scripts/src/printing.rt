//! A script as text.

use crate::options::{Ending, Options};
use crate::pieces::{Event, Piece, What};
use crate::script::Script;
use std::alloc::Global;
use std::fmt::Write;
use thor_value::NoMemory;

/// The text, the depths of the blocks that are open in it, and what it has of clients and events.
#[derive(Drop)]
struct Printing {
    out: String,
    open: Vec<u8>,
    clients: u8,
    events: u32,
}

impl Printing {
    /// Closes the blocks that end before a piece of this depth.
    fn close(&mut self, depth: u8) -> Result<(), NoMemory> {
        for _ in 0..self.open.len() {
            match self.open.as_slice().last() {
                Some(open) if depth <= *open => {
                    self.open.pop();
                    self.out.push_str(" }")?;
                }
                _ => return Ok(()),
            }
        }
        Ok(())
    }

    /// Begins a line, by how deep the piece stands.
    fn begin(&mut self, depth: u8) -> Result<(), NoMemory> {
        self.out.push_str("\n")?;
        for _ in 0..depth {
            self.out.push_str("  ")?;
        }
        Ok(())
    }

    fn client(&mut self) -> Result<(), NoMemory> {
        self.clients = self.clients.saturating_add(1);
        let number = self.clients;
        write!(self.out, "\nclient {number}")?;
        Ok(())
    }

    /// Puts an event, sixteen on a line.
    fn event(&mut self, event: Event) -> Result<(), NoMemory> {
        if self.events == 0 {
            self.out.push_str("\nschedule")?;
        }
        self.out
            .push_str(if self.events % 16 == 0 { "\n" } else { " " })?;
        self.events = self.events.wrapping_add(1);
        match event {
            Event::Step { client } => write!(self.out, "s{client}")?,
            Event::Deliver { client, repo } => write!(self.out, "d{client}.{repo}")?,
            Event::Flush { repo } => write!(self.out, "f{repo}")?,
            Event::Checkpoint { repo } => write!(self.out, "k{repo}")?,
            Event::Stop { repo, calls } => write!(self.out, "x{repo}.{calls}")?,
            Event::Restart { repo, pick } => write!(self.out, "c{repo}.{pick}")?,
            Event::Settle { repo } => write!(self.out, "q{repo}")?,
        }
        Ok(())
    }

    fn piece(&mut self, piece: &Piece) -> Result<(), NoMemory> {
        self.close(piece.depth)?;
        match &piece.what {
            What::Line(text) => {
                self.begin(piece.depth)?;
                self.out.push_str(text)?;
                Ok(())
            }
            What::Block(text) => {
                self.begin(piece.depth)?;
                self.out.push_str(text)?;
                self.out.push_str(" {")?;
                self.open.push(piece.depth)?;
                Ok(())
            }
            What::Client => self.client(),
            What::Event(event) => self.event(*event),
        }
    }

    /// Puts the pieces that aren't taken away.
    fn pieces(&mut self, pieces: &[Piece]) -> Result<(), NoMemory> {
        let mut hidden = u8::MAX;
        for piece in pieces {
            if piece.depth <= hidden {
                hidden = u8::MAX;
                if piece.is_away {
                    hidden = piece.depth;
                } else {
                    self.piece(piece)?;
                }
            }
        }
        self.close(0)
    }
}

/// What comes behind the events, in a comment.
fn put_ending(out: &mut String, ending: Ending) -> Result<(), NoMemory> {
    match ending {
        Ending::Drained => Ok(()),
        Ending::Checkpointed => Ok(out.push_str(" // and then k of each repository")?),
        Ending::Again => Ok(out.push_str(
            " // and then opened again, with the same clients and events",
        )?),
        Ending::Cut { pick } => {
            write!(
                out,
                " // cut off behind the last event, and then c of each repository with pick {pick}"
            )?;
            Ok(())
        }
    }
}

/// The words with which the program plays it, in a comment.
fn put_words(out: &mut String, options: &Options) -> Result<(), NoMemory> {
    let Options {
        repos,
        tries,
        cache,
        mob,
        ending,
    } = *options;
    write!(
        out,
        "// kilntaupe play --repos {repos} --tries {tries} --cache {cache} --mob {mob}"
    )?;
    put_ending(out, ending)
}

/// The text of a script, without the pieces that are taken away.
pub fn print(alloc: Global, script: &Script) -> Result<String, NoMemory> {
    let mut printing = Printing {
        out: String::new(alloc),
        open: Vec::new(alloc),
        clients: 0,
        events: 0,
    };
    put_words(&mut printing.out, &script.options)?;
    printing.pieces(&script.pieces)?;
    printing.out.push_str("\n")?;
    let Printing { out, open, .. } = printing;
    drop(open);
    Ok(out)
}

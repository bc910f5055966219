//! A program that reads plain repositories' traces.

ghost use Rattle.model_repository.specs.ByReading.{base_at};
ghost use Rattle.std.specs.Prelude.{IfOk, slice_get, ◌≡◌};
ghost use Rattle.model_reading.specs.Opening.{base_of};

use crate::answers;
use crate::reading::{Reads, Step};
use log_entries::Request;
use model_reading::{Item, Opening, Reading};
use session_outbox::{Asked, Message, Verdict, Welcome};
use std::alloc::Global;
use thor_value::{NoMemory, Ts};

/// A reader of the traces of new repositories. It goes over all of a trace at each call, and has no clock: a timestamp is
/// one above the last one.
#[derive(Drop)]
pub struct Reader {
    pub alloc: Global,
    /// What the repositories began with, by their numbers.
    pub openings: Vec<Opening>,
}

impl Reader {
    /// What a repository began with. Want of memory, too, where there is none of this number.
    fn opening(&self, repo: u8) -> Result<&Opening, NoMemory>
        ensures { IfOk result (λ o. base_of o.now ≡ base_at (slice_get self.now.openings.items repo)) }
    {
        match self.openings.get(usize::from(repo)) {
            Some(opening) => Ok(opening),
            None => Err(NoMemory),
        }
    }
}

impl Reads for Reader {
    ghost use Rattle.model_repository.specs.ByReading.{base_at};
    ghost use Rattle.std.specs.Prelude.{slice_get};
    ghost use Rattle.model_reading.specs.Paging.{page_at, text_at};

    ghost bases = { λ r n. base_at (slice_get r.openings.items n) };

    ghost pages = { λ r n T page k. page_at (base_at (slice_get r.openings.items n)) T page k };

    ghost texts = { λ r n T number. text_at (base_at (slice_get r.openings.items n)) T number };

    fn connect(&self, repo: u8, items: &[Item], client: u8) -> Result<Step<Welcome>, NoMemory> {
        answers::connect(self.alloc, self.opening(repo)?, items, client)
    }

    fn fetch(
        &self,
        repo: u8,
        items: &[Item],
        session: u32,
        page: u32,
        upto: u64,
    ) -> Result<Step<()>, NoMemory> {
        answers::fetch(self.alloc, self.opening(repo)?, items, session, page, upto)
    }

    fn grant(&self, repo: u8, items: &[Item], session: u32) -> Result<Step<()>, NoMemory> {
        answers::grant(self.alloc, self.opening(repo)?, items, session)
    }

    fn receive(
        &self,
        repo: u8,
        items: &[Item],
        session: u32,
    ) -> Result<Step<Option<Message>>, NoMemory> {
        answers::receive(self.alloc, self.opening(repo)?, items, session)
    }

    fn draw(
        &self,
        repo: u8,
        items: &[Item],
        session: u32,
        floor: u64,
    ) -> Result<Step<Ts>, NoMemory> {
        answers::draw(self.alloc, self.opening(repo)?, items, session, floor)
    }

    fn prepare(
        &self,
        repo: u8,
        items: &[Item],
        session: u32,
        request: Request,
    ) -> Result<Step<u64>, NoMemory> {
        answers::prepare(self.alloc, self.opening(repo)?, items, session, request)
    }

    fn commit_one(
        &self,
        repo: u8,
        items: &[Item],
        session: u32,
        request: Request,
    ) -> Result<Step<u64>, NoMemory> {
        answers::commit_one(self.alloc, self.opening(repo)?, items, session, request)
    }

    fn decide(
        &self,
        repo: u8,
        items: &[Item],
        session: u32,
        tx: Ts,
        commit: bool,
    ) -> Result<Step<Verdict>, NoMemory> {
        answers::decide(self.alloc, self.opening(repo)?, items, session, tx, commit)
    }

    fn finish(
        &self,
        repo: u8,
        items: &[Item],
        tx: Ts,
        commit: bool,
    ) -> Result<Step<Option<u64>>, NoMemory> {
        answers::finish(self.alloc, self.opening(repo)?, items, tx, commit)
    }

    fn forget(&self, _repo: u8, items: &[Item], tx: Ts) -> Result<Step<()>, NoMemory> {
        Ok(answers::forget(items, tx))
    }

    fn ask(&self, repo: u8, items: &[Item], tx: Ts) -> Result<Step<Asked>, NoMemory> {
        answers::ask(self.alloc, self.opening(repo)?, items, tx)
    }

    fn next_life(&self, repo: u8, items: &[Item]) -> Result<u32, NoMemory> {
        answers::next_life(self.alloc, self.opening(repo)?, items)
    }
}

//! How what a plain repository answers is read off its trace.

use log_entries::Request;
use model_reading::Item;
use repo_refusals::Refusal;
use session_outbox::{Asked, Message, Verdict, Welcome};
use thor_value::{NoMemory, Ts};

/// A step of a repository: its answer, and the item that comes behind its trace, if one does.
pub type Step<X> = (Result<X, Refusal>, Option<Item>);

/// A program that reads off a repository's trace what it answers to each call: the definitions of a plain repository
/// (`law_client_views::Plain`), as far as there is memory.
pub trait Reads {
    ghost use Rattle.spec_history.specs.History.{Base, state};
    ghost use Rattle.model_repository.specs.Reading.{IsOkStep, IsStep};
    ghost use Rattle.law_client_views.specs.Plain as plain;
    ghost use Rattle.law_client_views.specs.Plain.{message_of};
    ghost use Rattle.spec_trace.specs.Trace.{Item as AnItem, entries};
    ghost use Rattle.std.specs.Prelude.{IfOk, List, ℕ, ◌+◌, ◌≡◌};
    ghost use Rattle.model_reading.specs.Items.{trace_of};

    // What each repository began with, by its number.
    ghost bases: { Self → ℕ → Base };

    // The bytes of a page of a repository at a place of its trace.
    ghost pages: { Self → ℕ → List AnItem → ℕ → ℕ → List ℕ };

    // The text of an upgrade of a repository, by its number.
    ghost texts: { Self → ℕ → List AnItem → ℕ → List ℕ };

    /// What is answered to a client that connects. Want of memory, too, where no number of a session is left.
    fn connect(&self, repo: u8, items: &[Item], client: u8) -> Result<Step<Welcome>, NoMemory>
        ensures { IfOk result (λ step. IsOkStep items.now step (plain.connect (bases self.now repo) (trace_of items.now) client)) };

    /// To one that asks for a page.
    fn fetch(
        &self,
        repo: u8,
        items: &[Item],
        session: u32,
        page: u32,
        upto: u64,
    ) -> Result<Step<()>, NoMemory>
        ensures { IfOk result (λ step. IsStep items.now step (plain.fetch (bases self.now repo) (trace_of items.now) session page upto)) };

    /// To one that asks for a page of names.
    fn grant(&self, repo: u8, items: &[Item], session: u32) -> Result<Step<()>, NoMemory>
        ensures { IfOk result (λ step. IsStep items.now step (plain.grant (bases self.now repo) (trace_of items.now) session)) };

    /// To one that takes a message.
    fn receive(
        &self,
        repo: u8,
        items: &[Item],
        session: u32,
    ) -> Result<Step<Option<Message>>, NoMemory>
        ensures { IfOk result (λ step. IsStep items.now step (plain.receive (message_of (pages self.now repo (trace_of items.now)) (texts self.now repo (trace_of items.now))) (bases self.now repo) (trace_of items.now) session)) };

    /// To one that draws a timestamp, where a clock says some time.
    fn draw(&self, repo: u8, items: &[Item], session: u32, floor: u64) -> Result<Step<Ts>, NoMemory>
        ensures { IfOk result (λ step. (now : ℕ) × IsStep items.now step (plain.draw (bases self.now repo) (trace_of items.now) session now floor)) };

    /// To one that has a transaction of several repositories prepared.
    fn prepare(
        &self,
        repo: u8,
        items: &[Item],
        session: u32,
        request: Request,
    ) -> Result<Step<u64>, NoMemory>
        ensures { IfOk result (λ step. IsStep items.now step (plain.prepare (bases self.now repo) (trace_of items.now) session request)) };

    /// To one that has a transaction of this repository committed.
    fn commit_one(
        &self,
        repo: u8,
        items: &[Item],
        session: u32,
        request: Request,
    ) -> Result<Step<u64>, NoMemory>
        ensures { IfOk result (λ step. IsStep items.now step (plain.commit_one (bases self.now repo) (trace_of items.now) session request)) };

    /// To one that decides a transaction.
    fn decide(
        &self,
        repo: u8,
        items: &[Item],
        session: u32,
        tx: Ts,
        commit: bool,
    ) -> Result<Step<Verdict>, NoMemory>
        ensures { IfOk result (λ step. IsStep items.now step (plain.decide (bases self.now repo) (trace_of items.now) session tx commit)) };

    /// To one that hands on a verdict.
    fn finish(
        &self,
        repo: u8,
        items: &[Item],
        tx: Ts,
        commit: bool,
    ) -> Result<Step<Option<u64>>, NoMemory>
        ensures { IfOk result (λ step. IsStep items.now step (plain.finish (bases self.now repo) (trace_of items.now) tx commit)) };

    /// To one that has a decision forgotten.
    fn forget(&self, repo: u8, items: &[Item], tx: Ts) -> Result<Step<()>, NoMemory>
        ensures { IfOk result (λ step. IsStep items.now step (plain.forget (trace_of items.now) tx)) };

    /// To one that asks for a verdict.
    fn ask(&self, repo: u8, items: &[Item], tx: Ts) -> Result<Step<Asked>, NoMemory>
        ensures { IfOk result (λ step. IsStep items.now step (plain.ask (bases self.now repo) (trace_of items.now) tx)) };

    /// The number of the life that begins next.
    fn next_life(&self, repo: u8, items: &[Item]) -> Result<u32, NoMemory>
        ensures { IfOk result (λ life. life ≡ (state (bases self.now repo) (entries (trace_of items.now))).life + 1) };
}

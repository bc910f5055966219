use log_entries::Request;
use repo_refusals::Refusal;
use session_outbox::{Asked, At, Message, Verdict, Welcome};
use thor_value::Ts;

/// Repositories, as a client calls them. Each call is one event of one repository.
///
/// Every call may be refused with `NoMemory`, `Down`, `Stopped` and `Damaged`; beside these each gives only
/// the refusals that it lists. What has changed after a refusal, `Refusal` says.
///
/// A port that shows what its calls do tells proofs what its client has seen of each repository, and each call
/// does its work there (`Works`): from the trace that it met to the one behind it, by its answer. A port that
/// shows nothing promises nothing of this.
pub trait Port {
    ghost use Rattle.client_port.specs.Views.{View};
    ghost use Rattle.client_port.specs.Works.{AskWork, CommitWork, ConnectWork, DecideWork, Does, DrawWork, FetchWork, FinishWork, ForgetWork, GrantWork, PrepareWork, ReceiveWork};
    ghost use Rattle.std.specs.Prelude.{Bool, true, ◌≡◌};

    // Whether it shows what its calls do.
    ghost shows: { Bool };

    // What its client has seen of the repositories.
    ghost view: { Self → View };

    /// Begins a session of the client at the repository, and ends its older one. The session's messages
    /// begin at the place that the welcome tells.
    fn connect(&mut self, repo: u8, client: u8) -> Result<Welcome, Refusal>
        ensures call { shows ≡ true → Does (view self.old) (view self.new) repo result (ConnectWork client result) };

    /// Asks for a page, which comes as a message. Messages below `upto` are acknowledged. Refusal: `Gone`.
    fn fetch(&mut self, at: At, page: u32, upto: u64) -> Result<(), Refusal>
        ensures call { shows ≡ true → Does (view self.old) (view self.new) at.repo result (FetchWork at.session page upto result) };

    /// Asks for a page of names for new objects, which comes as a message. Refusals: `Gone`; `Full` where the
    /// repository has no page left.
    fn grant(&mut self, at: At) -> Result<(), Refusal>
        ensures call { shows ≡ true → Does (view self.old) (view self.new) at.repo result (GrantWork at.session result) };

    /// Takes the session's oldest message; `None` exactly where none waits. Refusal: `Gone`.
    fn receive(&mut self, at: At) -> Result<Option<Message>, Refusal>
        ensures call { shows ≡ true → Does (view self.old) (view self.new) at.repo result (ReceiveWork at.session result) };

    /// Draws a timestamp above the floor. Refusals: `Gone`, `ClockEnd`.
    fn draw(&mut self, at: At, floor: u64) -> Result<Ts, Refusal>
        ensures call { shows ≡ true → Does (view self.old) (view self.new) at.repo result (DrawWork at.session floor result) };

    /// Prepares a transaction that has other participants, too. The answer is the place of its entry in the
    /// repository's history. Refusals: `Gone`, `Blocked`, `Epoch`, `TooOld`, `Stale`, `Earlier`, `Later`,
    /// `Full`.
    fn prepare(&mut self, at: At, request: Request) -> Result<u64, Refusal>
        ensures call { shows ≡ true → Does (view self.old) (view self.new) at.repo result (PrepareWork at.session request result) };

    /// Commits a transaction with this one participant. Answer and refusals are those of `prepare`.
    fn commit_one(&mut self, at: At, request: Request) -> Result<u64, Refusal>
        ensures call { shows ≡ true → Does (view self.old) (view self.new) at.repo result (CommitWork at.session request result) };

    /// Decides a transaction at its coordinator, also where the session was given up since. Refusal: `Gone`, where it has
    /// ended.
    fn decide(&mut self, at: At, tx: Ts, commit: bool) -> Result<Verdict, Refusal>
        ensures call { shows ≡ true → Does (view self.old) (view self.new) at.repo result (DecideWork at.session tx commit result) };

    /// Hands a participant the coordinator's verdict. The answer is the place of the entry; `None` exactly
    /// where the transaction isn't prepared there.
    fn finish(&mut self, repo: u8, verdict: &Verdict) -> Result<Option<u64>, Refusal>
        ensures call { shows ≡ true → Does (view self.old) (view self.new) repo result (FinishWork verdict.now.tx verdict.now.commit result) };

    /// Lets the coordinator forget a decision to commit that every participant has finished.
    fn forget(&mut self, repo: u8, tx: Ts) -> Result<(), Refusal>
        ensures call { shows ≡ true → Does (view self.old) (view self.new) repo result (ForgetWork tx result) };

    /// Asks the coordinator for its verdict. It takes no memory.
    fn ask(&mut self, repo: u8, tx: Ts) -> Result<Asked, Refusal>
        ensures call { shows ≡ true → Does (view self.old) (view self.new) repo result (AskWork tx result) };
}

//! The calls of a client on one plain repository.

ghost use Rattle.model_repository.specs.Sites.{SiteDoes};
ghost use Rattle.client_port.specs.Works.{AskWork, CommitWork, ConnectWork, DecideWork, DrawWork, FetchWork, FinishWork, ForgetWork, GrantWork, PrepareWork, ReceiveWork};

use crate::reading::Reads;
use crate::site::Site;
use log_entries::Request;
use repo_refusals::Refusal;
use session_outbox::{Asked, At, Message, Verdict, Welcome};
use thor_value::{NoMemory, Ts};

/// Begins a session of a client.
pub(crate) fn connect<R: Reads>(
    site: &mut Site,
    reader: &R,
    client: u8,
    repo: u8,
    of: u8,
) -> Result<Welcome, Refusal>
    ensures { SiteDoes client repo (R.bases reader.now repo) site.old site.new result (ConnectWork of result) }
{
    if site.is_down() {
        return Err(Refusal::Down { repo: repo });
    }
    let plan = reader.connect(repo, site.items.as_slice(), of);
    site.put(plan)
}

/// Asks for a page.
pub(crate) fn fetch<R: Reads>(
    site: &mut Site,
    reader: &R,
    client: u8,
    at: At,
    page: u32,
    upto: u64,
) -> Result<(), Refusal>
    ensures { SiteDoes client at.repo (R.bases reader.now at.repo) site.old site.new result (FetchWork at.session page upto result) }
{
    if site.is_down() {
        return Err(Refusal::Down { repo: at.repo });
    }
    let plan = reader.fetch(at.repo, site.items.as_slice(), at.session, page, upto);
    site.put(plan)
}

/// Asks for a page of names.
pub(crate) fn grant<R: Reads>(
    site: &mut Site,
    reader: &R,
    client: u8,
    at: At,
) -> Result<(), Refusal>
    ensures { SiteDoes client at.repo (R.bases reader.now at.repo) site.old site.new result (GrantWork at.session result) }
{
    if site.is_down() {
        return Err(Refusal::Down { repo: at.repo });
    }
    let plan = reader.grant(at.repo, site.items.as_slice(), at.session);
    site.put(plan)
}

/// Takes the oldest message.
pub(crate) fn receive<R: Reads>(
    site: &mut Site,
    reader: &R,
    client: u8,
    at: At,
) -> Result<Option<Message>, Refusal>
    ensures { SiteDoes client at.repo (R.bases reader.now at.repo) site.old site.new result (ReceiveWork at.session result) }
{
    if site.is_down() {
        return Err(Refusal::Down { repo: at.repo });
    }
    let plan = reader.receive(at.repo, site.items.as_slice(), at.session);
    site.put(plan)
}

/// Draws a timestamp.
pub(crate) fn draw<R: Reads>(
    site: &mut Site,
    reader: &R,
    client: u8,
    at: At,
    floor: u64,
) -> Result<Ts, Refusal>
    ensures { SiteDoes client at.repo (R.bases reader.now at.repo) site.old site.new result (DrawWork at.session floor result) }
{
    if site.is_down() {
        return Err(Refusal::Down { repo: at.repo });
    }
    let plan = reader.draw(at.repo, site.items.as_slice(), at.session, floor);
    site.put(plan)
}

/// Prepares a transaction. A request of another session than the call's takes the repository down.
pub(crate) fn prepare<R: Reads>(
    site: &mut Site,
    reader: &R,
    client: u8,
    at: At,
    request: Request,
) -> Result<u64, Refusal>
    ensures { SiteDoes client at.repo (R.bases reader.now at.repo) site.old site.new result (PrepareWork at.session request result) }
{
    if site.is_down() {
        return Err(Refusal::Down { repo: at.repo });
    }
    if request.session != at.session {
        return site.take(client, at.repo, Err(NoMemory));
    }
    let plan = reader.prepare(at.repo, site.items.as_slice(), at.session, request);
    site.take(client, at.repo, plan)
}

/// Commits a transaction. A request of another session than the call's takes the repository down.
pub(crate) fn commit_one<R: Reads>(
    site: &mut Site,
    reader: &R,
    client: u8,
    at: At,
    request: Request,
) -> Result<u64, Refusal>
    ensures { SiteDoes client at.repo (R.bases reader.now at.repo) site.old site.new result (CommitWork at.session request result) }
{
    if site.is_down() {
        return Err(Refusal::Down { repo: at.repo });
    }
    if request.session != at.session {
        return site.take(client, at.repo, Err(NoMemory));
    }
    let plan = reader.commit_one(at.repo, site.items.as_slice(), at.session, request);
    site.take(client, at.repo, plan)
}

/// Decides a transaction.
pub(crate) fn decide<R: Reads>(
    site: &mut Site,
    reader: &R,
    client: u8,
    at: At,
    tx: Ts,
    commit: bool,
) -> Result<Verdict, Refusal>
    ensures { SiteDoes client at.repo (R.bases reader.now at.repo) site.old site.new result (DecideWork at.session tx commit result) }
{
    if site.is_down() {
        return Err(Refusal::Down { repo: at.repo });
    }
    let plan = reader.decide(at.repo, site.items.as_slice(), at.session, tx, commit);
    site.take(client, at.repo, plan)
}

/// Hands on a verdict.
pub(crate) fn finish<R: Reads>(
    site: &mut Site,
    reader: &R,
    client: u8,
    repo: u8,
    verdict: &Verdict,
) -> Result<Option<u64>, Refusal>
    ensures { SiteDoes client repo (R.bases reader.now repo) site.old site.new result (FinishWork verdict.now.tx verdict.now.commit result) }
{
    if site.is_down() {
        return Err(Refusal::Down { repo: repo });
    }
    let plan = reader.finish(repo, site.items.as_slice(), verdict.tx(), verdict.commit());
    site.take(client, repo, plan)
}

/// Lets a decision be forgotten.
pub(crate) fn forget<R: Reads>(
    site: &mut Site,
    reader: &R,
    client: u8,
    repo: u8,
    tx: Ts,
) -> Result<(), Refusal>
    ensures { SiteDoes client repo (R.bases reader.now repo) site.old site.new result (ForgetWork tx result) }
{
    if site.is_down() {
        return Err(Refusal::Down { repo: repo });
    }
    let plan = reader.forget(repo, site.items.as_slice(), tx);
    site.put(plan)
}

/// Asks for a verdict.
pub(crate) fn ask<R: Reads>(
    site: &mut Site,
    reader: &R,
    client: u8,
    repo: u8,
    tx: Ts,
) -> Result<Asked, Refusal>
    ensures { SiteDoes client repo (R.bases reader.now repo) site.old site.new result (AskWork tx result) }
{
    if site.is_down() {
        return Err(Refusal::Down { repo: repo });
    }
    let plan = reader.ask(repo, site.items.as_slice(), tx);
    site.put(plan)
}

//! What a plain repository answers, by what was read of its trace.

ghost use Rattle.log_entries.specs.declared.entry.Entry.TheVariants.{Prepared};
ghost use Rattle.spec_history.specs.History.{known_in, state};
ghost use Rattle.session_outbox.specs.Messages.{place_of};
ghost use Rattle.model_repository.specs.ByReading.{ask_by, commits_by_reading, decide_by, decide_live, draw_by, draw_live, fetch_by, finish_by, gone, grant_by, grant_live, receive_by, requested_by, stamp_by, welcome_by};
ghost use Rattle.model_repository.specs.Reading.{IsOkStep, IsStep, added};
ghost use Rattle.client_port.specs.Works.{alone_entry, is_prepared_by};
ghost use Rattle.law_client_views.specs.Plain as plain;
ghost use Rattle.law_client_views.specs.Plain.{message_of};
ghost use Rattle.spec_trace.specs.Calls.{drawn_time};
ghost use Rattle.spec_trace.specs.Trace.{E, M, entries};
ghost use Rattle.spec_trace.specs.declared.mark.Mark.TheVariants as the;
ghost use Rattle.std.specs.Option.{option_and_then, unwrap_or};
ghost use Rattle.std.specs.Prelude.{IfOk, List, Ok, Some, [], ◌+◌, ◌∷◌, ◌≡◌};
ghost use Rattle.model_reading.specs.Against.{first_sent, text_of_number};
ghost use Rattle.model_reading.specs.Items.{trace_of};
ghost use Rattle.model_reading.specs.Opening.{base_of};
ghost use Rattle.model_reading.specs.Paging.{page_at, text_at};
ghost use Rattle.model_reading.specs.declared.item.Item as item;

use crate::reading::Step;
use base_reasons::Reason;
use log_entries::{Entry, Kind, Request};
use model_reading::{Item, Notice, Opening, Reading, Says, is_forgotten, page_at};
use repo_refusals::Refusal;
use session_outbox::{Asked, Message, Verdict, Welcome};
use spec_trace::{Mark, refused_mark};
use std::alloc::Global;
use thor_value::{NoMemory, PAGES, Text, TryCopy, Ts};

/// Times are below this one.
const TIMES: u64 = 1 << 62;

/// A step with a mark.
fn marked<X>(answer: Result<X, Refusal>, mark: Mark) -> Step<X>
    ensures answer { result.0 ≡ answer }
    ensures trace { added result.1 ≡ M mark ∷ [] }
{
    (answer, Some(Item::Mark { mark }))
}

/// A step with an entry.
fn entered<X>(answer: Result<X, Refusal>, entry: Entry) -> Step<X>
    ensures answer { result.0 ≡ answer }
    ensures trace { added result.1 ≡ E entry ∷ [] }
{
    (answer, Some(Item::Entry { entry }))
}

/// A step with nothing.
fn unmarked<X>(answer: Result<X, Refusal>) -> Step<X>
    ensures answer { result.0 ≡ answer }
    ensures trace { added result.1 ≡ [] }
{
    (answer, None)
}

fn gone(session: u32) -> Refusal
    ensures { result ≡ gone session }
{
    Refusal::Reason(Reason::Gone { session })
}

/// A draw, a grant or a request is refused, with a mark.
fn refuse<X>(
    alloc: Global,
    session: u32,
    request: Option<Request>,
    refusal: Refusal,
) -> Result<Step<X>, NoMemory>
    ensures { IfOk result (λ step. (is : List item.Item) → IsStep is step (plain.refuse (trace_of is) session request refusal)) }
{
    let mark = refused_mark(alloc, session, request, refusal)?;
    Ok(marked(Err(refusal), mark))
}

// ---- sessions

/// What one is told that connects under a number.
fn welcome(reading: &Reading, session: u32) -> Result<Welcome, NoMemory>
    ensures { IfOk result (λ w. w ≡ welcome_by reading.now session) }
{
    Ok(Welcome {
        session,
        epoch: reading.epoch()?,
        threshold: reading.threshold(),
        place: reading.count(),
        upgrades: reading.texts()?,
    })
}

/// To one that connects.
pub(crate) fn connect(
    alloc: Global,
    opening: &Opening,
    items: &[Item],
    client: u8,
) -> Result<Step<Welcome>, NoMemory>
    ensures { IfOk result (λ step. IsOkStep items.now step (plain.connect (base_of opening.now) (trace_of items.now) client)) }
{
    let reading = Reading::of(alloc, opening, 0, items)?;
    let session = reading.next_session()?;
    let welcome = welcome(&reading, session)?;
    Ok(marked(Ok(welcome), Mark::Connected { session, client }))
}

#[tactic(auto, using(crate::proofs::ByReading::with_added, crate::proofs::ByReading::with_none))]
fn fetch_by(reading: &Reading, session: u32, page: u32, upto: u64) -> Step<()>
    ensures { (is : List item.Item) → IsStep is result (fetch_by reading.now (trace_of is) session page upto) }
{
    if reading.is_live() {
        return marked(
            Ok(()),
            Mark::Fetched {
                session,
                page,
                upto,
            },
        );
    }
    unmarked(Err(gone(session)))
}

/// To one that asks for a page.
pub(crate) fn fetch(
    alloc: Global,
    opening: &Opening,
    items: &[Item],
    session: u32,
    page: u32,
    upto: u64,
) -> Result<Step<()>, NoMemory>
    ensures { IfOk result (λ step. IsStep items.now step (plain.fetch (base_of opening.now) (trace_of items.now) session page upto)) }
{
    let reading = Reading::of(alloc, opening, session, items)?;
    Ok(fetch_by(&reading, session, page, upto))
}

fn grant_live(alloc: Global, reading: &Reading, session: u32) -> Result<Step<()>, NoMemory>
    ensures { IfOk result (λ step. (is : List item.Item) → IsStep is step (grant_live reading.now (trace_of is) session)) }
{
    let page = reading.next_page();
    if page < u64::from(PAGES) {
        return Ok(marked(
            Ok(()),
            Mark::Granted {
                session,
                page: page as u32,
            },
        ));
    }
    refuse(
        alloc,
        session,
        None,
        Refusal::Reason(Reason::Full { limit: PAGES }),
    )
}

fn grant_by(alloc: Global, reading: &Reading, session: u32) -> Result<Step<()>, NoMemory>
    ensures { IfOk result (λ step. (is : List item.Item) → IsStep is step (grant_by reading.now (trace_of is) session)) }
{
    if reading.is_live() {
        return grant_live(alloc, reading, session);
    }
    refuse(alloc, session, None, gone(session))
}

/// To one that asks for a page of names.
pub(crate) fn grant(
    alloc: Global,
    opening: &Opening,
    items: &[Item],
    session: u32,
) -> Result<Step<()>, NoMemory>
    ensures { IfOk result (λ step. IsStep items.now step (plain.grant (base_of opening.now) (trace_of items.now) session)) }
{
    let reading = Reading::of(alloc, opening, session, items)?;
    Ok(grant_by(alloc, &reading, session)?)
}

/// The text of an upgrade.
fn text_of(alloc: Global, reading: &Reading, number: u32) -> Result<Text, NoMemory>
    ensures { IfOk result (λ text. text ≡ unwrap_or (text_of_number reading.now.state number) []) }
{
    match reading.text(number)? {
        Some(text) => Ok(text),
        None => Ok(Text::new(alloc)),
    }
}

/// A message with its bytes.
fn spell(
    alloc: Global,
    opening: &Opening,
    items: &[Item],
    reading: &Reading,
    notice: &Notice,
) -> Result<Message, NoMemory>
    requires { reading.now.state ≡ state (base_of opening.now) (entries (trace_of items.now)) }
    ensures { IfOk result (λ m. m ≡ message_of (page_at (base_of opening.now) (trace_of items.now)) (text_at (base_of opening.now) (trace_of items.now)) notice.now) }
{
    match notice.says() {
        Says::Page { page, place } => Ok(Message::Page {
            page: *page,
            bytes: page_at(alloc, opening, items, *page, *place)?,
            place: *place,
        }),
        Says::Grant { page, place } => Ok(Message::Grant {
            page: *page,
            place: *place,
        }),
        Says::Invalid { names, place } => Ok(Message::Invalid {
            orefs: names.copy()?,
            place: *place,
        }),
        Says::Upgrade { number, place } => Ok(Message::Upgrade {
            number: *number,
            text: text_of(alloc, reading, *number)?,
            place: *place,
        }),
    }
}

/// A message is taken.
fn taken(session: u32, message: Message) -> Step<Option<Message>>
    ensures answer { result.0 ≡ Ok (Some message) }
    ensures trace { added result.1 ≡ M (the.Took session (place_of message)) ∷ [] }
{
    let place = message.place();
    marked(Ok(Some(message)), Mark::Took { session, place })
}

/// The message that waits first is taken.
fn receive_first(
    alloc: Global,
    opening: &Opening,
    items: &[Item],
    reading: &Reading,
    session: u32,
    notice: &Notice,
) -> Result<Step<Option<Message>>, NoMemory>
    requires { reading.now.state ≡ state (base_of opening.now) (entries (trace_of items.now)) }
    ensures { IfOk result (λ step. IsStep items.now step (plain.received (message_of (page_at (base_of opening.now) (trace_of items.now)) (text_at (base_of opening.now) (trace_of items.now))) (trace_of items.now) session (Some notice.now))) }
{
    let message = spell(alloc, opening, items, reading, notice)?;
    Ok(taken(session, message))
}

/// A message is taken, where one waits.
fn receive_live(
    alloc: Global,
    opening: &Opening,
    items: &[Item],
    reading: &Reading,
    session: u32,
) -> Result<Step<Option<Message>>, NoMemory>
    requires { reading.now.state ≡ state (base_of opening.now) (entries (trace_of items.now)) }
    ensures { IfOk result (λ step. IsStep items.now step (plain.received (message_of (page_at (base_of opening.now) (trace_of items.now)) (text_at (base_of opening.now) (trace_of items.now))) (trace_of items.now) session (option_and_then first_sent reading.now.session))) }
{
    let first = reading.first_waiting()?;
    match first {
        Some(notice) => receive_first(alloc, opening, items, reading, session, notice),
        None => Ok(unmarked(Ok(None))),
    }
}

fn receive_by(
    alloc: Global,
    opening: &Opening,
    items: &[Item],
    reading: &Reading,
    session: u32,
) -> Result<Step<Option<Message>>, NoMemory>
    requires { reading.now.state ≡ state (base_of opening.now) (entries (trace_of items.now)) }
    ensures { IfOk result (λ step. IsStep items.now step (receive_by (message_of (page_at (base_of opening.now) (trace_of items.now)) (text_at (base_of opening.now) (trace_of items.now))) reading.now (trace_of items.now) session)) }
{
    if reading.is_live() {
        return receive_live(alloc, opening, items, reading, session);
    }
    Ok(unmarked(Err(gone(session))))
}

/// To one that takes a message.
pub(crate) fn receive(
    alloc: Global,
    opening: &Opening,
    items: &[Item],
    session: u32,
) -> Result<Step<Option<Message>>, NoMemory>
    ensures { IfOk result (λ step. IsStep items.now step (plain.receive (message_of (page_at (base_of opening.now) (trace_of items.now)) (text_at (base_of opening.now) (trace_of items.now))) (base_of opening.now) (trace_of items.now) session)) }
{
    let reading = Reading::of(alloc, opening, session, items)?;
    receive_by(alloc, opening, items, &reading, session)
}

// ---- timestamps

/// The time behind the last one and the floor, where a number tells it.
#[tactic(auto, using(crate::proofs::ByReading::no_clock))]
fn time_behind(last: u64, floor: u64) -> Result<u64, NoMemory>
    ensures { IfOk result (λ time. time ≡ drawn_time 0 last floor) }
{
    if last == u64::MAX || floor == u64::MAX {
        return Err(NoMemory);
    }
    Ok((last + 1).max(floor + 1))
}

fn draw_live(alloc: Global, session: u32, ts: Ts) -> Result<Step<Ts>, NoMemory>
    ensures { IfOk result (λ step. (is : List item.Item) → IsStep is step (draw_live (trace_of is) session ts)) }
{
    if ts.time < TIMES {
        return Ok(marked(Ok(ts), Mark::Drew { session, ts }));
    }
    refuse(alloc, session, None, Refusal::Reason(Reason::ClockEnd))
}

/// The timestamp that is drawn next.
fn stamp(opening: &Opening, reading: &Reading, floor: u64) -> Result<Ts, NoMemory>
    ensures { IfOk result (λ ts. ts ≡ stamp_by (base_of opening.now) reading.now floor) }
{
    Ok(Ts {
        time: time_behind(reading.drawn(), floor)?,
        repo: opening.repo,
        life: reading.life(),
    })
}

fn draw_by(
    alloc: Global,
    opening: &Opening,
    reading: &Reading,
    session: u32,
    floor: u64,
) -> Result<Step<Ts>, NoMemory>
    ensures { IfOk result (λ step. (is : List item.Item) → IsStep is step (draw_by (base_of opening.now) reading.now (trace_of is) session floor)) }
{
    if reading.is_live() {
        let ts = stamp(opening, reading, floor)?;
        return draw_live(alloc, session, ts);
    }
    refuse(alloc, session, None, gone(session))
}

/// To one that draws a timestamp.
pub(crate) fn draw(
    alloc: Global,
    opening: &Opening,
    items: &[Item],
    session: u32,
    floor: u64,
) -> Result<Step<Ts>, NoMemory>
    ensures { IfOk result (λ step. IsStep items.now step (plain.draw (base_of opening.now) (trace_of items.now) session 0 floor)) }
{
    let reading = Reading::of(alloc, opening, session, items)?;
    draw_by(alloc, opening, &reading, session, floor)
}

// ---- requests

/// A request to prepare is refused, or its entry comes at a place.
#[tactic(auto, using(crate::proofs::ByReading::with_added, crate::proofs::ByReading::with_none))]
fn prepared(
    alloc: Global,
    place: u64,
    session: u32,
    request: Request,
    refusal: Option<Refusal>,
) -> Result<Step<u64>, NoMemory>
    ensures { IfOk result (λ step. (is : List item.Item) → IsStep is step (requested_by place (trace_of is) session request (Prepared request) refusal)) }
{
    match refusal {
        Some(refusal) => refuse(alloc, session, Some(request), refusal),
        None => Ok(entered(Ok(place), Entry::Prepared { request })),
    }
}

/// The entry of a request that commits at one repository.
fn alone_entry(request: Request) -> Entry
    ensures { result ≡ alone_entry request }
{
    match &request.kind {
        Kind::App | Kind::Transform => Entry::One { request },
        Kind::Upgrade { .. } => Entry::Upgraded { request },
    }
}

/// A request to commit is refused, or its entry comes at a place.
#[tactic(auto, using(crate::proofs::ByReading::with_added, crate::proofs::ByReading::with_none))]
fn committed(
    alloc: Global,
    place: u64,
    session: u32,
    request: Request,
    refusal: Option<Refusal>,
) -> Result<Step<u64>, NoMemory>
    ensures { IfOk result (λ step. (is : List item.Item) → IsStep is step (requested_by place (trace_of is) session request (alone_entry request) refusal)) }
{
    match refusal {
        Some(refusal) => refuse(alloc, session, Some(request), refusal),
        None => Ok(entered(Ok(place), alone_entry(request))),
    }
}

/// To one that has a transaction of several repositories prepared.
pub(crate) fn prepare(
    alloc: Global,
    opening: &Opening,
    items: &[Item],
    session: u32,
    request: Request,
) -> Result<Step<u64>, NoMemory>
    ensures { IfOk result (λ step. IsStep items.now step (plain.prepare (base_of opening.now) (trace_of items.now) session request)) }
{
    let reading = Reading::of(alloc, opening, session, items)?;
    let refusal = reading.against(alloc, opening, session, &request)?;
    Ok(prepared(alloc, reading.count(), session, request, refusal)?)
}

/// To one that has a transaction of this repository committed.
pub(crate) fn commit_one(
    alloc: Global,
    opening: &Opening,
    items: &[Item],
    session: u32,
    request: Request,
) -> Result<Step<u64>, NoMemory>
    ensures { IfOk result (λ step. IsStep items.now step (plain.commit_one (base_of opening.now) (trace_of items.now) session request)) }
{
    let reading = Reading::of(alloc, opening, session, items)?;
    let refusal = reading.against(alloc, opening, session, &request)?;
    Ok(committed(alloc, reading.count(), session, request, refusal)?)
}

// ---- decisions

/// Whether a session has an undecided transaction prepared.
#[tactic(auto, using(crate::proofs::ByReading::prepared_is))]
fn is_prepared_by(
    reading: &Reading,
    opening: &Opening,
    session: u32,
    tx: Ts,
) -> Result<bool, NoMemory>
    ensures { IfOk result (λ is. is ≡ is_prepared_by session (known_in (base_of opening.now) reading.now.state tx)) }
{
    match reading.open_request(opening, tx)? {
        Some((_, request)) => Ok(request.session == session),
        None => Ok(false),
    }
}

/// Whether a coordinator knows that a transaction committed.
fn commits_by(reading: &Reading, items: &[Item], tx: Ts) -> bool
    ensures { result ≡ commits_by_reading reading.now (trace_of items.now) tx }
{
    reading.has_kept(tx) && !is_forgotten(items, tx) || reading.is_alone(tx)
}

#[tactic(auto, using(crate::proofs::ByReading::with_added, crate::proofs::ByReading::with_none))]
fn decide_live(reading: &Reading, items: &[Item], tx: Ts, commit: bool, own: bool) -> Step<Verdict>
    ensures { IsStep items.now result (decide_live reading.now (trace_of items.now) tx commit own) }
{
    if own {
        return entered(Ok(Verdict::new(tx, commit)), Entry::Decided { tx, commit });
    }
    let commits = commits_by(reading, items, tx);
    unmarked(Ok(Verdict::new(tx, commits)))
}

fn decide_by(
    reading: &Reading,
    opening: &Opening,
    items: &[Item],
    session: u32,
    tx: Ts,
    commit: bool,
) -> Result<Step<Verdict>, NoMemory>
    ensures { IfOk result (λ step. IsStep items.now step (decide_by (base_of opening.now) reading.now (trace_of items.now) session tx commit)) }
{
    if reading.is_unended() {
        let own = is_prepared_by(reading, opening, session, tx)?;
        return Ok(decide_live(reading, items, tx, commit, own));
    }
    Ok(unmarked(Err(gone(session))))
}

/// To one that decides a transaction.
pub(crate) fn decide(
    alloc: Global,
    opening: &Opening,
    items: &[Item],
    session: u32,
    tx: Ts,
    commit: bool,
) -> Result<Step<Verdict>, NoMemory>
    ensures { IfOk result (λ step. IsStep items.now step (plain.decide (base_of opening.now) (trace_of items.now) session tx commit)) }
{
    let reading = Reading::of(alloc, opening, session, items)?;
    decide_by(&reading, opening, items, session, tx, commit)
}

#[tactic(auto, using(crate::proofs::ByReading::with_added, crate::proofs::ByReading::with_none))]
fn finish_by(reading: &Reading, opening: &Opening, tx: Ts, commit: bool) -> Step<Option<u64>>
    ensures { (is : List item.Item) → IsStep is result (finish_by (base_of opening.now) reading.now (trace_of is) tx commit) }
{
    if reading.is_undecided(opening, tx) {
        return entered(Ok(Some(reading.count())), Entry::Finished { tx, commit });
    }
    unmarked(Ok(None))
}

/// To one that hands on a verdict.
pub(crate) fn finish(
    alloc: Global,
    opening: &Opening,
    items: &[Item],
    tx: Ts,
    commit: bool,
) -> Result<Step<Option<u64>>, NoMemory>
    ensures { IfOk result (λ step. IsStep items.now step (plain.finish (base_of opening.now) (trace_of items.now) tx commit)) }
{
    let reading = Reading::of(alloc, opening, 0, items)?;
    Ok(finish_by(&reading, opening, tx, commit))
}

/// To one that has a decision forgotten.
#[tactic(auto, using(crate::proofs::ByReading::with_added, crate::proofs::ByReading::with_none))]
pub(crate) fn forget(items: &[Item], tx: Ts) -> Step<()>
    ensures { IsStep items.now result (plain.forget (trace_of items.now) tx) }
{
    let _ = items;
    marked(Ok(()), Mark::Forgot { tx })
}

#[tactic(auto, using(crate::proofs::ByReading::with_added, crate::proofs::ByReading::with_none))]
fn ask_by(reading: &Reading, opening: &Opening, items: &[Item], tx: Ts) -> Step<Asked>
    ensures { IsStep items.now result (ask_by (base_of opening.now) reading.now (trace_of items.now) tx) }
{
    if reading.is_undecided(opening, tx) && tx.repo == opening.repo {
        return unmarked(Ok(Asked::Undecided));
    }
    let commits = commits_by(reading, items, tx);
    unmarked(Ok(Asked::Settled(Verdict::new(tx, commits))))
}

/// To one that asks for a verdict.
pub(crate) fn ask(
    alloc: Global,
    opening: &Opening,
    items: &[Item],
    tx: Ts,
) -> Result<Step<Asked>, NoMemory>
    ensures { IfOk result (λ step. IsStep items.now step (plain.ask (base_of opening.now) (trace_of items.now) tx)) }
{
    let reading = Reading::of(alloc, opening, 0, items)?;
    Ok(ask_by(&reading, opening, items, tx))
}

/// The number of the life that begins next.
pub(crate) fn next_life(alloc: Global, opening: &Opening, items: &[Item]) -> Result<u32, NoMemory>
    ensures { IfOk result (λ life. life ≡ (state (base_of opening.now) (entries (trace_of items.now))).life + 1) }
{
    let reading = Reading::of(alloc, opening, 0, items)?;
    let life = reading.life();
    if life == u32::MAX {
        return Err(NoMemory);
    }
    Ok(life + 1)
}

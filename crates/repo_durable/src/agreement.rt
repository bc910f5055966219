//! Whether what disks stand for agrees with what is in memory.

ghost use Rattle.std.specs.Option.{IfSome, IsSome};
ghost use Rattle.std.specs.Prelude.{◌≡◌, ◌^◌, ◌≤◌, ◌⊎◌, List, None, length, ℕ};
ghost use Rattle.repo_state.specs.Entering.{entered};
ghost use Rattle.repo_durable.specs.Agreeing.{numbers_of};
ghost use Rattle.repo_durable.specs.declared.agreement.Agreement.TheVariants.{AsHeld, Neither, WithPending};
ghost use Rattle.commit_log.specs.Recovered.{texts_after, threshold_after};

use log_entries::{Entry, Kind, Request};
use repo_state::{HeldState, later_of};
use thor_value::Ts;

/// With what a recovered state agrees.
#[derive(Clone, Copy)]
pub(crate) enum Agreement {
    /// With what is in memory.
    AsHeld,
    /// With that and the pending entry.
    WithPending,
    /// With neither.
    Neither,
}

/// The numbers of a state, its next page aside.
#[derive(Clone, Copy, PartialEq, Eq)]
struct Numbers {
    repo: u8,
    repos: u8,
    life: u32,
    count: u64,
    threshold: Ts,
    epoch: usize,
}

/// With what a recovered state agrees: by its numbers, of which the count of entries tells what is in memory
/// from that with one entry more.
pub(crate) fn compare(held: &HeldState, pending: &Option<Entry>, recovered: &HeldState) -> Agreement
    ensures held { result ≡ AsHeld → numbers_of recovered.now ≡ numbers_of held.now }
    ensures pending { result ≡ WithPending → IfSome pending.now (λ e. numbers_of recovered.now ≡ numbers_of (entered held.now e)) }
    ensures neither { result ≡ Neither → numbers_of recovered.now ≡ numbers_of held.now → ⊥ }
    ensures nor_pending { result ≡ Neither → IfSome pending.now (λ e. numbers_of recovered.now ≡ numbers_of (entered held.now e) → ⊥) }
    ensures was_pending { result ≡ WithPending → IsSome pending.now }
{
    let found = numbers_of(recovered);
    if found == numbers_of(held) {
        return Agreement::AsHeld;
    }
    match pending {
        Some(entry) => compare_behind(found, held, entry),
        None => Agreement::Neither,
    }
}

// Whether numbers are those behind an entry.
fn compare_behind(found: Numbers, held: &HeldState, entry: &Entry) -> Agreement
    ensures pending { result ≡ WithPending → found ≡ numbers_of (entered held.now entry.now) }
    ensures neither { result ≡ Neither → found ≡ numbers_of (entered held.now entry.now) → ⊥ }
    ensures held { result ≡ AsHeld → ⊥ }
{
    match numbers_behind(held, entry) {
        Some(behind) => {
            if found == behind {
                Agreement::WithPending
            } else {
                Agreement::Neither
            }
        }
        None => Agreement::Neither,
    }
}

fn numbers_of(held: &HeldState) -> Numbers
    ensures { result ≡ numbers_of held.now }
{
    Numbers {
        repo: held.repo(),
        repos: held.repos(),
        life: held.life(),
        count: held.count(),
        threshold: held.threshold(),
        epoch: held.epoch(),
    }
}

// The numbers of a state behind an entry; `None` where one of them would pass its type, which no run comes to.
fn numbers_behind(held: &HeldState, entry: &Entry) -> Option<Numbers>
    ensures some { IfSome result (λ numbers. numbers ≡ numbers_of (entered held.now entry.now)) }
    ensures none { result ≡ None → (2 ^ 64 ≤ (numbers_of (entered held.now entry.now)).count) ⊎ (2 ^ 64 ≤ (numbers_of (entered held.now entry.now)).epoch) }
{
    let numbers = numbers_of(held);
    let count = numbers.count.checked_add(1)?;
    let numbers = Numbers { count, ..numbers };
    match entry {
        Entry::Life { life } => Some(Numbers {
            life: *life,
            ..numbers
        }),
        Entry::Prepared { .. } => Some(numbers),
        Entry::One { request } | Entry::Upgraded { request } => committed(numbers, request),
        Entry::Decided { tx, commit } | Entry::Finished { tx, commit } => {
            match held.table().open_request(*tx) {
                Some(request) if *commit => committed(numbers, request),
                _ => Some(numbers),
            }
        }
    }
}

// The numbers behind the commit of a request.
fn committed(numbers: Numbers, request: &Request) -> Option<Numbers>
    ensures same { IfSome result (λ behind. behind ≡ record numbers { threshold = threshold_after numbers.threshold request.now.kind request.now.tx; epoch = behind.epoch }) }
    ensures epoch { IfSome result (λ behind. (texts : List (List ℕ)) → numbers.epoch ≡ length texts → behind.epoch ≡ length (texts_after texts request.now.kind)) }
    ensures none { result ≡ None → (texts : List (List ℕ)) → numbers.epoch ≡ length texts → 2 ^ 64 ≤ length (texts_after texts request.now.kind) }
{
    match &request.kind {
        Kind::App | Kind::Transform => Some(Numbers {
            threshold: later_of(numbers.threshold, request.tx),
            ..numbers
        }),
        Kind::Upgrade { .. } => Some(Numbers {
            threshold: request.tx,
            epoch: numbers.epoch.checked_add(1)?,
            ..numbers
        }),
    }
}

//! Who takes part in a transaction, tested.

ghost use Rattle.repo_site.specs.Testing.{IsBare, IsBareUpgrade, TakesPart};
ghost use Rattle.spec_history.specs.Participants.{takes_part};
ghost use Rattle.std.specs.List.{AllByRecursion, list_any};
ghost use Rattle.std.specs.Prelude.{IsTrue, [], nat_eq, true, ℕ, ◌<◌, ◌≡◌, ◌≢◌, ◌≤◌};
ghost use Rattle.thor_value.specs.declared.values.Answer.TheVariants.{Ints};

use log_entries::{Kind, Request};
use thor_value::Answer;

/// Whether the participants of a request to a repository are it and others of so many, of which the least coordinates.
pub(crate) fn take_part(number: u8, repos: u8, request: &Request) -> bool
    ensures { IsTrue result → TakesPart number repos request.now }
{
    if !are_others(number, repos, request.others.as_slice()) {
        return false;
    }
    if request.tx.repo != number && !is_among(request.others.as_slice(), request.tx.repo) {
        return false;
    }
    request.tx.repo <= number && are_from(request.tx.repo, request.others.as_slice())
}

/// Whether each is another repository than one, of so many.
fn are_others(number: u8, repos: u8, others: &[u8]) -> bool
    ensures { IsTrue result → AllByRecursion (λ r. (r < repos) × (r ≢ number)) others.now }
{
    for other in others {
        if *other >= repos || *other == number {
            return false;
        }
    }
    true
}

/// Whether a number is one of some.
fn is_among(numbers: &[u8], number: u8) -> bool
    ensures { result ≡ list_any (nat_eq number) numbers.now }
{
    for other in numbers {
        if number == *other {
            return true;
        }
    }
    false
}

/// Whether none is below a number.
fn are_from(number: u8, others: &[u8]) -> bool
    ensures { IsTrue result → AllByRecursion (λ r. number ≤ r) others.now }
{
    for other in others {
        if *other < number {
            return false;
        }
    }
    true
}

/// Whether a request is bare, where it is an upgrade.
pub(crate) fn is_bare_upgrade(number: u8, repos: u8, request: &Request) -> bool
    ensures { IsTrue result → IsBareUpgrade number repos request.now }
{
    match &request.kind {
        Kind::App | Kind::Transform => true,
        Kind::Upgrade { .. } => is_bare(number, repos, request),
    }
}

/// Whether a request reads, writes, creates and answers nothing, and all of so many repositories take part in it.
fn is_bare(number: u8, repos: u8, request: &Request) -> bool
    ensures { IsTrue result → IsBare number repos request.now }
{
    if !request.ros.is_empty() || !request.writes.is_empty() {
        return false;
    }
    if !request.fresh.is_empty() || !answers_nothing(&request.answer) {
        return false;
    }
    is_wide(number, repos, request)
}

fn answers_nothing(answer: &Answer) -> bool
    ensures { IsTrue result → answer.now ≡ Ints [] }
{
    match answer {
        Answer::Ints(numbers) => numbers.is_empty(),
        Answer::Fault(_) => false,
    }
}

/// Whether all of so many repositories take part.
fn is_wide(number: u8, repos: u8, request: &Request) -> bool
    ensures { IsTrue result → (r : ℕ) → r < repos → takes_part number request.now r ≡ true }
{
    for repo in 0..repos {
        if !is_participant(number, repo, request) {
            return false;
        }
    }
    true
}

/// Whether a repository takes part in the transaction that has a request at another.
fn is_participant(number: u8, repo: u8, request: &Request) -> bool
    ensures { result ≡ takes_part number request.now repo }
{
    repo == number || is_among(request.others.as_slice(), repo)
}

//! The kinds of step: what each tells the seat that makes it.

use crate::knowledge::View;
use crate::naming::Naming;
use atomic_table::{Join, Play, Split};
use std::marker::{Brand, PhantomData};

/// The owner's history has one item more.
pub(crate) struct Grows<N>(PhantomData<N>);

impl<N: Naming> Play<N::Kept, View<N::Item, N::Call>> for Grows<N> {
    ghost use Rattle.seen_board.specs.Steps.{Grew};

    ghost then = { Grew N.meaning N.items };
}

/// Which client sends which call. Each send picks them: a step has no parameter of its own.
pub trait Picks<C> {
    ghost use Rattle.std.specs.Prelude.{ℕ, Option};

    ghost client: { ℕ };

    ghost call: { Option C };
}

impl<C> Picks<C> for Brand {
    ghost use Rattle.std.specs.Prelude.{None};

    ghost client = { 0 };

    ghost call = { None };
}

/// A client sends a call.
pub(crate) struct Sends<N, J>(PhantomData<(N, J)>);

impl<N: Naming, J: Picks<N::Call>> Play<N::Kept, View<N::Item, N::Call>> for Sends<N, J> {
    ghost use Rattle.std.specs.Prelude.{◌≡◌, Some};
    ghost use Rattle.seen_board.specs.Steps.{Sent};

    ghost then = { λ _ v _ w. (c : N.Call) → J.call ≡ Some c → Sent N.meaning J.client c v w };
}

/// The length of a history is read.
pub(crate) struct Meets;

impl<S, I, C> Play<S, View<I, C>> for Meets {
    ghost use Rattle.seen_board.specs.Steps.{Met};

    ghost then = { Met };
}

/// What was taken in is compared with what was there.
pub(crate) struct Compares<N>(PhantomData<N>);

impl<S, N: Naming> Play<S, View<N::Item, N::Call>> for Compares<N> {
    ghost use Rattle.seen_board.specs.Steps.{Compared};

    ghost then = { λ _ v _ w. Compared N.meaning v w };
}

/// What was seen goes to a new seat, too.
pub(crate) struct Copies;

impl<I, C> Split<View<I, C>> for Copies {
    ghost use Rattle.seen_board.specs.Steps.{copied};

    ghost left = { λ v. v };

    ghost right = { copied };
}

/// What both own, and the longer of two lists of each repository and client, go to one seat.
pub(crate) struct Joins;

impl<I, C> Join<View<I, C>> for Joins {
    ghost use Rattle.std.specs.Prelude.{[]};
    ghost use Rattle.seen_board.specs.Rule.{newcomer};
    ghost use Rattle.seen_board.specs.Steps.{joined};

    ghost both = { joined };

    ghost spent = { newcomer [] [] };
}

/// The first repository of a seat that owns several goes to a new seat.
pub(crate) struct MakesOwner;

impl<I, C> Split<View<I, C>> for MakesOwner {
    ghost use Rattle.seen_board.specs.Steps.{given_repo, owner_of};

    ghost left = { given_repo };

    ghost right = { owner_of };
}

/// The first client of a seat that owns several goes to a new seat.
pub(crate) struct MakesClient;

impl<I, C> Split<View<I, C>> for MakesClient {
    ghost use Rattle.seen_board.specs.Steps.{given_client, client_of};

    ghost left = { given_client };

    ghost right = { client_of };
}

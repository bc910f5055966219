/// What the items of the histories and the calls of the clients are, and how they belong together.
/// The board is generic over it.
pub trait Naming {
    /// An item of a repository's history.
    type Item;

    /// What lies under a repository's lock. It has the items of the history.
    type Kept;

    /// A call that a client made under the lock of a repository.
    type Call;

    ghost use Rattle.std.specs.Prelude.{List};
    ghost use Rattle.seen_board.specs.Meaning.{Meaning, Lasts};

    // The items that are kept, the oldest first.
    ghost items: { Self.Kept → List Self.Item };

    // Which call makes an item, which items need none, which client an item shows, and which calls
    // the histories justify.
    ghost meaning: { Meaning Self.Item Self.Call };

    // A call that the histories justify stays justified when they grow.
    ghost lasts: { Lasts meaning };
}

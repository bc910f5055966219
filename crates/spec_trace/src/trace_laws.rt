//! What is proved of traces: a history and the kept items beside it grow together.

ghost use Rattle.log_entries.specs.declared.entry.Entry.{Entry};
ghost use Rattle.spec_trace.specs.Trace.{E, IsTrace, Item, M, entries, items};
ghost use Rattle.spec_trace.specs.declared.mark.Mark.{Mark};
ghost use Rattle.spec_trace.specs.declared.kept_item.KeptItem.TheVariants as kept;
ghost use Rattle.spec_trace.specs.declared.kept_item.KeptItem.{KeptItem};
ghost use Rattle.std.specs.Prelude.{List, [], ◌∷◌, ◌++◌, ◌≡◌, length};

/// A trace grows at its end with each mark, and with each entry that gets its mark. It has the
/// history that it was made of.
pub fn traces_grow()
    ensures mark { (H : List Entry) (ks : List KeptItem) (m : Mark) →
        items H (ks ++ kept.Mark m ∷ []) ≡ items H ks ++ M m ∷ [] }
    ensures entry { (H : List Entry) (ks : List KeptItem) (e : Entry) → IsTrace H ks →
        items (H ++ e ∷ []) (ks ++ kept.Entry (length H) ∷ []) ≡ items H ks ++ E e ∷ [] }
    ensures kept { (H : List Entry) (ks : List KeptItem) (e : Entry) → IsTrace H ks →
        IsTrace (H ++ e ∷ []) (ks ++ kept.Entry (length H) ∷ []) }
    ensures marked { (H : List Entry) (ks : List KeptItem) (m : Mark) → IsTrace H ks → IsTrace H (ks ++ kept.Mark m ∷ []) }
    ensures history { (H : List Entry) (ks : List KeptItem) → IsTrace H ks → entries (items H ks) ≡ H }
    ensures entries { (is js : List Item) → entries (is ++ js) ≡ entries is ++ entries js }
{}

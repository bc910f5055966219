//! Worked examples of what records do to a state: functions with empty bodies, whose clauses compute.

ghost use Rattle.std.specs.Prelude.{[], false, true, ◌++◌, ◌∷◌, ◌≡◌};
ghost use Rattle.log_entries.specs.declared.entry.Entry.TheVariants.{Decided, Finished, Life, Upgraded};
ghost use Rattle.log_entries.specs.declared.request.Kind.TheVariants.{Upgrade};
ghost use Rattle.log_codec.specs.declared.body.Body.TheVariants.{Entry as AnEntry, Installed};
ghost use Rattle.commit_log.specs.Examples.{at, behind_all, name, number, prepared_two, single, transactions, writing};

/// Two objects are written, the first one again, which keeps its place in the buffer. Then a side of its
/// page comes into use.
pub fn commits_are_buffered()
    ensures buffer { (behind_all single).mob ≡ (name 0 0, number 3) ∷ (name 4 3, number 2) ∷ [] }
    ensures threshold { (behind_all single).threshold ≡ at 3 0 }
    ensures next_page { (behind_all single).next_page ≡ 5 }
    ensures count { (behind_all single).count ≡ 4 }
    ensures alone { (behind_all single).alone ≡ (1, at 3 0) ∷ [] }
    ensures installed { (behind_all (single ++ Installed 0 1 ∷ [])).mob ≡ (name 4 3, number 2) ∷ [] }
    ensures sides { (behind_all (single ++ Installed 0 1 ∷ [])).installed ≡ (0, 1) ∷ [] }
    ensures not_counted { (behind_all (single ++ Installed 0 1 ∷ [])).count ≡ 4 }
{}

/// Prepared requests stand by rising timestamp and write nothing. A decision to commit writes and is kept;
/// one without commit isn't, nor one on a transaction that is prepared anew; a participant keeps none. A Life
/// takes those that this repository coordinates.
pub fn prepared_transactions_are_decided()
    ensures open { transactions (behind_all prepared_two).prepared ≡ at 4 1 ∷ at 5 0 ∷ [] }
    ensures nothing { (behind_all prepared_two).mob ≡ [] }
    ensures pages { (behind_all prepared_two).next_page ≡ 3 }
    ensures decided { (behind_all (prepared_two ++ AnEntry (Decided (at 5 0) true) ∷ [])).kept ≡ at 5 0 ∷ [] }
    ensures written { (behind_all (prepared_two ++ AnEntry (Decided (at 5 0) true) ∷ [])).mob ≡ (name 2 0, number 5) ∷ [] }
    ensures closed { transactions (behind_all (prepared_two ++ AnEntry (Decided (at 5 0) true) ∷ [])).prepared ≡ at 4 1 ∷ [] }
    ensures aborted { (behind_all (prepared_two ++ AnEntry (Decided (at 5 0) false) ∷ [])).mob ≡ [] }
    ensures not_kept { (behind_all (prepared_two ++ AnEntry (Decided (at 5 0) false) ∷ [])).kept ≡ [] }
    ensures anew { (behind_all (prepared_two ++ AnEntry (Decided (at 5 0) true) ∷ prepared_two)).kept ≡ [] }
    ensures finished { (behind_all (prepared_two ++ AnEntry (Finished (at 4 1) true) ∷ [])).mob ≡ (name 0 1, number 4) ∷ [] }
    ensures kept_nowhere { (behind_all (prepared_two ++ AnEntry (Finished (at 4 1) true) ∷ [])).kept ≡ [] }
    ensures life { transactions (behind_all (prepared_two ++ AnEntry (Life 2) ∷ [])).prepared ≡ at 4 1 ∷ [] }
{}

/// An upgrade adds its text and makes its timestamp the threshold, also where a later one committed before.
pub fn upgrades_are_fences()
    ensures texts { (behind_all (single ++ AnEntry (Upgraded (writing (at 2 1) (Upgrade (117 ∷ [])) (name 0 0) (number 9) [])) ∷ [])).upgrades ≡ (117 ∷ []) ∷ [] }
    ensures threshold { (behind_all (single ++ AnEntry (Upgraded (writing (at 2 1) (Upgrade (117 ∷ [])) (name 0 0) (number 9) [])) ∷ [])).threshold ≡ at 2 1 }
{}

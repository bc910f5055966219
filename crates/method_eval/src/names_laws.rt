//! What users of the names of a front end rely on. Each law is a function with an empty body, whose clauses are
//! proved once for all callers.

ghost use Rattle.std.specs.Prelude.{◌≡◌, ℕ, true, false, Some, None, option_map};
ghost use Rattle.std.specs.List.{AllByRecursion};
ghost use Rattle.thor_value.specs.FiniteMap.{has};
ghost use Rattle.thor_value.specs.Names.{same_oref};
ghost use Rattle.thor_value.specs.declared.names.Oref.{Oref};
ghost use Rattle.class_defs.specs.Objects.{take_name};
ghost use Rattle.method_eval.specs.Names.{IsSound, Names, drop_repo, given, grant, has_none_of, next, none, orefs, reset, spend, supply};

/// A name that is spent is never given again, whatever calls follow: it stays spent, and each name that is given, where
/// there are no stand-in names, isn't spent, was not given before, and lies in the repository that was asked for.
/// It counts as given until it is taken back, spent or dropped.
pub fn names_are_given_once()
    ensures begins { IsSound none }
    ensures granted { (n : Names) → (repo : ℕ) → (page : ℕ) → IsSound n → has_none_of n repo page ≡ true → IsSound (grant n repo page) }
    ensures goes_on { (n : Names) → (repo : ℕ) → IsSound n → IsSound (next repo n).1 × IsSound (reset n) × IsSound (spend n) × IsSound (drop_repo n repo) }
    ensures new { (n : Names) → (repo : ℕ) → (x : Oref) → IsSound n → n.stand_in ≡ None → (next repo n).0 ≡ Some x
        → (has n.spent x ≡ false) × AllByRecursion (λ y. same_oref x y ≡ false) (orefs (given n.held)) × (x.repo ≡ repo) }
    ensures stays { (n : Names) → (repo : ℕ) → (page : ℕ) → (x : Oref) → has n.spent x ≡ true
        → (has (grant n repo page).spent x ≡ true) × (has (next repo n).1.spent x ≡ true) × (has (reset n).spent x ≡ true)
        × (has (spend n).spent x ≡ true) × (has (drop_repo n repo).spent x ≡ true) }
    ensures spent { (n : Names) → AllByRecursion (λ x. has (spend n).spent x ≡ true) (orefs (given n.held)) }
{}

/// The names that are given one after the other are those that an evaluation takes of the names at hand.
pub fn names_are_given_as_they_are_taken()
    ensures { (n : Names) → (repo : ℕ) → take_name repo (supply n) ≡ option_map (λ x. (x, supply (next repo n).1)) (next repo n).0 }
{}

//! What holds of the names of a front end behind each call. Each law is a function with an empty body, whose clauses are
//! proved once for all callers.

ghost use Rattle.std.specs.Prelude.{◌≡◌, None, ℕ};
ghost use Rattle.law_eval.specs.Telling.{HasNoStandIns};
ghost use Rattle.method_eval.specs.Names.{Names, drop_repo, grant, next, none, reset, spend};

/// Names that were granted have no stand-in names behind them, whatever calls follow. So `names_are_given_once` holds of
/// each name that they give.
pub fn granted_names_have_no_stand_ins()
    ensures begins { HasNoStandIns none }
    ensures granted { (n : Names) → (repo : ℕ) → (page : ℕ) → HasNoStandIns n → HasNoStandIns (grant n repo page) }
    ensures goes_on { (n : Names) → (repo : ℕ) → HasNoStandIns n
        → HasNoStandIns (next repo n).1 × HasNoStandIns (reset n) × HasNoStandIns (spend n) × HasNoStandIns (drop_repo n repo) }
    ensures given { (n : Names) → HasNoStandIns n → n.stand_in ≡ None }
{}

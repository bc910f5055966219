//! What holds of every script and report.

ghost use Rattle.std.specs.Prelude.{◌≡◌};
ghost use Rattle.audit_check.specs.Agreement.{Agrees, IsFirstDisagreement};
ghost use Rattle.audit_check.specs.declared.audited.Audited.{Audited};
ghost use Rattle.audit_check.specs.declared.disagreement.Disagreement.{Disagreement};
ghost use Rattle.report_parse.specs.declared.report.Report.{Report};

/// A report that agrees has no first disagreement, and no report has two. So what an audit answers is what is so: that the
/// report agrees exactly where it does, and else that disagreement.
pub fn a_report_agrees_or_first_disagrees_in_one_place()
    ensures either { (a : Audited) → (r : Report) → (at : Disagreement) → Agrees a r → IsFirstDisagreement a r at → ⊥ }
    ensures one { (a : Audited) → (r : Report) → (at other : Disagreement) → IsFirstDisagreement a r at → IsFirstDisagreement a r other → at ≡ other }
{}

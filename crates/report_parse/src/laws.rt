//! What holds of every report's text.

ghost use Rattle.std.specs.Prelude.{◌≡◌, List, map, ℕ};
ghost use Rattle.serial_model.specs.declared.entries.Did.{Did};
ghost use Rattle.serial_model.specs.declared.outcomes.Ended.{Ended};
ghost use Rattle.report_text.specs.Report.{report_text};
ghost use Rattle.report_text.specs.Shown.{IsReported};
ghost use Rattle.report_parse.specs.declared.report.Report.{Report};
ghost use Rattle.report_parse.specs.Reports.{IsReport, entry_of, report_of, text_of};

/// Each text is that of one report.
pub fn texts_tell_reports()
    ensures one { (a : Report) → (b : Report) → IsReport a → IsReport b → text_of a ≡ text_of b → a ≡ b }
    ensures reported { (a : Report) → IsReport a → IsReported a.ended (map entry_of a.lines) }
{}

/// What is printed of outcomes and a history is the text of the report that tells of them.
pub fn printed_reports_are_read()
    ensures { (ends : List Ended) → (history : List Did) → report_text ends history ≡ text_of (report_of ends history) }
{}

/// A text that is printed of outcomes and a history is that of one report: the one that tells of them. So whoever reads
/// it has what they show.
pub fn printed_texts_tell_one_report()
    ensures { (ends : List Ended) → (history : List Did) → (text : List ℕ) → text ≡ report_text ends history
        → IsReport (report_of ends history) → (a : Report) → IsReport a → text_of a ≡ text → a ≡ report_of ends history }
{}

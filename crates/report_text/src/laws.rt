//! What holds of every report. Each law is a function with an empty body, whose clauses are proved once
//! for all callers.

ghost use Rattle.std.specs.Prelude.{◌≡◌, ◌+◌, ◌^◌, ◌<◌, ◌≤◌, ℕ, List, [], ◌∷◌, ◌++◌, map};
ghost use Rattle.std.specs.Fmt.{decimal};
ghost use Rattle.report_text.specs.Lines.{newlines, IsOneLine};
ghost use Rattle.report_text.specs.Report.{report_text};
ghost use Rattle.report_text.specs.Examples.{example_ends, example_history, example_lines, text_of};
ghost use Rattle.report_text.specs.Shown.{shown_item, shown_entry, IsReported};
ghost use Rattle.serial_model.specs.declared.entries.Did.{Did};
ghost use Rattle.serial_model.specs.declared.outcomes.Ended.{Ended};

/// A report has two lines or more, and ends with the end of a line. So it is none of the texts of one
/// line that tell why no report was made.
pub fn reports_have_two_lines()
    ensures two { (ends : List Ended) → (history : List Did)
        → 2 ≤ newlines (report_text ends history) }
    ensures whole { (ends : List Ended) → (history : List Did)
        → (front : List ℕ) × (report_text ends history ≡ front ++ 10 ∷ []) }
    ensures apart { (ends : List Ended) → (history : List Did)
        → ¬ IsOneLine (report_text ends history) }
{}

/// How many lines end in a text that is made of others, and that none ends in a number: what shows of a text
/// that it is no report.
pub fn newlines_add_up()
    ensures joined { (s : List ℕ) → (t : List ℕ) → newlines (s ++ t) ≡ newlines s + newlines t }
    ensures number { (n : ℕ) → n < 2 ^ 64 → newlines (decimal n) ≡ 0 }
{}

/// The text of a report tells all that it shows of the outcomes and the history, and depends on nothing
/// else. So two pairs with equal text are equal, the tries of unknown items and the entries' items of the
/// script aside.
pub fn text_tells_the_report()
    ensures items { (ends : List Ended) → (history : List Did)
        → (others : List Ended) → (other : List Did)
        → IsReported ends history → IsReported others other
        → report_text ends history ≡ report_text others other
        → map shown_item ends ≡ map shown_item others }
    ensures history { (ends : List Ended) → (history : List Did)
        → (others : List Ended) → (other : List Did)
        → IsReported ends history → IsReported others other
        → report_text ends history ≡ report_text others other
        → map shown_entry history ≡ map shown_entry other }
    ensures alone { (ends : List Ended) → (history : List Did)
        → (others : List Ended) → (other : List Did)
        → map shown_item ends ≡ map shown_item others
        → map shown_entry history ≡ map shown_entry other
        → report_text ends history ≡ report_text others other }
{}

/// The report of a small run, as its definition computes it. The law on what a text tells speaks of it.
pub fn example_report_is_as_shown()
    ensures text { report_text example_ends example_history ≡ text_of example_lines }
    ensures reported { IsReported example_ends example_history }
{}

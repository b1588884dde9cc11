//! Laws of reports, each the contract of a function that does nothing.
ghost use Rattle.std.specs.Prelude.{◌≡◌, ◌≤◌, ◌+◌, ◌-◌, ◌==◌, ℕ, List, length, take, count_by, not};
ghost use Rattle.std.specs.List.{suffix_len};
ghost use Rattle.pv_mean.specs.declared.cell.Cell.{Cell};
ghost use Rattle.pv_case.specs.declared.case.PatternKind.{PatternKind};
ghost use Rattle.pv_case.specs.declared.case.Limits.{Limits};
ghost use Rattle.pv_report.specs.declared.verdict.Verdict.{Verdict};
ghost use Rattle.pv_report.specs.Places.{Lines, line_starts, begun_at, last_of};
ghost use Rattle.pv_report.specs.Reports.{report_text};
ghost use Rattle.pv_report.specs.Correct.{AreFiles, IsVerdictOf};

/// Where lines begin says of each place of a file its line, which is one more than the line feeds before it, and its column, which is one
/// more than the bytes between the last of these and it.
pub fn starts_give_positions()
    ensures line { (bytes : List ℕ) (offset : ℕ) → offset ≤ length bytes
        → length (begun_at offset (line_starts bytes))
        ≡ count_by (λ byte. byte == 10) (take offset bytes) + 1 }
    ensures column { (bytes : List ℕ) (offset : ℕ) → offset ≤ length bytes
        → offset - last_of (begun_at offset (line_starts bytes)) + 1
        ≡ suffix_len (λ byte. not (byte == 10)) (take offset bytes) + 1 }
{}

/// Over one case, one table and one list of files a report determines its verdict, where that has what the lines of its claim print, and
/// nothing besides: values for the cells, a place in one of the files, and the case's limits. Files have names of their own, without a
/// line feed.
pub fn reports_determine_verdicts()
    ensures { (name : List ℕ) (limits : Limits) (kind : PatternKind) (cells : List Cell)
        (files : List Lines) (v w : Verdict) → AreFiles files
        → IsVerdictOf limits kind cells files v → IsVerdictOf limits kind cells files w
        → report_text name kind limits cells files v ≡ report_text name kind limits cells files w
        → v ≡ w }
{}

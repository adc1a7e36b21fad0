ghost use Rattle.rsml_meaning.specs.Laws.{VerdictIsOne, ReportIsOne};

/// A group has at most one verdict, and a specification at most one report.
pub fn a_report_is_one_text()
    ensures verdict { VerdictIsOne }
    ensures report { ReportIsOne }
{}

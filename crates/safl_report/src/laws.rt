//! Laws of reports, over the definitions alone.

ghost use Rattle.safl_report.specs.Laws.{ReportOnce, SummaryOnce};

/// A program and a netlist have at most one report.
pub fn one_report_law()
    ensures { ReportOnce }
{}

/// A program and a netlist have at most one summary.
pub fn one_summary_law()
    ensures { SummaryOnce }
{}

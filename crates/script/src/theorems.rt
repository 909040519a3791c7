// Computes nothing: each function is called for its promise.
ghost use Rattle.script.specs.Text.{ReadsBack};
ghost use Rattle.script.specs.Reports.{OneReport};

// A script has at most one report.
pub fn one_report()
    ensures { OneReport }
{}

// What is printed of a pattern, a line reads back.
pub fn patterns_read_back()
    ensures { ReadsBack }
{}

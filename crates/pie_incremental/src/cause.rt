//! The report of a build that started afresh.
ghost use Rattle.std.specs.Prelude.{◌≡◌, Some};

use pie_report::Report;
use pie_store::Cause;

/// The build of this report started afresh, for this cause.
pub(crate) fn put_cause(report: &mut Report, cause: Cause)
    ensures { report.new ≡ record report.old { fresh = Some cause } }
{
    report.fresh = Some(cause);
}

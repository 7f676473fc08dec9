//! The tables of a build without a list, once its roots are settled.
ghost use Rattle.pie_topdown_result_laws.specs.Settled.{SettledTablesAreExact};

/// Where each entered task has the record of its evaluation now, the tables are those of an exact build by what changed in which all is settled.
/// Rule: docs/MODEL.md.
pub fn settled_tables_are_exact()
    ensures { SettledTablesAreExact }
{}

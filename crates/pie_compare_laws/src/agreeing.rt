//! Observations that stand.
ghost use Rattle.pie_compare_laws.specs.Agreeing.{StandingObservationsAgree, AgreeingObservationsStand};

/// Over tables whose settled tasks have the rows of their records, exactly those observations stand that have the stamps of the model.
/// Rule: docs/MODEL.md.
pub fn standing_observations_agree()
    ensures agree { StandingObservationsAgree }
    ensures stand { AgreeingObservationsStand }
{}

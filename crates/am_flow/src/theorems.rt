//! Laws of flows and their tables.

ghost use Rattle.am_flow.specs.Runs.{TablesCoverRuns};
ghost use Rattle.am_flow.specs.Texts.{FlowsAreExact, GoodFlowsAreFlows};

/// Where the transformers are sound, the words of every run are members of the table's entry at its last node.
pub fn tables_cover_runs()
    ensures { TablesCoverRuns }
{}

/// Flows are read exactly where they are spelled, and are then within the limits.
pub fn flows_are_exact()
    ensures exact { FlowsAreExact }
    ensures good { GoodFlowsAreFlows }
{}

//! Laws of the definitions, each the contract of a function that does nothing.

ghost use Rattle.trace_types.specs.Laws.{LeastIsLeast, LeastGrows, LeastIsOfASet, LeastGoesOn, LeastIsRenamed};
ghost use Rattle.trace_types.specs.Laws.{AccessibleIsLeastClosed, EachPhaseIsLeast, EachPhaseGrows};
ghost use Rattle.trace_types.specs.Laws.{OpeningIsWellFormed, CollectKeepsWellFormed};
ghost use Rattle.trace_types.specs.Laws.{StepKeepsWellFormed, StepLeavesNext, ReadFits, RunIsWellFormed, CensusAddsUp};
ghost use Rattle.trace_types.specs.Laws.{PutIsFound, LeftIsFound, EachNewCounts, FieldKeepsCensus};
ghost use Rattle.trace_types.specs.Laws.{PathIsFirst, ReachIsLeast};
ghost use Rattle.trace_types.specs.Laws.{EachIsWorkload, WorkloadsAreAccepted};
ghost use Rattle.trace_types.specs.Rows.{Hold};
ghost use Rattle.trace_types.specs.worked.Weak.{weak_rows};
ghost use Rattle.trace_types.specs.worked.Guardians.{guardian_rows};
ghost use Rattle.trace_types.specs.worked.Ordered.{ordered_rows};
ghost use Rattle.trace_types.specs.worked.Moving.{moving_rows};
ghost use Rattle.trace_types.specs.worked.Printing.{printing_rows};
ghost use Rattle.trace_types.specs.worked.Tables.{table_rows};
ghost use Rattle.trace_types.specs.worked.Refusals.{refusal_rows};
ghost use Rattle.trace_types.specs.worked.Forms.{form_rows};
ghost use Rattle.trace_types.specs.worked.Workloads.{workload_rows, DrawsFirst};

/// What the least set of a list of rules is: it meets each rule and is in each set that does. It grows
/// with the rules, and depends on them as a set. Further rules go on from what is there already. And
/// another name for each object is another name for each member.
pub fn least_sets()
    ensures least { LeastIsLeast }
    ensures grows { LeastGrows }
    ensures of_a_set { LeastIsOfASet }
    ensures goes_on { LeastGoesOn }
    ensures renamed { LeastIsRenamed }
{}

/// What a collection keeps: the accessible objects are the least closed set with the roots, and the set of
/// each further phase is the least of its kind, which only adds to the one before.
pub fn phases()
    ensures accessible { AccessibleIsLeastClosed }
    ensures least { EachPhaseIsLeast }
    ensures grow { EachPhaseGrows }
{}

/// The state in which a trace begins is well formed, and commands and collections keep it so.
pub fn well_formed_states()
    ensures opening { OpeningIsWellFormed }
    ensures collect { CollectKeepsWellFormed }
    ensures step { StepKeepsWellFormed }
    ensures next { StepLeavesNext }
    ensures read { ReadFits }
    ensures run { RunIsWellFormed }
    ensures census { CensusAddsUp }
{}

/// What a change of a graph leaves: what is found in it, and what its census counts.
pub fn graphs()
    ensures put { PutIsFound }
    ensures collected { LeftIsFound }
    ensures made { EachNewCounts }
    ensures set { FieldKeepsCensus }
{}

/// What the path finder finds: of the walks along strong references the shortest, and of these the first.
/// It finds none only where there is none. And what is reached, that is, held.
pub fn paths()
    ensures path { PathIsFirst }
    ensures reach { ReachIsLeast }
{}

/// What a workload is: as many lines as were asked for, none of which is too long. And none of them is
/// refused, since the registers that a line uses hold what it needs.
pub fn workloads()
    ensures lines { EachIsWorkload }
    ensures accepted { WorkloadsAreAccepted }
{}

/// The worked rows: each trace prints and ends as its row says.
pub fn worked_rows()
    ensures weak { Hold weak_rows }
    ensures guardians { Hold guardian_rows }
    ensures ordered { Hold ordered_rows }
    ensures moving { Hold moving_rows }
    ensures printing { Hold printing_rows }
    ensures tables { Hold table_rows }
    ensures refusals { Hold refusal_rows }
    ensures forms { Hold form_rows }
    ensures workloads { Hold workload_rows }
    ensures drawn { DrawsFirst }
{}

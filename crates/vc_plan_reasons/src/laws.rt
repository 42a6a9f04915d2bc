//! Laws of reasons, each the contract of a function that does nothing.

ghost use Rattle.vc_plan_reasons.specs.Blaming.{ClashesAreBlamed};
ghost use Rattle.vc_plan_reasons.specs.Fitting.{EvaluationsFit, StagesFit};
ghost use Rattle.vc_plan_reasons.specs.Trimming.{TrimmedClashesRefute, TrimmedIsAChain, TrimmingKeepsAcceptance};
ghost use Rattle.vc_plan_reasons.specs.Laws.{AcceptedUnrefused, ChainsStand, ConclusionsStand, WholeSettles};
ghost use Rattle.vc_plan_reasons.specs.Laws.{RefutingBreaks, RefutingBlames, KeptIsAccepted, KeptIsLeft};
ghost use Rattle.vc_plan_reasons.specs.Laws.{DroppedIsReached, FewOfAThing, GivesLocally, GivesWhatItWrites};
ghost use Rattle.vc_plan_reasons.specs.Laws.{SaysLocally, RulesIgnoreSources, ReachIsLeast};

/// A list of steps is accepted exactly where no step is refused.
pub fn accepted_is_unrefused()
    ensures { AcceptedUnrefused }
{}

/// What an accepted list concludes stands in every closed set, so two steps can't hold each other up; and what has a
/// chain of reasons stands where settling ends.
pub fn conclusions_stand()
    ensures closed { ConclusionsStand }
    ensures chains { ChainsStand }
{}

/// A whole list concludes just what settling ends at.
pub fn whole_lists_settle()
    ensures { WholeSettles }
{}

/// Where a clash refutes the sources, settling with them is broken, and its culprit is a constraint's rule or a
/// statement that wrote one of them.
pub fn refuting_breaks()
    ensures breaks { RefutingBreaks }
    ensures blames { RefutingBlames }
{}

/// Where the sources fit a plan and a rule or source clashes at what an accepted list concludes, some clash of the list
/// refutes them.
pub fn clashes_are_blamed()
    ensures { ClashesAreBlamed }
{}

/// What is kept of an accepted list is accepted with the new sources, and is what the least set of dropped steps
/// leaves; of a valid plan these conclude atoms of things that the changed variables reach.
pub fn kept_is_accepted()
    ensures accepted { KeptIsAccepted }
    ensures least { KeptIsLeft }
    ensures reached { DroppedIsReached }
{}

/// What a rule or source gives depends on what it reads and writes alone, and it gives atoms of what it writes.
pub fn giving_is_local()
    ensures reads { GivesLocally }
    ensures writes { GivesWhatItWrites }
{}

/// What is left of an accepted list without the steps that are in vain is accepted; of one that ends with an atom it
/// is a chain of reasons for that, and of a clash that refutes one that refutes.
pub fn trimmed_lists_are_accepted()
    ensures accepted { TrimmingKeepsAcceptance }
    ensures chains { TrimmedIsAChain }
    ensures clashes { TrimmedClashesRefute }
{}

/// Where the user's values fit the plan, so do the sources at the end of an evaluation: of the broken stage, or of
/// the last.
pub fn evaluations_fit()
    ensures { EvaluationsFit }
{}

/// Where the user's values fit the plan, so do the sources of each stage.
pub fn stages_fit()
    ensures { StagesFit }
{}

/// What a rule or source says, whether it stands or not, depends on what it reads alone, and of a rule not on the
/// sources.
pub fn saying_is_local()
    ensures reads { SaysLocally }
    ensures sources { RulesIgnoreSources }
{}

/// Of each thing a clear set has at most as many atoms as its size says.
pub fn things_are_small()
    ensures { FewOfAThing }
{}

/// What things reach is the least list with what rules write that read one of it.
pub fn reach_is_least()
    ensures { ReachIsLeast }
{}

//! Laws of stages and bills, each the contract of a function that does nothing.

ghost use Rattle.vc_plan.specs.StageLaws.{UsersDecide, StagesWriteTheirOwn, SumsWriteTheirOwn, ItemsAscend};
ghost use Rattle.vc_plan.specs.StageLaws.{ComponentsAreTakenWhereHere, ParentsComeFirst, ComponentsFollow};
ghost use Rattle.vc_plan.specs.StageLaws.{OwnLinesInOrder, LevelsSuffice, BillsHaveTakenLines, ParentsAreHere};
ghost use Rattle.vc_plan.specs.StageLaws.{LastStageSettles, BillsShowTakenLines};

/// What the user chose decides the evaluation.
pub fn users_decide()
    ensures { UsersDecide }
{}

/// The procedures of a stage write to variables of its instances alone, if each writes at its own slot.
pub fn stages_write_their_own()
    ensures depths { StagesWriteTheirOwn }
    ensures sums { SumsWriteTheirOwn }
{}

/// The lines of an instance stand in its bill in item order.
pub fn items_ascend()
    ensures { ItemsAscend }
{}

/// A configurable line is taken exactly where its slot is here.
pub fn components_are_taken_where_here()
    ensures { ComponentsAreTakenWhereHere }
{}

/// In a valid plan each slot comes after its parent.
pub fn parents_come_first()
    ensures { ParentsComeFirst }
{}

/// The bill is in preorder: each line is followed at once by its component's own bill, which stands whole before the
/// owner's next line; an instance's own lines come in item order; and no bill has more levels than there are slots.
/// It has of each instance exactly the lines that it takes.
pub fn bills_are_in_preorder()
    ensures follow { ComponentsFollow }
    ensures own { OwnLinesInOrder }
    ensures levels { LevelsSuffice }
    ensures taken { BillsHaveTakenLines }
    ensures shown { BillsShowTakenLines }
{}

/// Where settling ends for a valid plan, the root is here, and each slot that is here has its parent here.
pub fn parents_are_here()
    ensures { ParentsAreHere }
{}

/// What is read at the end of an evaluation is where its last stage settles.
pub fn last_stage_settles()
    ensures { LastStageSettles }
{}

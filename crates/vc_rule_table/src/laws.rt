//! Laws of what a table call says, each the contract of a function that does nothing.

ghost use Rattle.vc_rule_table.specs.Laws.{TableIsSaid, TableStands, TableIsRead, TableIsFew, TableFollows};

/// What is said, without what it follows from, is what the table call gives and doesn't stand yet.
pub fn table_is_said()
    ensures { TableIsSaid }
{}

/// Each premise of what is said stands.
pub fn table_stands()
    ensures { TableStands }
{}

/// Each premise is of a variable that a column is given.
pub fn table_is_read()
    ensures { TableIsRead }
{}

/// In a valid plan a conclusion has at most one premise a row: that a grain is out of the rows that
/// have it, a value and a clash of all rows.
pub fn table_is_few()
    ensures { TableIsFew }
{}

/// What is said follows from its premises alone: wherever a part of what is seen says them, the
/// table call gives it too. That no grain which holds its variable's value is out is taken for
/// granted.
pub fn table_follows()
    ensures { TableFollows }
{}

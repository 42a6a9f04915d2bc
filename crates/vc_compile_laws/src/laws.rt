//! Laws of the plans of models that texts spell, with their tables read and no fault told, each the contract of a
//! function that does nothing.

ghost use Rattle.vc_compile_cutting.specs.Cuts.{IsCut};
ghost use Rattle.vc_compile_laws.specs.Bills.{HasBills};
ghost use Rattle.vc_compile_laws.specs.Classes.{HasClasses};
ghost use Rattle.vc_compile_laws.specs.Compiles.{CompiledKeeps};
ghost use Rattle.vc_compile_laws.specs.Guards.{HasGuards};
ghost use Rattle.vc_compile_laws.specs.Lists.{HasLists};
ghost use Rattle.vc_compile_laws.specs.Orders.{HasFewLines, HasOrders};
ghost use Rattle.vc_compile_laws.specs.Sizes.{HasCounts, IsWithin};
ghost use Rattle.vc_compile_laws.specs.Slots.{HasSlots};
ghost use Rattle.vc_compile_laws.specs.Statements.{HasFewStatements};
ghost use Rattle.vc_compile_laws.specs.Tables.{HasTables};
ghost use Rattle.vc_compile_laws.specs.Variables.{HasVariables};
ghost use Rattle.vc_compile_laws.specs.Words.{HasTexts, HasWords};
ghost use Rattle.vc_compile_meant.specs.Calls.{HasColumns};
ghost use Rattle.vc_compile_meant.specs.Scopes.{HasNets, HasOwnSlots, HasScopes};
ghost use Rattle.vc_compile_meant.specs.Sorts.{HasAmounts};
ghost use Rattle.vc_compile_meant.specs.Sums.{HasNoSums};
ghost use Rattle.vc_compile_ranges.specs.Ranges.{HasRanges};
ghost use Rattle.vc_compile_sizes.specs.LookUps.{HasLookUps};
ghost use Rattle.vc_compile_sizes.specs.Sizes.{HasSizes};
ghost use Rattle.vc_compile_sorts.specs.Sorts.{HasSums, HasTypes};
ghost use Rattle.vc_compile_valid.specs.Domains.{HasDomains};
ghost use Rattle.vc_compile_valid.specs.Places.{HasFewProcedures, HasPlaces};
ghost use Rattle.vc_compile_valid.specs.Rules.{HasRules};
ghost use Rattle.vc_compile_valid.specs.Slots.{HasLineSlots, HasOneBill, HasPreorder};
ghost use Rattle.vc_plan.specs.Valid.{IsValid};

/// In each such plan names, materials and units are spelled, and of each kind a name stands once.
pub fn compiled_plans_have_words()
    ensures { CompiledKeeps HasWords }
{}

/// No more things of a kind are in it than a model may have.
pub fn compiled_plans_have_counts()
    ensures { CompiledKeeps HasCounts }
{}

/// Its slots, rules, atoms and cells are within the limits.
pub fn compiled_plans_are_within()
    ensures { CompiledKeeps IsWithin }
{}

/// Its texts are UTF-8, of 1 to 30 characters and different, and those that are listed have no control characters.
pub fn compiled_plans_have_texts()
    ensures { CompiledKeeps HasTexts }
{}

/// Its lists name texts and numbers that may be stored, each value once; its classes name characteristics, each once.
pub fn compiled_plans_have_lists()
    ensures { CompiledKeeps HasLists }
{}

/// The columns of its tables are of different characteristics, and rows have a value of its list for each, and keys of
/// their own.
pub fn compiled_plans_have_tables()
    ensures { CompiledKeeps HasTables }
{}

/// Its slots name slots and objects that it has, the first is the root, and none is deeper than the fourth level.
pub fn compiled_plans_have_slots()
    ensures { CompiledKeeps HasSlots }
{}

/// Its variables and sets are those of its slots' classes, by slot, and have the domains of their characteristics; no
/// column of a table is of one that has sets.
pub fn compiled_plans_have_variables()
    ensures { CompiledKeeps HasVariables }
{}

/// Its lines and operations are of slots that it has, with terms and conditions that it has, and their words are
/// spelled.
pub fn compiled_plans_have_bills()
    ensures { CompiledKeeps HasBills }
{}

/// Its preconditions and requirements name variables, sets, dependencies and conditions that it has, and a precondition
/// of a value names one that is listed.
pub fn compiled_plans_have_guards()
    ensures { CompiledKeeps HasGuards }
{}

/// Its lines are by slot and item, and its operations by slot and number.
pub fn compiled_plans_have_orders()
    ensures { CompiledKeeps HasOrders }
{}

/// A slot has at most 1,000 lines and 1,000 operations.
pub fn compiled_plans_have_few_lines()
    ensures { CompiledKeeps HasFewLines }
{}

/// A slot has a set for each characteristic of its class that has sets, and a variable for each other, in class order.
pub fn compiled_plans_have_classes()
    ensures { CompiledKeeps HasClasses }
{}

/// The statements of its procedures have numbers of 32 bits.
pub fn compiled_plans_have_few_statements()
    ensures { CompiledKeeps HasFewStatements }
{}

/// Its rules are numbered, none stands twice, each variable has one Last and each slot but the root a Line.
pub fn compiled_plans_have_rules()
    ensures { CompiledKeeps HasRules }
{}

/// Its slots are in preorder, each one level below the slot whose line it stands for, and by item.
pub fn compiled_plans_have_preorder()
    ensures { CompiledKeeps HasPreorder }
{}

/// A line that has an object has one slot, of that object, and another line none.
pub fn compiled_plans_have_line_slots()
    ensures { CompiledKeeps HasLineSlots }
{}

/// Slots of one object have its lines and its operations.
pub fn compiled_plans_have_one_bill()
    ensures { CompiledKeeps HasOneBill }
{}

/// Its procedures and preconditions are by slot, class order and list order, and stand at listed values.
pub fn compiled_plans_have_places()
    ensures { CompiledKeeps HasPlaces }
{}

/// Its procedures have numbers of 32 bits.
pub fn compiled_plans_have_few_procedures()
    ensures { CompiledKeeps HasFewProcedures }
{}

/// Its domains are the lists of characteristics cut up, and each variable has a grain.
pub fn compiled_plans_have_domains()
    ensures { CompiledKeeps HasDomains }
{}

/// All but constraints reads what can be named where it stands, and procedures write to their own slot.
pub fn compiled_plans_have_scopes()
    ensures { CompiledKeeps HasScopes }
{}

/// Quantities and times are numbers made of numbers.
pub fn compiled_plans_have_amounts()
    ensures { CompiledKeeps HasAmounts }
{}

/// Rules ask no set, and SPECIFIED under no NOT.
pub fn compiled_plans_have_nets()
    ensures { CompiledKeeps HasNets }
{}

/// Sums over parts stand in procedures alone.
pub fn compiled_plans_have_no_sums()
    ensures { CompiledKeeps HasNoSums }
{}

/// A constraint's rule stands at one slot to four, and reads and infers variables of these alone.
pub fn compiled_plans_have_own_slots()
    ensures { CompiledKeeps HasOwnSlots }
{}

/// A table call of a rule names columns, each once.
pub fn compiled_plans_have_columns()
    ensures { CompiledKeeps HasColumns }
{}

/// Its conditions, terms, rules and procedures name things that it has.
pub fn compiled_plans_have_ranges()
    ensures { CompiledKeeps HasRanges }
{}

/// Texts meet texts and numbers numbers: in conditions, rules and statements.
pub fn compiled_plans_have_types()
    ensures { CompiledKeeps HasTypes }
{}

/// Each sum over parts is of numbers that some part has.
pub fn compiled_plans_have_sums()
    ensures { CompiledKeeps HasSums }
{}

/// Each step of what it computes stays within the limit.
pub fn compiled_plans_have_sizes()
    ensures { CompiledKeeps HasSizes }
{}

/// A look-up gives a term to each key of its table, and fills columns that are no keys, each once.
pub fn compiled_plans_have_look_ups()
    ensures { CompiledKeeps HasLookUps }
{}

/// Its variables are cut at each number that a condition, a restriction or a table puts beside them.
pub fn compiled_plans_are_cut()
    ensures { CompiledKeeps IsCut }
{}

/// It keeps all that a plan keeps.
pub fn compiled_plans_are_valid()
    ensures { CompiledKeeps IsValid }
{}

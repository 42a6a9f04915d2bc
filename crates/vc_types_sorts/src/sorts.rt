//! Faults of kind: texts and numbers that meet, and what stands where something else belongs.

ghost use Rattle.std.specs.Prelude.{◌≡◌, ◌&&◌, ◌||◌, not, Some, filter_map, map, slice_get};
ghost use Rattle.std.specs.List.{list_any};
ghost use Rattle.vc_syntax_tree.specs.Trees.{Compared, action_of, binding_of, relation_of};
ghost use Rattle.vc_syntax_tree.specs.Trees.{statement_of, table_call_of, term_of};
ghost use Rattle.vc_types.specs.Looking.{member_in, member_of};
ghost use Rattle.vc_types.specs.Meanings.{known};
ghost use Rattle.vc_types.specs.Occurrences.{is_equality};
ghost use Rattle.vc_types.specs.Settings.{component_class, component_classes, is_set, meaning, sort_meant};
ghost use Rattle.vc_types.specs.SortFaults as faults;
ghost use Rattle.vc_types_faults.specs.Terms.{if_part};
ghost use Rattle.vc_types_meanings.specs.Borrowed.{tree_of};
ghost use Rattle.vc_types_meanings.specs.Seen.{seen};
ghost use Rattle.vc_types_occurrences.specs.Seen.{calls_seen, leaves_seen, relations_seen, terms_seen};

use vc_model_parts::{BillItem, TableColumn};
use vc_syntax_tree::{
    Action, Alias, Binding, Item, NameLeaf, Object, Operand, Relation, Relator, Statement,
    TableCall, Term,
};
use vc_types::{Meaning, Referent, Sort};
use vc_types_faults::columns::bound_column;
use vc_types_faults::names::component_class;
use vc_types_faults::places::{has_instance, is_constraint};
use vc_types_meanings::meanings::{class_meant, known};
use vc_types_meanings::{Setting, Tree};
use vc_types_names::Names;
use vc_types_occurrences::Use;
use vc_types_occurrences::terms::is_equality;

/// Whether what is meant is a text or a number.
pub fn sort_meant(names: &Names, meaning: Meaning) -> Option<Sort>
    ensures { result ≡ sort_meant names.now.model.now meaning }
{
    match meaning {
        Meaning::Characteristic(characteristic) => names.sort_of(characteristic),
        _ => None,
    }
}

/// Whether what is meant has sets of texts.
pub fn is_set(names: &Names, meaning: Meaning) -> bool
    ensures { result ≡ is_set names.now.model.now meaning }
{
    match meaning {
        Meaning::Characteristic(characteristic) => names.is_multiple(characteristic),
        _ => false,
    }
}

fn sort_of_operand(setting: &Setting, operand: &Operand) -> Option<Sort>
    ensures { result ≡ sort_meant (seen setting.now).model (meaning (seen setting.now) operand.now) }
{
    sort_meant(setting.names(), setting.meaning(operand))
}

/// Whether a term is a text or a number; neither where its operand means no characteristic.
pub fn sort_of(setting: &Setting, term: &Term) -> Option<Sort>
    ensures { result ≡ faults.sort_of (seen setting.now) (term_of term.now) }
{
    match term {
        Term::Number(_) => Some(Sort::Numbers),
        Term::Text(_) => Some(Sort::Texts),
        Term::Operand(operand) => sort_of_operand(setting, operand),
        Term::Negated(_) => Some(Sort::Numbers),
        Term::Combined(_, _, _) => Some(Sort::Numbers),
        Term::Applied(_, _) => Some(Sort::Numbers),
        Term::SumOfParts(_) => Some(Sort::Numbers),
        Term::CountOfParts => Some(Sort::Numbers),
    }
}

fn is_text(sort: Option<Sort>) -> bool
    ensures { result ≡ faults.is_text sort }
{
    match sort {
        None => false,
        Some(Sort::Texts) => true,
        Some(Sort::Numbers) => false,
    }
}

fn is_number(sort: Option<Sort>) -> bool
    ensures { result ≡ faults.is_number sort }
{
    match sort {
        None => false,
        Some(Sort::Texts) => false,
        Some(Sort::Numbers) => true,
    }
}

fn differ(first: Option<Sort>, second: Option<Sort>) -> bool
    ensures { result ≡ faults.differ first second }
{
    (is_text(first) && is_number(second)) || (is_number(first) && is_text(second))
}

fn sort_of_item(item: &Item) -> Option<Sort>
    ensures { result ≡ faults.sort_of_item item.now }
{
    match item {
        Item::Text(_) => Some(Sort::Texts),
        Item::Number(_) => Some(Sort::Numbers),
        Item::Interval(_, _) => Some(Sort::Numbers),
    }
}

fn orders_text(relator: Relator, left: Option<Sort>, right: Option<Sort>) -> bool
    ensures { result ≡ (not (is_equality relator) && (faults.is_text left || faults.is_text right)) }
{
    !is_equality(relator) && (is_text(left) || is_text(right))
}

fn compares_wrongly(setting: &Setting, left: &Term, relator: Relator, right: &Term) -> bool
    ensures { result ≡ faults.relates_wrongly (seen setting.now)
        (Compared (term_of left.now) relator (term_of right.now)) }
{
    let first = sort_of(setting, left);
    let second = sort_of(setting, right);
    differ(first, second) || orders_text(relator, first, second)
}

fn some_item_differs(sort: Option<Sort>, items: &[Item]) -> bool
    ensures { result ≡ list_any (λ item. faults.differ sort (faults.sort_of_item item)) items.now }
{
    items.iter().any(|item| differ(sort, sort_of_item(item)))
}

fn relates_wrongly(setting: &Setting, relation: &Relation) -> bool
    ensures { result ≡ faults.relates_wrongly (seen setting.now) (relation_of relation.now) }
{
    match relation {
        Relation::Compared(left, relator, right) => compares_wrongly(
            setting, left, *relator, right,
        ),
        Relation::Within(operand, items) => {
            some_item_differs(sort_of_operand(setting, operand.get()), items.as_slice())
        }
    }
}

/// Whether a text meets a number in some relation, or an order a text.
pub fn some_relates_wrongly(setting: &Setting, relations: &[&Relation]) -> bool
    ensures { result ≡ list_any (faults.relates_wrongly (seen setting.now)) (relations_seen relations.now) }
{
    for relation in relations {
        if relates_wrongly(setting, *relation) {
            return true;
        }
    }
    false
}

fn is_text_term(setting: &Setting, term: &Term) -> bool
    ensures { result ≡ faults.is_text (faults.sort_of (seen setting.now) (term_of term.now)) }
{
    is_text(sort_of(setting, term))
}

fn computes_with_text(setting: &Setting, term: &Term) -> bool
    ensures { result ≡ faults.computes_with_text (seen setting.now) (term_of term.now) }
{
    match term {
        Term::Number(_) => false,
        Term::Text(_) => false,
        Term::Operand(_) => false,
        Term::Negated(inner) => is_text_term(setting, inner) || computes_with_text(setting, inner),
        Term::Combined(left, _, right) => {
            (is_text_term(setting, left) || is_text_term(setting, right))
                || (computes_with_text(setting, left) || computes_with_text(setting, right))
        }
        Term::Applied(_, inner) => {
            is_text_term(setting, inner) || computes_with_text(setting, inner)
        }
        Term::SumOfParts(_) => false,
        Term::CountOfParts => false,
    }
}

/// Whether arithmetic meets a text in some term.
pub fn some_computes_with_text(setting: &Setting, terms: &[&Term]) -> bool
    ensures { result ≡ list_any (faults.computes_with_text (seen setting.now)) (terms_seen terms.now) }
{
    for term in terms {
        if computes_with_text(setting, *term) {
            return true;
        }
    }
    false
}

fn gives_wrongly(setting: &Setting, name: &NameLeaf, term: &Term) -> bool
    ensures { result ≡ faults.gives_wrongly (seen setting.now) name.now (term_of term.now) }
{
    let given = sort_meant(setting.names(), setting.own_meaning(name));
    differ(given, sort_of(setting, term))
}

fn acts_wrongly(setting: &Setting, action: &Action) -> bool
    ensures { result ≡ faults.acts_wrongly (seen setting.now) (action_of action.now) }
{
    match action {
        Action::Assign(name, term) => gives_wrongly(setting, name, term),
        Action::SetDefault(name, term) => gives_wrongly(setting, name, term),
        Action::DelDefault(name, term) => gives_wrongly(setting, name, term),
        Action::Table(_) => false,
    }
}

fn some_acts_wrongly(setting: &Setting, statements: &[Statement]) -> bool
    ensures { result ≡ list_any (λ statement. faults.acts_wrongly (seen setting.now) statement.action)
        (map statement_of statements.now) }
{
    for statement in statements {
        if acts_wrongly(setting, &statement.action) {
            return true;
        }
    }
    false
}

/// Whether a statement gives a characteristic a value of the other sort, or a quantity or a time is
/// a text.
pub fn acts_or_counts_wrongly(setting: &Setting, tree: Tree) -> bool
    ensures { result ≡ faults.acts_or_counts_wrongly (seen setting.now) (tree_of tree.entry) }
{
    match tree {
        Tree::Procedure(statements) => some_acts_wrongly(setting, statements),
        Tree::Term(term) => is_text_term(setting, term),
        _ => false,
    }
}

fn sort_of_column(setting: &Setting, column: Option<TableColumn>) -> Option<Sort>
    ensures { result ≡ faults.sort_of_column (seen setting.now) column }
{
    match column {
        Some(column) => setting.names().sort_of(column.characteristic),
        None => None,
    }
}

fn binds_wrongly(setting: &Setting, call: &TableCall, binding: &Binding) -> bool
    ensures { result ≡ faults.binds_wrongly (seen setting.now) (table_call_of call.now) (binding_of binding.now) }
{
    let column = bound_column(setting, call, binding);
    differ(
        sort_of_column(setting, column),
        sort_of(setting, &binding.value),
    )
}

fn calls_wrongly(setting: &Setting, call: &TableCall) -> bool
    ensures { result ≡ faults.calls_wrongly (seen setting.now) (table_call_of call.now) }
{
    let bindings = call.bindings.as_slice();
    for binding in bindings {
        if binds_wrongly(setting, call, binding) {
            return true;
        }
    }
    false
}

/// Whether a column of some call meets a value of the other sort.
pub fn some_calls_wrongly(setting: &Setting, calls: &[&TableCall]) -> bool
    ensures { result ≡ list_any (faults.calls_wrongly (seen setting.now)) (calls_seen calls.now) }
{
    for call in calls {
        if calls_wrongly(setting, *call) {
            return true;
        }
    }
    false
}

/// Whether some variable of an object stands for a value, or one of a value for an object.
pub fn some_other_variable(uses: &[Use]) -> bool
    ensures { result ≡ list_any (λ u. faults.is_other_variable u.meaning) uses.now }
{
    uses.iter().any(|u| matches!(u.meaning, Meaning::ObjectForValue | Meaning::ValueForObject))
}

fn is_value(referent: Option<Referent>) -> bool
    ensures { result ≡ faults.is_value_variable referent }
{
    match referent {
        None => false,
        Some(Referent::Object(_)) => false,
        Some(Referent::Value(_)) => true,
    }
}

fn parts_a_value(setting: &Setting, leaf: &NameLeaf) -> bool
    ensures { result ≡ faults.parts_a_value (seen setting.now) leaf.now }
{
    is_constraint(setting.place().at) && is_value(setting.referent(leaf))
}

/// Whether some variable of PART_OF stands for a value.
pub fn some_parts_a_value(setting: &Setting, leaves: &[&NameLeaf]) -> bool
    ensures { result ≡ list_any (faults.parts_a_value (seen setting.now)) (leaves_seen leaves.now) }
{
    for leaf in leaves {
        if parts_a_value(setting, *leaf) {
            return true;
        }
    }
    false
}

fn misuses_set(names: &Names, u: Use) -> bool
    ensures { result ≡ (not u.for_set && is_set names.now.model.now u.meaning) }
{
    !u.for_set && is_set(names, u.meaning)
}

/// Whether some set stands where a single value belongs.
pub fn some_misuses_set(names: &Names, uses: &[Use]) -> bool
    ensures { result ≡ list_any (λ u. not u.for_set && is_set names.now.model.now u.meaning) uses.now }
{
    uses.iter().any(|u| misuses_set(names, *u))
}

/// Whether some operand is a set.
pub fn some_set(names: &Names, uses: &[Use]) -> bool
    ensures { result ≡ list_any (λ u. is_set names.now.model.now u.meaning) uses.now }
{
    uses.iter().any(|u| is_set(names, u.meaning))
}

fn aliases_set(setting: &Setting, class: Option<u32>, alias: &Alias) -> bool
    ensures { result ≡ faults.aliases_set (seen setting.now) class alias.now }
{
    let names = setting.names();
    is_set(
        names,
        known(names.member_of(alias.characteristic.name.bytes(), class)),
    )
}

fn some_aliases_set(setting: &Setting, class: Option<u32>, aliases: &[Alias]) -> bool
    ensures { result ≡ list_any (faults.aliases_set (seen setting.now) class) aliases.now }
{
    aliases
        .iter()
        .any(|alias| aliases_set(setting, class, alias))
}

fn declares_set(setting: &Setting, object: &Object) -> bool
    ensures { result ≡ faults.declares_set (seen setting.now) object.now }
{
    let class = class_meant(setting.names(), &object.kind);
    some_aliases_set(setting, class, object.aliases.as_slice())
}

/// Whether a set stands behind WHERE of some object.
pub fn some_declares_set(setting: &Setting, objects: &[Object]) -> bool
    ensures { result ≡ list_any (faults.declares_set (seen setting.now)) objects.now }
{
    objects.iter().any(|object| declares_set(setting, object))
}

fn is_text_member(names: &Names, characteristic: Option<u32>, class: u32) -> bool
    ensures { result ≡ faults.is_text (sort_meant names.now.model.now
        (known (member_in (slice_get (names.now.model.now).classes class) characteristic))) }
{
    let member = names.member_in(class, characteristic);
    is_text(sort_meant(names, known(member)))
}

fn item_has_text(names: &Names, characteristic: Option<u32>, item: &BillItem) -> bool
    ensures { result ≡ if_part (λ class. faults.is_text (sort_meant names.now.model.now
        (known (member_in (slice_get (names.now.model.now).classes class) characteristic))))
        (component_class names.now.model.now item.now) }
{
    match component_class(names, item) {
        Some(class) => is_text_member(names, characteristic, class),
        None => false,
    }
}

#[tactic(auto, using(vc_types_faults::proofs::AnyLemmas::any_option))]
fn some_item_has_text(names: &Names, characteristic: Option<u32>, items: &[BillItem]) -> bool
    ensures { result ≡ list_any (λ class. faults.is_text (sort_meant names.now.model.now
        (known (member_in (slice_get (names.now.model.now).classes class) characteristic))))
        (filter_map (component_class names.now.model.now) items.now) }
{
    for item in items {
        if item_has_text(names, characteristic, item) {
            return true;
        }
    }
    false
}

fn some_part_has_text(setting: &Setting, leaf: &NameLeaf) -> bool
    ensures { result ≡ list_any (λ class. faults.is_text (sort_meant (seen setting.now).model
        (known (member_of (seen setting.now).model (leaf.now).name (Some class)))))
        (component_classes (seen setting.now)) }
{
    let names = setting.names();
    let characteristic = names.characteristic(leaf.name.bytes());
    match names
        .model()
        .objects
        .as_slice()
        .get(setting.place().object as usize)
    {
        Some(object) => some_item_has_text(names, characteristic, object.bill.as_slice()),
        None => false,
    }
}

fn sums_texts(setting: &Setting, leaf: &NameLeaf) -> bool
    ensures { result ≡ faults.sums_texts (seen setting.now) leaf.now }
{
    has_instance(setting.place().at) && some_part_has_text(setting, leaf)
}

/// Whether some part sum is one of texts.
pub fn some_sums_texts(setting: &Setting, leaves: &[&NameLeaf]) -> bool
    ensures { result ≡ list_any (faults.sums_texts (seen setting.now)) (leaves_seen leaves.now) }
{
    for leaf in leaves {
        if sums_texts(setting, *leaf) {
            return true;
        }
    }
    false
}

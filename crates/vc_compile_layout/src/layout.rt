//! What a model's dependencies are compiled with: its slots, variables, sets and texts, each found by an index.

ghost use Rattle.std.proofs.Props.{props};
ghost use Rattle.std.specs.Prelude.{◌≡◌, ◌==◌, ◌&&◌, ◌<◌, ◌^◌, ◌↔◌, ℕ, List, length, position, slice_get, IfOk, IsTrue};
ghost use Rattle.std.specs.Option.{option_copied};
ghost use Rattle.std.specs.Str.{bytes_eq};
ghost use Rattle.vc_types_names.specs.FirstNames.{value_of};
ghost use Rattle.vc_compile_plan.specs.Tables.{column_place, table_number};
ghost use Rattle.vc_compile_plan.specs.Variables.{members_in};
ghost use Rattle.vc_compile_layout.specs.Numbered.{number_of};

use crate::numbers::{Numbers, Spot, numbers_of};
use std::alloc::{AllocError, Global};
use vc_compile_plan::Standing;
use vc_compile_uses::Texts;
use vc_model_parts::{
    BillItem, Characteristic, NamedDependency, Object, Operation, Table, column_among,
};
use vc_plan::{Named, Slot, TextSet, Var};
use vc_types_names::named::places;
use vc_types_names::{FirstNamed, Names};
use vc_value::{Listed, Word};

/// The slots, variables, sets and texts of a model's plan, with the indexes by which they are found.
pub struct Layout<'n, 'm> {
    names: &'n Names<'m>,
    standings: Listed<Standing>,
    slots: Listed<Slot>,
    vars: Listed<Var>,
    sets: Listed<TextSet>,
    texts: Texts,
    var_numbers: Numbers,
    set_numbers: Numbers,
    tables: FirstNamed<u32>,
    ghost few_slots: { length slots < 2 ^ 32 } by { Prim.hlevel props },
    ghost few_vars: { length vars < 2 ^ 32 } by { Prim.hlevel props },
    ghost few_sets: { length sets < 2 ^ 32 } by { Prim.hlevel props },
    ghost few_texts: { length texts.all < 2 ^ 32 } by { Prim.hlevel props },
    ghost few_tables: { length (names.now.model.now).tables < 2 ^ 32 } by { Prim.hlevel props },
    ghost vars_are: { (i c : ℕ) → number_of var_numbers i c
        ≡ position (λ x. (x.slot == i) && (x.characteristic == c)) vars } by { Prim.hlevel props },
    ghost sets_are: { (i c : ℕ) → number_of set_numbers i c
        ≡ position (λ x. (x.slot == i) && (x.characteristic == c)) sets } by { Prim.hlevel props },
    ghost tables_are: { (name : List ℕ) → value_of tables name
        ≡ position (λ t. bytes_eq t.name name) (names.now.model.now).tables } by { Prim.hlevel props },
}

/// The lists of a layout, without the indexes by which they are searched.
#[derive(Drop)]
pub struct Lists {
    pub slots: Listed<Slot>,
    pub vars: Listed<Var>,
    pub sets: Listed<TextSet>,
    pub texts: Listed<Word>,
}

// By hand, one field after another: a derived drop of so many fields makes who drops one slow to prove.
impl<'n, 'm> Drop for Layout<'n, 'm> {
    fn drop(self) {
        let Layout {
            names: _,
            standings,
            slots,
            vars,
            sets,
            texts,
            var_numbers,
            set_numbers,
            tables,
        } = self;
        drop(standings);
        drop(slots);
        drop(vars);
        drop(sets);
        drop(texts);
        drop(var_numbers);
        drop(set_numbers);
        drop(tables);
    }
}

impl<'n, 'm> Layout<'n, 'm> {
    ghost use Rattle.std.specs.Prelude.{IfOk};
    ghost use Rattle.vc_compile_plan.specs.Shown.{material_in, operations_in};
    ghost use Rattle.vc_compile_plan.specs.Sites.{named_at};
    ghost use Rattle.vc_compile_plan.specs.Slots.{bill_of};
    ghost use Rattle.vc_compile_plan.specs.Tables.{column_number};
    ghost use Rattle.vc_compile_plan.specs.Texts.{text_number};
    ghost use Rattle.vc_compile_plan.specs.Variables.{var_number, set_number, members_of};
    ghost use Rattle.vc_compile_layout.specs.Standing.{layout_seen};

    /// A layout of these, which takes memory for its indexes. Lists of 2^32 and more, which no text of a
    /// model brings, are answered as want of memory.
    pub fn new(
        alloc: Global,
        names: &'n Names<'m>,
        standings: Listed<Standing>,
        slots: Listed<Slot>,
        vars: Listed<Var>,
        sets: Listed<TextSet>,
        texts: Texts,
    ) -> Result<Layout<'n, 'm>, AllocError>
        ensures { IfOk result (λ layout. layout_seen layout ≡ record {
          model = names.now.model.now;
          standings = standings;
          slots = slots;
          vars = vars;
          sets = sets;
          texts = texts.all;
        }) }
    {
        if !is_numbered(slots.len()) || !is_numbered(texts.all().len()) {
            return Err(AllocError);
        }
        let tables = tables_of(alloc, names)?;
        let var_numbers = numbers_of_vars(alloc, vars.as_slice())?;
        let set_numbers = numbers_of_sets(alloc, sets.as_slice())?;
        Ok(Layout {
            names,
            standings,
            slots,
            vars,
            sets,
            texts,
            var_numbers,
            set_numbers,
            tables,
        })
    }

    /// The model with the index of its names.
    pub fn names(&self) -> &'n Names<'m>
        ensures { result.now.model.now ≡ (layout_seen self.now).model }
    {
        self.names
    }

    /// The slots.
    pub fn slots(&self) -> &[Slot]
        ensures slots { result.now ≡ (layout_seen self.now).slots }
        ensures few { length result.now < 2 ^ 32 }
    {
        self.slots.as_slice()
    }

    /// What stands at each slot.
    pub fn standings(&self) -> &[Standing]
        ensures { result.now ≡ (layout_seen self.now).standings }
    {
        self.standings.as_slice()
    }

    /// The slots, variables, sets and texts alone.
    pub fn into_lists(self) -> Lists
        ensures { result ≡ record {
          slots = (layout_seen self.entry).slots;
          vars = (layout_seen self.entry).vars;
          sets = (layout_seen self.entry).sets;
          texts = (layout_seen self.entry).texts;
        } }
    {
        let Layout {
            names: _,
            standings,
            slots,
            vars,
            sets,
            texts,
            var_numbers,
            set_numbers,
            tables,
        } = self;
        drop(standings);
        drop(var_numbers);
        drop(set_numbers);
        drop(tables);
        Lists {
            slots,
            vars,
            sets,
            texts: texts.into_all(),
        }
    }

    /// How many variables there are.
    pub fn var_count(&self) -> u32
        ensures { result ≡ length (layout_seen self.now).vars }
    {
        self.vars.len() as u32
    }

    /// The number of the variable of a characteristic at a slot; where there is none, their count.
    #[tactic(auto, using(crate::proofs::NumberLemmas::nowheres))]
    pub fn var_number(&self, slot: u32, characteristic: u32) -> u32
        ensures { result ≡ var_number (layout_seen self.now).vars slot characteristic }
    {
        let spot = Spot {
            slot,
            characteristic,
        };
        match self.var_numbers.find(spot) {
            Some(number) => number,
            None => self.vars.len() as u32,
        }
    }

    /// The number of the set of a characteristic at a slot; where there is none, their count.
    #[tactic(auto, using(crate::proofs::NumberLemmas::nowheres))]
    pub fn set_number(&self, slot: u32, characteristic: u32) -> u32
        ensures { result ≡ set_number (layout_seen self.now).sets slot characteristic }
    {
        let spot = Spot {
            slot,
            characteristic,
        };
        match self.set_numbers.find(spot) {
            Some(number) => number,
            None => self.sets.len() as u32,
        }
    }

    /// The number of a text; where it is none of these, their count.
    #[tactic(auto, using(crate::proofs::NumberLemmas::nowheres))]
    pub fn text_number(&self, text: &[u8]) -> u32
        ensures { result ≡ text_number (layout_seen self.now).texts text.now }
    {
        match self.texts.number(text) {
            Some(number) => number,
            None => self.texts.all().len() as u32,
        }
    }

    /// What a characteristic at a slot is: a variable or a set.
    pub fn named_at(&self, slot: u32, characteristic: u32) -> Named
        ensures { result ≡ named_at (layout_seen self.now) slot characteristic }
    {
        if self.names.is_multiple(characteristic) {
            Named::Set(self.set_number(slot, characteristic))
        } else {
            Named::Var(self.var_number(slot, characteristic))
        }
    }

    /// The characteristic of this number.
    pub fn characteristic(&self, number: u32) -> Option<&'n Characteristic>
        ensures { option_copied result ≡ slice_get ((layout_seen self.now).model).characteristics number }
    {
        let characteristics = self.names.model().characteristics.as_slice();
        characteristics.get(number as usize)
    }

    /// The dependency of this number.
    pub fn dependency(&self, number: u32) -> Option<&'n NamedDependency>
        ensures { option_copied result ≡ slice_get ((layout_seen self.now).model).dependencies number }
    {
        let dependencies = self.names.model().dependencies.as_slice();
        dependencies.get(number as usize)
    }

    /// The characteristics of a class, in order.
    pub fn members_in(&self, class: u32) -> &'n [u32]
        ensures { result.now ≡ members_in (slice_get ((layout_seen self.now).model).classes class) }
    {
        let classes = self.names.model().classes.as_slice();
        match classes.get(class as usize) {
            Some(class) => class.members.as_slice(),
            None => &[],
        }
    }

    /// The material of an object.
    pub fn material(&self, object: u32) -> &'n [u8]
        ensures { result.now ≡ material_in (slice_get ((layout_seen self.now).model).objects object) }
    {
        match self.object(object) {
            Some(object) => object.material.bytes(),
            None => &[],
        }
    }

    /// The lines of an object's bill.
    pub fn bill_of(&self, object: u32) -> &'n [BillItem]
        ensures { result.now ≡ bill_of (layout_seen self.now).model object }
    {
        match self.object(object) {
            Some(object) => object.bill.as_slice(),
            None => &[],
        }
    }

    /// The operations of an object.
    pub fn operations_of(&self, object: u32) -> &'n [Operation]
        ensures { result.now ≡ operations_in (slice_get ((layout_seen self.now).model).objects object) }
    {
        match self.object(object) {
            Some(object) => object.operations.as_slice(),
            None => &[],
        }
    }

    /// The object of this number.
    pub fn object(&self, number: u32) -> Option<&'n Object>
        ensures { option_copied result ≡ slice_get ((layout_seen self.now).model).objects number }
    {
        let objects = self.names.model().objects.as_slice();
        objects.get(number as usize)
    }

    /// The characteristics of an object's class, in order.
    pub fn members_of(&self, object: u32) -> &'n [u32]
        ensures { result.now ≡ members_of (layout_seen self.now).model object }
    {
        match self.object(object) {
            Some(object) => self.members_in(object.class),
            None => &[],
        }
    }

    /// The number of a table; where there is none of this name, their count.
    #[tactic(auto, using(crate::proofs::NumberLemmas::nowheres))]
    pub fn table_number(&self, name: &[u8]) -> u32
        ensures { result ≡ table_number (layout_seen self.now).model name.now }
    {
        match self.tables.find(name) {
            Some(number) => number,
            None => self.names.model().tables.len() as u32,
        }
    }

    /// The place of a column in a table; where there is none of this name, their count. A place of 2^32
    /// and more, which no text of a model brings, is answered as want of memory.
    pub fn column_number(&self, table: &[u8], column: &[u8]) -> Result<u32, AllocError>
        ensures { IfOk result (λ number. number ≡ column_number (layout_seen self.now).model table.now column.now) }
    {
        let tables = self.names.model().tables.as_slice();
        let table = tables.get(self.table_number(table) as usize);
        let characteristic = match self.names.characteristic(column) {
            Some(characteristic) => characteristic,
            None => 0,
        };
        match u32::try_from(column_place(table, characteristic)) {
            Ok(number) => Ok(number),
            Err(_) => Err(AllocError),
        }
    }
}

// Whether each of so many has a number of 32 bits.
fn is_numbered(count: usize) -> bool
    ensures { IsTrue result ↔ (count < 2 ^ 32) }
{
    count <= u32::MAX as usize
}

// The numbers of variables.
fn numbers_of_vars(alloc: Global, vars: &[Var]) -> Result<Numbers, AllocError>
    ensures few { IfOk result (λ numbers. length vars.now < 2 ^ 32) }
    ensures numbers { IfOk result (λ numbers. (i c : ℕ) → number_of numbers i c
        ≡ position (λ x. (x.slot == i) && (x.characteristic == c)) vars.now) }
{
    let numbers = numbers_of(alloc, vars)?;
    Ok(numbers)
}

// The numbers of sets.
fn numbers_of_sets(alloc: Global, sets: &[TextSet]) -> Result<Numbers, AllocError>
    ensures few { IfOk result (λ numbers. length sets.now < 2 ^ 32) }
    ensures numbers { IfOk result (λ numbers. (i c : ℕ) → number_of numbers i c
        ≡ position (λ x. (x.slot == i) && (x.characteristic == c)) sets.now) }
{
    let numbers = numbers_of(alloc, sets)?;
    Ok(numbers)
}

// The tables of the model by their names.
fn tables_of(alloc: Global, names: &Names<'_>) -> Result<FirstNamed<u32>, AllocError>
    ensures few { IfOk result (λ tables. length (names.now.model.now).tables < 2 ^ 32) }
    ensures tables { IfOk result (λ tables. (name : List ℕ) → value_of tables name
        ≡ position (λ t. bytes_eq t.name name) (names.now.model.now).tables) }
{
    let tables = names.model().tables.as_slice();
    if !is_numbered(tables.len()) {
        return Err(AllocError);
    }
    let places = places(alloc, tables)?;
    Ok(places)
}

fn column_place(table: Option<&Table>, characteristic: u32) -> usize
    ensures { result ≡ column_place (option_copied table.entry) characteristic }
{
    match table {
        Some(table) => column_among(table.columns.as_slice(), characteristic),
        None => 0,
    }
}

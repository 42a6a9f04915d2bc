//! The parts of a model, gathered from the last line of the text to the first.

ghost use Rattle.std.specs.Prelude.{◌≡◌, ◌+◌, ◌-◌, ◌^◌, ◌<◌, [], ◌∷◌, ◌++◌, List, length, option_to_list, option_map};
ghost use Rattle.std.specs.Prelude.{unwrap_or, IfOk, OnOk, Option, ℕ};
ghost use Rattle.vc_model_scope.specs.Names.{place_of};
ghost use Rattle.vc_model_scope.specs.Contents.{entry_within};
ghost use Rattle.vc_model_faults.specs.First.{backwards, readings_of};
ghost use Rattle.vc_model_faults.specs.Places.{Kept, seen_places};
ghost use Rattle.vc_model_lines.specs.Classified.{lines_of};
ghost use Rattle.vc_model_faults.specs.Readings.{Reading as Readings, reading, seen_reading, seen_readings};
ghost use Rattle.vc_model_faults.specs.Readings.{dependency_read, term_read};
ghost use Rattle.vc_syntax_tree.specs.Trees.{dependency_of, term_of};
ghost use Rattle.vc_model_lines.specs.declared.line.Line.TheVariants as lines;
ghost use Rattle.vc_model_lines.specs.declared.line.Line.{Line as Lines};
ghost use Rattle.vc_model_lines.specs.declared.line.Keyword.{Keyword as Keywords};
ghost use Rattle.vc_model_scope.specs.declared.scope.Scope.{Scope as Scopes};
ghost use Rattle.vc_model_drafts.specs.Models as models;
ghost use Rattle.vc_model_drafts.specs.Seen.{seen_model};
ghost use Rattle.vc_model_drafts.specs.Drafts as drafts;
ghost use Rattle.vc_model_drafts.specs.Drafts.{Puts, PutsAny};

use crate::stack::Stack;
use std::alloc::{AllocError, Global};
use std::mem;
use vc_model_faults::{Place, Reading};
use vc_model_lines::classified::line_of;
use vc_model_lines::{
    BillLine, BlockLine, CharLine, ColumnLine, HeadLine, IntervalLine, Line, NumLine, ObjectLine,
    OperationLine, TableLine,
};
use vc_model_parts::{
    BillItem, Characteristic, Class, Component, Model, NamedDependency, Net, NumberValue, Object,
    Operation, Table, TableColumn, TextValue, Values,
};
use vc_model_scope::names::Names;
use vc_model_scope::scope::Scope;
use vc_syntax_tree::{Dependency, Term};
use vc_value::{Listed, Word};

/// What belongs to a line that is still to come.
#[derive(Drop)]
pub struct Below {
    texts: Stack<TextValue>,
    numbers: Stack<NumberValue>,
    members: Stack<u32>,
    columns: Stack<TableColumn>,
    items: Stack<BillItem>,
    operations: Stack<Operation>,
}

/// What the lines from some line on say.
pub struct Draft {
    name: Word,
    version: u32,
    root: u32,
    /// The dependencies whose user is still to come.
    uses: Stack<u32>,
    /// The nets whose user is still to come.
    used_nets: Stack<u32>,
    below: Below,
    characteristics: Stack<Characteristic>,
    classes: Stack<Class>,
    tables: Stack<Table>,
    dependencies: Stack<NamedDependency>,
    nets: Stack<Net>,
    objects: Stack<Object>,
}

// By hand, as the derived one takes the check minutes wherever a draft is dropped.
impl Drop for Draft {
    fn drop(self) {
        let Draft {
            name,
            version: _,
            root: _,
            uses,
            used_nets,
            below,
            characteristics,
            classes,
            tables,
            dependencies,
            nets,
            objects,
        } = self;
        drop(name);
        drop(uses);
        drop(used_nets);
        drop(below);
        drop(characteristics);
        drop(classes);
        drop(tables);
        drop(dependencies);
        drop(nets);
        drop(objects);
    }
}

fn narrow(number: usize) -> Result<u32, AllocError>
    ensures { IfOk result (λ n. n ≡ number) }
{
    if number > u32::MAX as usize {
        return Err(AllocError);
    }
    Ok(number as u32)
}

fn place_of(names: &Names, name: &Word) -> Result<Option<u32>, AllocError>
    ensures { IfOk result (λ place. place ≡ place_of names.now name.now) }
{
    match names.place(name.bytes()) {
        Some(place) => Ok(Some(narrow(place)?)),
        None => Ok(None),
    }
}

fn number_of(names: &Names, name: &Word) -> Result<u32, AllocError>
    ensures { IfOk result (λ number. number ≡ models.number_of names.now name.now) }
{
    let place = place_of(names, name)?;
    Ok(place.unwrap_or(0))
}

// The number as `number_of` tells it, found at once where it is the one guessed.
fn number_near(names: &Names, name: &Word, guess: u32) -> Result<u32, AllocError>
    ensures { IfOk result (λ number. number ≡ models.number_of names.now name.now) }
{
    match names.place_near(name.bytes(), guess as usize) {
        Some(place) => narrow(place),
        None => Ok(0),
    }
}

fn component_of(names: &Names, material: Word) -> Result<Component, AllocError>
    ensures { IfOk result (λ component. component ≡ models.component_or material (place_of names.now material)) }
{
    match place_of(names, &material)? {
        Some(object) => Ok(Component::Object(object)),
        None => Ok(Component::Plain(material)),
    }
}

impl Below {
    fn new(alloc: Global) -> Below
        ensures { result ≡ drafts.empty_below }
    {
        Below {
            texts: Stack::new(alloc),
            numbers: Stack::new(alloc),
            members: Stack::new(alloc),
            columns: Stack::new(alloc),
            items: Stack::new(alloc),
            operations: Stack::new(alloc),
        }
    }

    // The text above the one put last, a guess at the next.
    fn next_text(&self) -> u32 {
        match self.texts.front() {
            Some(value) => value.text.saturating_sub(1),
            None => 0,
        }
    }
}

impl Draft {
    #[tactic(auto, unfolding(crate::specs::Drafts::draft_of, crate::specs::Drafts::seen_draft))]
    fn new(alloc: Global) -> Draft
        ensures { (scope : Scopes) (number : ℕ) → drafts.seen_draft result ≡ drafts.draft_of scope number [] }
    {
        Draft {
            name: Word::new(alloc),
            version: 0,
            root: 0,
            uses: Stack::new(alloc),
            used_nets: Stack::new(alloc),
            below: Below::new(alloc),
            characteristics: Stack::new(alloc),
            classes: Stack::new(alloc),
            tables: Stack::new(alloc),
            dependencies: Stack::new(alloc),
            nets: Stack::new(alloc),
            objects: Stack::new(alloc),
        }
    }

    fn take_uses(&mut self, alloc: Global) -> Listed<u32>
        ensures uses { result ≡ self.old.uses }
        ensures left { self.new ≡ record self.old { uses = []; used_nets = [] } }
    {
        self.used_nets = Stack::new(alloc);
        mem::replace(&mut self.uses, Stack::new(alloc)).into_listed()
    }

    fn take_nets(&mut self, alloc: Global) -> Listed<u32>
        ensures nets { result ≡ self.old.used_nets }
        ensures left { self.new ≡ record self.old { used_nets = [] } }
    {
        mem::replace(&mut self.used_nets, Stack::new(alloc)).into_listed()
    }

    fn take_below(&mut self, alloc: Global) -> Below
        ensures below { result ≡ self.old.below }
        ensures left { self.new ≡ record self.old { below = drafts.empty_below } }
    {
        mem::replace(&mut self.below, Below::new(alloc))
    }

    #[tactic(auto, unfolding(crate::specs::Drafts::seen_draft))]
    fn close(&mut self, alloc: Global)
        ensures left { self.new ≡ record self.old { uses = []; used_nets = []; below = drafts.empty_below } }
        ensures seen { drafts.seen_draft self.new ≡ drafts.closed (drafts.seen_draft self.old) }
    {
        let _uses = self.take_uses(alloc);
        let _below = self.take_below(alloc);
    }
}

// What a line of each form puts in front.
#[tactic(auto, unfolding(crate::specs::Drafts::with_front, crate::specs::Drafts::seen_draft))]
impl Draft {
    fn put_head(&mut self, alloc: Global, line: HeadLine) -> Result<(), AllocError>
        ensures { OnOk result ((scope : Scopes) → PutsAny scope (lines.Head line) self.old self.new) }
    {
        self.close(alloc);
        let HeadLine { name, version } = line;
        self.name = name;
        self.version = version.unwrap_or(0);
        Ok(())
    }

    fn put_use(&mut self, scope: &Scope, name: &Word) -> Result<(), AllocError>
        ensures { OnOk result (PutsAny scope.now (lines.Uses name.now) self.old self.new) }
    {
        let dependency = place_of(&scope.dependencies.all, name)?;
        let net = place_of(&scope.dependencies.nets, name)?;
        self.uses.push_option(dependency)?;
        self.used_nets.push_option(net)?;
        Ok(())
    }

    fn put_text(&mut self, alloc: Global, scope: &Scope, text: &Word) -> Result<(), AllocError>
        ensures { OnOk result (PutsAny scope.now (lines.Text text.now) self.old self.new) }
    {
        let text = number_near(&scope.declared.texts, text, self.below.next_text())?;
        let uses = self.take_uses(alloc);
        self.below.texts.push_front(TextValue { text, uses })?;
        Ok(())
    }

    fn put_numbers(&mut self, alloc: Global, line: IntervalLine) -> Result<(), AllocError>
        ensures { OnOk result ((scope : Scopes) → PutsAny scope (lines.Interval line) self.old self.new) }
    {
        let uses = self.take_uses(alloc);
        self.below.numbers.push_option(entry_in(line, uses))?;
        Ok(())
    }

    fn put_member(&mut self, alloc: Global, scope: &Scope, name: &Word) -> Result<(), AllocError>
        ensures { OnOk result (PutsAny scope.now (lines.Has name.now) self.old self.new) }
    {
        let member = number_of(&scope.declared.characteristics, name)?;
        let _uses = self.take_uses(alloc);
        self.below.members.push_front(member)?;
        Ok(())
    }

    fn put_column(
        &mut self,
        alloc: Global,
        scope: &Scope,
        line: &ColumnLine,
    ) -> Result<(), AllocError>
        ensures { OnOk result (PutsAny scope.now (lines.Column line.now) self.old self.new) }
    {
        let characteristic = number_of(&scope.declared.characteristics, &line.characteristic)?;
        let _uses = self.take_uses(alloc);
        self.below.columns.push_front(TableColumn {
            characteristic,
            key: line.key,
        })?;
        Ok(())
    }

    fn put_item(
        &mut self,
        alloc: Global,
        scope: &Scope,
        number: u32,
        line: BillLine,
        read: Option<Reading>,
    ) -> Result<(), AllocError>
        ensures { OnOk result
            (Puts scope.now number (option_map seen_reading read) (lines.Bill line) self.old self.new) }
    {
        let BillLine {
            item,
            material,
            unit,
            quantity: _quantity,
        } = line;
        let component = component_of(&scope.declared.objects, material)?;
        let uses = self.take_uses(alloc);
        if let Some(quantity) = term_read(read) {
            self.below.items.push_front(BillItem {
                item: item.unwrap_or(0),
                component,
                unit,
                quantity,
                uses,
                line: number,
            })?;
        }
        Ok(())
    }

    fn put_operation(
        &mut self,
        alloc: Global,
        number: u32,
        line: OperationLine,
        read: Option<Reading>,
    ) -> Result<(), AllocError>
        ensures { OnOk result ((scope : Scopes)
            → Puts scope number (option_map seen_reading read) (lines.Operation line) self.old self.new) }
    {
        let OperationLine {
            number: operation,
            centre,
            unit,
            time: _time,
        } = line;
        let uses = self.take_uses(alloc);
        if let Some(time) = term_read(read) {
            self.below.operations.push_front(Operation {
                number: operation.unwrap_or(0),
                centre,
                unit,
                time,
                uses,
                line: number,
            })?;
        }
        Ok(())
    }

    fn put_char(&mut self, alloc: Global, line: CharLine) -> Result<(), AllocError>
        ensures { OnOk result ((scope : Scopes) → PutsAny scope (lines.Char line) self.old self.new) }
    {
        let uses = self.take_uses(alloc);
        let below = self.take_below(alloc);
        let CharLine {
            name,
            length,
            restrictable,
            required,
            multiple,
        } = line;
        let values = texts_of(length.unwrap_or(0), multiple, below);
        self.characteristics.push_front(Characteristic {
            name,
            restrictable,
            required,
            uses,
            values,
        })?;
        Ok(())
    }

    fn put_num(&mut self, alloc: Global, line: NumLine) -> Result<(), AllocError>
        ensures { OnOk result ((scope : Scopes) → PutsAny scope (lines.Num line) self.old self.new) }
    {
        let uses = self.take_uses(alloc);
        let below = self.take_below(alloc);
        let NumLine {
            name,
            decimals,
            restrictable,
            required,
            unit,
        } = line;
        let values = numbers_of(decimals.unwrap_or(0), unit, below);
        self.characteristics.push_front(Characteristic {
            name,
            restrictable,
            required,
            uses,
            values,
        })?;
        Ok(())
    }

    fn put_class(&mut self, alloc: Global, name: Word) -> Result<(), AllocError>
        ensures { OnOk result ((scope : Scopes) → PutsAny scope (lines.Class name) self.old self.new) }
    {
        let _uses = self.take_uses(alloc);
        let members = self.take_below(alloc).members.into_listed();
        self.classes.push_front(Class { name, members })?;
        Ok(())
    }

    fn put_table(&mut self, alloc: Global, line: TableLine) -> Result<(), AllocError>
        ensures { OnOk result ((scope : Scopes) → PutsAny scope (lines.Table line) self.old self.new) }
    {
        let _uses = self.take_uses(alloc);
        let columns = self.take_below(alloc).columns.into_listed();
        let TableLine { name, file } = line;
        self.tables.push_front(Table {
            name,
            file,
            columns,
        })?;
        Ok(())
    }

    fn put_block(
        &mut self,
        alloc: Global,
        number: u32,
        line: BlockLine,
        read: Option<Reading>,
    ) -> Result<(), AllocError>
        ensures { OnOk result ((scope : Scopes)
            → Puts scope number (option_map seen_reading read) (lines.Block line) self.old self.new) }
    {
        self.close(alloc);
        let BlockLine { kind: _, name } = line;
        if let Some(tree) = dependency_read(read) {
            self.dependencies.push_front(NamedDependency {
                name,
                tree,
                line: number,
            })?;
        }
        Ok(())
    }

    fn put_net(&mut self, alloc: Global, name: Word) -> Result<(), AllocError>
        ensures { OnOk result ((scope : Scopes) → PutsAny scope (lines.Net name) self.old self.new) }
    {
        let constraints = self.take_uses(alloc);
        let _below = self.take_below(alloc);
        self.nets.push_front(Net { name, constraints })?;
        Ok(())
    }

    fn put_object(
        &mut self,
        alloc: Global,
        scope: &Scope,
        line: ObjectLine,
    ) -> Result<(), AllocError>
        ensures { OnOk result (PutsAny scope.now (lines.Object line) self.old self.new) }
    {
        let class = number_of(&scope.declared.classes, &line.class)?;
        let nets = self.take_nets(alloc);
        let procedures = self.take_uses(alloc);
        let (bill, operations) = items_of(self.take_below(alloc));
        let ObjectLine {
            material,
            class: _class,
        } = line;
        self.objects.push_front(Object {
            material,
            class,
            nets,
            procedures,
            bill,
            operations,
        })?;
        Ok(())
    }

    fn put_root(&mut self, alloc: Global, scope: &Scope, material: &Word) -> Result<(), AllocError>
        ensures { OnOk result (PutsAny scope.now (lines.Root material.now) self.old self.new) }
    {
        self.root = number_of(&scope.declared.objects, material)?;
        self.close(alloc);
        Ok(())
    }

    // A line that says nothing changes nothing.
    fn pass_over(&mut self) -> Result<(), AllocError>
        ensures skipped { OnOk result ((scope : Scopes) → PutsAny scope lines.Skipped self.old self.new) }
        ensures inner { OnOk result ((scope : Scopes) → PutsAny scope lines.LongInner self.old self.new) }
        ensures end { OnOk result ((scope : Scopes) → PutsAny scope lines.End self.old self.new) }
    {
        Ok(())
    }

    fn pass_inner(&mut self, _text: Word) -> Result<(), AllocError>
        ensures { OnOk result ((scope : Scopes) → PutsAny scope (lines.Inner _text) self.old self.new) }
    {
        Ok(())
    }

    // A line of no form ends what is open.
    fn put_faulty(&mut self, alloc: Global) -> Result<(), AllocError>
        ensures long { OnOk result ((scope : Scopes) (keyword : Option Keywords)
            → PutsAny scope (lines.TooLong keyword) self.old self.new) }
        ensures formless { OnOk result ((scope : Scopes) (keyword : Option Keywords)
            → PutsAny scope (lines.NoForm keyword) self.old self.new) }
        ensures action { OnOk result ((scope : Scopes) → PutsAny scope lines.Action self.old self.new) }
    {
        self.close(alloc);
        Ok(())
    }
}

impl Draft {
    // Puts a line of this number in front, with what it reads.
    fn put(
        &mut self,
        alloc: Global,
        scope: &Scope,
        number: u32,
        line: Line,
        read: &mut Option<Reading>,
    ) -> Result<(), AllocError>
        ensures { OnOk result
            (Puts scope.now number (option_map seen_reading read.old) line self.old self.new) }
    {
        match line {
            Line::Skipped => self.pass_over(),
            Line::LongInner => self.pass_over(),
            Line::End => self.pass_over(),
            Line::Inner(text) => self.pass_inner(text),
            Line::Head(line) => self.put_head(alloc, line),
            Line::Char(line) => self.put_char(alloc, line),
            Line::Num(line) => self.put_num(alloc, line),
            Line::Text(text) => self.put_text(alloc, scope, &text),
            Line::Interval(line) => self.put_numbers(alloc, line),
            Line::Uses(name) => self.put_use(scope, &name),
            Line::Class(name) => self.put_class(alloc, name),
            Line::Has(name) => self.put_member(alloc, scope, &name),
            Line::Table(line) => self.put_table(alloc, line),
            Line::Column(line) => self.put_column(alloc, scope, &line),
            Line::Net(name) => self.put_net(alloc, name),
            Line::Object(line) => self.put_object(alloc, scope, line),
            Line::Bill(line) => self.put_item(alloc, scope, number, line, read.take()),
            Line::Operation(line) => self.put_operation(alloc, number, line, read.take()),
            Line::Block(line) => self.put_block(alloc, number, line, read.take()),
            Line::Root(material) => self.put_root(alloc, scope, &material),
            Line::TooLong(_) => self.put_faulty(alloc),
            Line::NoForm(_) => self.put_faulty(alloc),
            Line::Action => self.put_faulty(alloc),
        }
    }

    /// The model, with the texts of its values.
    #[tactic(auto, unfolding(crate::specs::Drafts::seen_draft))]
    pub fn into_model(self, texts: Listed<Word>) -> Model
        ensures { seen_model result ≡ drafts.model_in texts (drafts.seen_draft self) }
    {
        let Draft {
            name,
            version,
            root,
            uses: _uses,
            used_nets: _used_nets,
            below: _below,
            characteristics,
            classes,
            tables,
            dependencies,
            nets,
            objects,
        } = self;
        Model {
            name,
            version,
            characteristics: characteristics.into_listed(),
            texts,
            classes: classes.into_listed(),
            tables: tables.into_listed(),
            dependencies: dependencies.into_listed(),
            nets: nets.into_listed(),
            objects: objects.into_listed(),
            root,
        }
    }
}

fn entry_in(line: IntervalLine, uses: Listed<u32>) -> Option<NumberValue>
    ensures { result ≡ option_map (λ entry. record { low = entry.low; high = entry.high; uses = uses })
        (entry_within line.low line.high) }
{
    match line.low {
        Some(low) => match line.high {
            Some(high) => Some(NumberValue { low, high, uses }),
            None => None,
        },
        None => None,
    }
}

fn texts_of(length: u8, multiple: bool, below: Below) -> Values
    ensures { result ≡ Values.Texts length multiple below.texts }
{
    Values::Texts {
        length,
        multiple,
        values: below.texts.into_listed(),
    }
}

fn numbers_of(decimals: u8, unit: Option<Word>, below: Below) -> Values
    ensures { result ≡ Values.Numbers decimals unit below.numbers }
{
    Values::Numbers {
        decimals,
        unit,
        values: below.numbers.into_listed(),
    }
}

fn items_of(below: Below) -> (Listed<BillItem>, Listed<Operation>)
    ensures items { result.0 ≡ below.items }
    ensures operations { result.1 ≡ below.operations }
{
    (below.items.into_listed(), below.operations.into_listed())
}

// The dependency that a block is read as, if it is one.
#[tactic(auto, unfolding(vc_model_faults::specs::Readings::seen_reading))]
fn dependency_read(read: Option<Reading>) -> Option<Dependency>
    ensures { option_map dependency_of result ≡ dependency_read (option_map seen_reading read) }
{
    match read {
        Some(Reading::Dependency(tree)) => Some(tree),
        Some(Reading::Term(_term)) => None,
        Some(Reading::Unread) => None,
        None => None,
    }
}

// The term that a line is read as, if it is one.
#[tactic(auto, unfolding(vc_model_faults::specs::Readings::seen_reading))]
fn term_read(read: Option<Reading>) -> Option<Box<Term>>
    ensures { option_map (λ term. term_of term.value) result ≡ term_read (option_map seen_reading read) }
{
    match read {
        Some(Reading::Term(term)) => Some(term),
        Some(Reading::Dependency(_tree)) => None,
        Some(Reading::Unread) => None,
        None => None,
    }
}

// Takes what the line reads, which is the last of the list where it reads something.
#[tactic(auto, unfolding(vc_model_faults::specs::Readings::reading))]
fn take_reading(line: &Line, readings: &mut Listed<Reading>) -> Option<Reading>
    ensures { (before : List Readings) (below : List Lines)
        → seen_readings readings.old ≡ before ++ option_to_list (reading line.now below)
        → (seen_readings readings.new ≡ before) × (option_map seen_reading result ≡ reading line.now below) }
{
    match line {
        Line::Block(_) | Line::Bill(_) | Line::Operation(_) => pop_reading(readings),
        _ => None,
    }
}

// The last of the list.
fn pop_reading(readings: &mut Listed<Reading>) -> Option<Reading>
    ensures { (before : List Readings) (read : Readings) → seen_readings readings.old ≡ before ++ read ∷ []
        → (seen_readings readings.new ≡ before) × (option_map seen_reading result ≡ Some read) }
{
    match readings.pop() {
        Some(read) => Some(read),
        None => None,
    }
}

// Puts a line of this number in front of the draft, with what it reads, which is the last of the readings.
fn put_line(
    alloc: Global,
    scope: &Scope,
    number: u32,
    line: Line,
    readings: &mut Listed<Reading>,
    draft: &mut Draft,
) -> Result<(), AllocError>
    ensures { OnOk result ((before : List Readings) (below : List Lines)
        → seen_readings readings.old ≡ before ++ option_to_list (reading line below)
        → (seen_readings readings.new ≡ before)
        × Puts scope.now number (reading line below) line draft.old draft.new) }
{
    let mut read = take_reading(&line, readings);
    let result = draft.put(alloc, scope, number, line, &mut read);
    // By a call, as a drop at the end splits each goal by what the reading may be.
    drop(read);
    result
}

// Puts all lines that count in front of the draft, from the last to the first.
fn gather(
    alloc: Global,
    scope: &Scope,
    text: &[u8],
    places: &mut Listed<Place>,
    readings: &mut Listed<Reading>,
    draft: &mut Draft,
) -> Result<(), AllocError>
    requires places { Kept (backwards [] (lines_of text.now)) (seen_places text.now places.old) }
    requires readings { seen_readings readings.old ≡ readings_of (backwards [] (lines_of text.now)) [] }
    requires draft { (number : ℕ) → drafts.seen_draft draft.old ≡ drafts.draft_of scope.now number [] }
    ensures { OnOk result (drafts.seen_draft draft.new ≡ drafts.draft_of scope.now 1 (lines_of text.now)) }
{
    'lines: while let Some(place) = places.pop() {
        let line = place.read(alloc, text)?;
        put_line(alloc, scope, place.number, line, readings, draft)?;
    }
    Ok(())
}

/// What the lines of the text say, whose scope, readings and places are given.
pub fn draft_lines(
    alloc: Global,
    scope: &Scope,
    text: &[u8],
    places: Listed<Place>,
    readings: Listed<Reading>,
) -> Result<Draft, AllocError>
    requires places { Kept (backwards [] (lines_of text.now)) (seen_places text.now places) }
    requires readings { seen_readings readings ≡ readings_of (backwards [] (lines_of text.now)) [] }
    ensures { IfOk result (λ draft. drafts.seen_draft draft ≡ drafts.draft_of scope.now 1 (lines_of text.now)) }
{
    let mut draft = Draft::new(alloc);
    let mut places = places;
    let mut readings = readings;
    gather(alloc, scope, text, &mut places, &mut readings, &mut draft)?;
    Ok(draft)
}

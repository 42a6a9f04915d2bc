//! The trees of dependencies. A leaf keeps the first byte of its token and the byte after its last.
#![tactic(auto)]

pub mod apart;
pub mod short_word;

pub use apart::Apart;
pub use short_word::ShortWord;
use vc_value::{Dec, Listed};

/// A name in upper case; of a variable, without `?`.
#[derive(Debug, Drop)]
pub struct NameLeaf {
    pub name: ShortWord,
    pub start: u32,
    pub end: u32,
}

/// A text without its quotes.
#[derive(Debug, Drop)]
pub struct TextLeaf {
    pub text: ShortWord,
    pub start: u32,
    pub end: u32,
}

/// A number without a sign.
#[derive(Clone, Copy, Debug, PartialEq, Eq)]
pub struct NumberLeaf {
    pub number: Dec,
    pub start: u32,
    pub end: u32,
}

/// Whose characteristic is meant: `$SELF`, `$PARENT` or `$ROOT`.
#[derive(Clone, Copy, Debug, PartialEq, Eq)]
pub enum Owner {
    Itself,
    Parent,
    Root,
}

/// What stands for a value.
#[derive(Debug, Drop)]
pub enum Operand {
    /// A characteristic by its name alone.
    Plain(NameLeaf),
    /// `$SELF.C`, `$PARENT.C` or `$ROOT.C`.
    Owned(Owner, NameLeaf),
    /// `?X.C`: a characteristic of a variable's object.
    Member(Apart<NameLeaf>, NameLeaf),
    /// `?V`: a variable of a WHERE.
    Variable(NameLeaf),
}

/// What joins two terms.
#[derive(Clone, Copy, Debug, PartialEq, Eq)]
pub enum Operator {
    Plus,
    Minus,
    Times,
    Over,
}

/// A function of one number.
#[derive(Clone, Copy, Debug, PartialEq, Eq)]
pub enum Function {
    Abs,
    Sign,
    Trunc,
    Floor,
    Ceil,
    Frac,
}

/// A term. Parentheses leave no trace in it.
#[derive(Debug, Drop)]
pub enum Term {
    Number(NumberLeaf),
    Text(TextLeaf),
    Operand(Operand),
    /// `- T`.
    Negated(Box<Term>),
    Combined(Box<Term>, Operator, Box<Term>),
    Applied(Function, Box<Term>),
    /// `$SUM_PARTS ( $SELF , C )`.
    SumOfParts(NameLeaf),
    /// `$COUNT_PARTS ( $SELF )`.
    CountOfParts,
}

/// What relates two terms.
#[derive(Clone, Copy, Debug, PartialEq, Eq)]
pub enum Relator {
    Equal,
    Unequal,
    Less,
    LessEqual,
    Greater,
    GreaterEqual,
}

/// A number with an optional minus.
#[derive(Clone, Copy, Debug, PartialEq, Eq)]
pub struct SignedNumber {
    pub negative: bool,
    pub leaf: NumberLeaf,
}

/// What stands in a list behind IN.
#[derive(Debug, Drop)]
pub enum Item {
    Text(TextLeaf),
    Number(SignedNumber),
    /// All numbers from the first to the second.
    Interval(SignedNumber, SignedNumber),
}

/// A relation.
#[derive(Debug, Drop)]
pub enum Relation {
    Compared(Box<Term>, Relator, Box<Term>),
    /// `A IN ( 'X' , 1 - 5 )`.
    Within(Apart<Operand>, Listed<Item>),
}

/// A condition.
#[derive(Debug, Drop)]
pub enum Condition {
    Or(Box<Condition>, Box<Condition>),
    And(Box<Condition>, Box<Condition>),
    Not(Box<Condition>),
    Relation(Relation),
    /// `SPECIFIED A`, and `A SPECIFIED` too.
    Specified(Operand),
    /// `PART_OF ( ?X , ?Y )`.
    PartOf(Apart<NameLeaf>, NameLeaf),
}

/// `column = term` in a TABLE.
#[derive(Debug, Drop)]
pub struct Binding {
    pub column: NameLeaf,
    pub value: Box<Term>,
}

/// `TABLE T ( A = .. , B = .. )`.
#[derive(Debug, Drop)]
pub struct TableCall {
    pub table: NameLeaf,
    pub bindings: Listed<Binding>,
}

/// What a statement of a procedure does.
#[derive(Debug, Drop)]
pub enum Action {
    /// `$SELF.C = term`.
    Assign(NameLeaf, Box<Term>),
    SetDefault(NameLeaf, Box<Term>),
    DelDefault(NameLeaf, Box<Term>),
    Table(Apart<TableCall>),
}

/// A statement of a procedure, with its IF.
#[derive(Debug, Drop)]
pub struct Statement {
    pub action: Action,
    pub condition: Option<Box<Condition>>,
}

/// What a constraint demands.
#[derive(Debug, Drop)]
pub enum Demand {
    Relation(Relation),
    Table(Apart<TableCall>),
    False,
}

/// A demand of a constraint, with its IF.
#[derive(Debug, Drop)]
pub struct Restriction {
    pub demand: Demand,
    pub condition: Option<Box<Condition>>,
}

/// What an object of a constraint is.
#[derive(Debug, Drop)]
pub enum ObjectKind {
    /// `IS_A ( 300 ) C`: an object of the class.
    Class(NameLeaf),
    /// `IS_OBJECT ( MATERIAL ) ( 300 ) ( NR = 'M' )`: the material.
    Material(TextLeaf),
}

/// `?V = C` in a WHERE: the variable that stands for the object's characteristic.
#[derive(Debug, Drop)]
pub struct Alias {
    pub variable: NameLeaf,
    pub characteristic: NameLeaf,
}

/// An object of a constraint.
#[derive(Debug, Drop)]
pub struct Object {
    pub variable: NameLeaf,
    pub kind: ObjectKind,
    pub aliases: Listed<Alias>,
}

/// A constraint. It infers nothing where it has no INFERENCES.
#[derive(Debug, Drop)]
pub struct Constraint {
    pub objects: Listed<Object>,
    pub condition: Option<Box<Condition>>,
    pub restrictions: Listed<Restriction>,
    pub inferences: Listed<Operand>,
}

/// A dependency of some kind.
#[derive(Debug, Drop)]
pub enum Dependency {
    Precondition(Box<Condition>),
    Selection(Box<Condition>),
    Procedure(Listed<Statement>),
    Constraint(Constraint),
    Term(Box<Term>),
}

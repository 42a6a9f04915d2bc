//! What a line stands under.

ghost use Rattle.std.specs.Prelude.{◌≡◌};
ghost use Rattle.vc_model_scope.specs.Stands as stands;

use vc_model_lines::Line;

/// The line that values, members, columns and lines of a bill belong to.
#[derive(Clone, Copy, Debug, PartialEq, Eq)]
pub enum Under {
    /// None of the following.
    Nothing,
    /// A CHAR with its length, if it is a length.
    Char(Option<u8>),
    /// A NUM with its decimals, if they are decimals.
    Num(Option<u8>),
    Class,
    Table,
    Object,
}

/// What a USES is for.
#[derive(Clone, Copy, Debug, PartialEq, Eq)]
pub enum UsesPlace {
    /// None of the following.
    Nowhere,
    /// A CHAR or NUM.
    Characteristic,
    Value,
    /// A LINE or OPERATION.
    Item,
    Net,
    Object,
}

/// What lines below belong to from this line on, unless it leaves that as it was.
pub fn under_at(line: &Line) -> Option<Under>
    ensures { result ≡ stands.under_at line.now }
{
    match line {
        Line::Skipped
        | Line::Inner(_)
        | Line::LongInner
        | Line::End
        | Line::Text(_)
        | Line::Interval(_)
        | Line::Uses(_)
        | Line::Has(_)
        | Line::Column(_)
        | Line::Bill(_)
        | Line::Operation(_) => None,
        Line::Char(line) => Some(Under::Char(line.length)),
        Line::Num(line) => Some(Under::Num(line.decimals)),
        Line::Class(_) => Some(Under::Class),
        Line::Table(_) => Some(Under::Table),
        Line::Object(_) => Some(Under::Object),
        _ => Some(Under::Nothing),
    }
}

/// What a USES below is for from this line on, unless it leaves that as it was.
pub fn uses_place_at(line: &Line) -> Option<UsesPlace>
    ensures { result ≡ stands.uses_place_at line.now }
{
    match line {
        Line::Skipped | Line::Inner(_) | Line::LongInner | Line::End | Line::Uses(_) => None,
        Line::Char(_) | Line::Num(_) => Some(UsesPlace::Characteristic),
        Line::Text(_) | Line::Interval(_) => Some(UsesPlace::Value),
        Line::Bill(_) | Line::Operation(_) => Some(UsesPlace::Item),
        Line::Net(_) => Some(UsesPlace::Net),
        Line::Object(_) => Some(UsesPlace::Object),
        _ => Some(UsesPlace::Nowhere),
    }
}

/// Whether the line counts: it is no comment, not empty and not in a block.
pub fn counts(line: &Line) -> bool
    ensures { result ≡ stands.counts line.now }
{
    match line {
        Line::Skipped | Line::Inner(_) | Line::LongInner | Line::End => false,
        _ => true,
    }
}

/// Whether the line is the head.
pub fn is_head(line: &Line) -> bool
    ensures { result ≡ stands.is_head line.now }
{
    match line {
        Line::Head(_) => true,
        _ => false,
    }
}

/// Whether the line names the root.
pub fn is_root(line: &Line) -> bool
    ensures { result ≡ stands.is_root line.now }
{
    match line {
        Line::Root(_) => true,
        _ => false,
    }
}

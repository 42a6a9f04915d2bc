//! How values and grains are spelled.

use vc_value::{Dec, Word};

/// What stands for a value or a grain.
#[derive(Debug, Drop)]
pub enum Spelling {
    /// A text that stood in quotes.
    Text(Word),
    /// A number.
    Number(Dec),
    /// The ends of a grain of more numbers than one.
    Ends(Dec, Dec),
}

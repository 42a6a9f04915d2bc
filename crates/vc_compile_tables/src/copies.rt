//! Words and lists that a plan has of its own.

ghost use Rattle.std.specs.Prelude.{◌≡◌, map, IfOk};

use std::alloc::{AllocError, Global};
use vc_model_parts::NamedDependency;
use vc_value::{Listed, Word};

/// A word of its own with the same bytes.
pub fn copy_word(alloc: Global, word: &Word) -> Result<Word, AllocError>
    ensures { IfOk result (λ copy. copy ≡ word.now) }
{
    Word::from_bytes(alloc, word.bytes())
}

/// A list of its own with the same elements.
pub fn copy_list<T: Copy>(alloc: Global, list: &[T]) -> Result<Listed<T>, AllocError>
    ensures { IfOk result (λ copy. copy ≡ list.now) }
{
    Ok(Listed::from_vec(Vec::from_slice(alloc, list)?))
}

/// The names of dependencies, in order.
pub fn dependency_names(
    alloc: Global,
    dependencies: &[NamedDependency],
) -> Result<Listed<Word>, AllocError>
    ensures { IfOk result (λ names. names ≡ map (λ dependency. dependency.name) dependencies.now) }
{
    let mut names = Listed::new(alloc);
    for dependency in dependencies {
        names.push(copy_word(alloc, &dependency.name)?)?;
    }
    Ok(names)
}

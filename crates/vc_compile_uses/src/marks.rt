//! Marks of dependencies by their numbers.

ghost use Rattle.std.specs.Prelude.{◌≡◌, ◌∷◌, [], false, map, IfOk};
ghost use Rattle.vc_compile_uses.specs.Marks.{mark_all, marked_from};

use std::alloc::{AllocError, Global};
use vc_model_parts::NamedDependency;
use vc_value::Listed;

/// A mark for each dependency, none of which is marked.
pub fn unmarked(alloc: Global, dependencies: &[NamedDependency]) -> Result<Listed<bool>, AllocError>
    ensures { IfOk result (λ marks. marks ≡ map (λ d. false) dependencies.now) }
{
    let mut marks = Listed::new(alloc);
    for _dependency in dependencies {
        marks.push(false)?;
    }
    Ok(marks)
}

fn mark(marks: &mut Listed<bool>, number: u32)
    ensures { marks.new ≡ mark_all marks.old (number ∷ []) }
{
    let place = number as usize;
    if place < marks.len() {
        marks.set(place, true);
    }
}

/// Marks these numbers. One that is of no dependency marks nothing.
pub fn mark_numbers(marks: &mut Listed<bool>, numbers: &[u32])
    ensures { marks.new ≡ mark_all marks.old numbers.now }
{
    for number in numbers {
        mark(marks, *number);
    }
}

/// The numbers that are marked.
pub fn marked_numbers(alloc: Global, marks: &[bool]) -> Result<Listed<u32>, AllocError>
    ensures { IfOk result (λ numbers. numbers ≡ marked_from 0 marks.now) }
{
    if marks.len() > u32::MAX as usize {
        return Err(AllocError);
    }
    let mut numbers = Listed::new(alloc);
    for (number, marked) in marks.iter().enumerate() {
        if *marked {
            numbers.push(number as u32)?;
        }
    }
    Ok(numbers)
}

//! Elements of lists by their numbers.

ghost use Rattle.std.specs.Prelude.{◌≡◌, slice_get, IfNone, IfSome, Some, None};

/// The element of this number, if the list has it.
pub fn element<T>(list: &[T], number: u32) -> Option<&T>
    ensures some { IfSome result (λ x. slice_get list.now number ≡ Some x.now) }
    ensures none { IfNone result (slice_get list.now number ≡ None) }
{
    list.get(number as usize)
}

//! Laws of saved texts, each the contract of a function that does nothing.

ghost use Rattle.vc_store.specs.Laws.{ReadMayBeChosen, SavedIsRead};

use vc_desk_names::laws::listed_may_be_given;
use vc_store_forms::laws::{form_is_read, form_is_utf8};

/// What a session's user chose is read, as it was, from the text that it is saved as.
pub fn saved_is_read()
    ensures { SavedIsRead }
{
    form_is_read();
    form_is_utf8();
}

/// What is read of any text is of the plan: a value of each variable's list, or texts of each set's.
pub fn read_may_be_chosen()
    ensures { ReadMayBeChosen }
{
    listed_may_be_given();
}

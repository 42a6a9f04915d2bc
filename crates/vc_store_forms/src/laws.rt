//! Laws of the saved form, each the contract of a function that does nothing.

ghost use Rattle.vc_store_forms.specs.Laws.{FormIsRead, FormIsUtf8};

/// What is written is read again, as it was.
pub fn form_is_read()
    ensures { FormIsRead }
{}

/// The text is UTF-8, where its words are.
pub fn form_is_utf8()
    ensures { FormIsUtf8 }
{}

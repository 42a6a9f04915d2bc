//! Laws of messages, each the contract of a function that does nothing.

ghost use Rattle.vc_http_messages.specs.Laws.{CutsDontMatter, OneMessage};

/// Bytes spell one message.
pub fn one_message()
    ensures { OneMessage }
{}

/// A message that bytes spell is the same whatever bytes follow.
pub fn cuts_do_not_matter()
    ensures { CutsDontMatter }
{}

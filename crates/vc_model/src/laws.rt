//! A law of model texts, as a call's contract.

ghost use Rattle.std.specs.Prelude.{◌↔◌};
ghost use Rattle.vc_model.specs.Spelled.{HasFault, SpellsNone};

/// Every text has a fault exactly where it spells no model.
pub fn a_text_has_a_fault_or_spells_a_model(text: &[u8])
    ensures { HasFault text.now ↔ SpellsNone text.now }
{
    let _text = text;
}

//! Laws of the models that texts spell, each the contract of a function that does nothing.

ghost use Rattle.vc_model_laws.specs.Components.{KeepsComponents};
ghost use Rattle.vc_model_laws.specs.Headers.{KeepsHeaders};
ghost use Rattle.vc_model_laws.specs.Indices.{KeepsIndices};
ghost use Rattle.vc_model_laws.specs.Keeps.{Keeps};
ghost use Rattle.vc_model_laws.specs.Kinds.{KeepsKinds};
ghost use Rattle.vc_model_laws.specs.Laws.{SpelledKeeps};
ghost use Rattle.vc_model_laws.specs.Limits.{KeepsLimits};
ghost use Rattle.vc_model_laws.specs.Lists.{KeepsLists};
ghost use Rattle.vc_model_laws.specs.Names.{KeepsNames};
ghost use Rattle.vc_model_laws.specs.Numbers.{KeepsNumbers};
ghost use Rattle.vc_model_laws.specs.Rows.{ReadRowsAreKept};
ghost use Rattle.vc_model_laws.specs.Texts.{KeepsTexts};

/// In each model that some text spells the names, materials and units are spelled, in upper case, and of each kind a
/// name stands once.
pub fn spelled_models_keep_names()
    ensures { SpelledKeeps KeepsNames }
{}

/// There are no more things of a kind in it than a text may have, and its counts are those of their forms.
pub fn spelled_models_keep_limits()
    ensures { SpelledKeeps KeepsLimits }
{}

/// Each number in it is that of a thing that it has.
pub fn spelled_models_keep_indices()
    ensures { SpelledKeeps KeepsIndices }
{}

/// In its lists nothing stands twice, and what has an order ascends.
pub fn spelled_models_keep_lists()
    ensures { SpelledKeeps KeepsLists }
{}

/// Its texts are UTF-8 without control characters, and as short as their characteristics ask.
pub fn spelled_models_keep_texts()
    ensures { SpelledKeeps KeepsTexts }
{}

/// Its numbers have at most nine digits before the point and six after it.
pub fn spelled_models_keep_numbers()
    ensures { SpelledKeeps KeepsNumbers }
{}

/// What is used at a place is of a kind that may be used there.
pub fn spelled_models_keep_kinds()
    ensures { SpelledKeeps KeepsKinds }
{}

/// A plain component is the material of no object, and an object that a line of a bill has is the bill's own or stands
/// above it.
pub fn spelled_models_keep_components()
    ensures { SpelledKeeps KeepsComponents }
{}

/// The headers of its tables leave nothing out of it.
pub fn spelled_models_keep_headers()
    ensures { SpelledKeeps KeepsHeaders }
{}

/// All of this at once.
pub fn spelled_models_keep_all()
    ensures { SpelledKeeps Keeps }
{}

/// The rows of a table that is read with its header have a value of its list for each column, they are at most 10,000,
/// and none has the key of one before it, where there is a key.
pub fn read_rows_are_kept()
    ensures { ReadRowsAreKept }
{}

//! Laws of the trees that texts are read as, each the contract of a function that does nothing.

ghost use Rattle.vc_model_laws.specs.Laws.{SpelledKeeps};
ghost use Rattle.vc_tree_laws.specs.Literals.{KeepsLiterals, ReadTextsAreTexts};
ghost use Rattle.vc_tree_laws.specs.Spelled.{KeepsCounts, KeepsTrees};
ghost use Rattle.vc_tree_laws.specs.Statements.{KeepsStatements};

/// Each text that stands in what is read as a dependency has 1 to 30 characters, and is UTF-8 where what is read is.
pub fn read_texts_are_texts()
    ensures { ReadTextsAreTexts }
{}

/// So does each text that stands in a dependency of a model that some text spells.
pub fn spelled_models_keep_literals()
    ensures { SpelledKeeps KeepsLiterals }
{}

/// No procedure of such a model has more statements than a dependency has tokens, and one.
pub fn spelled_models_keep_statements()
    ensures { SpelledKeeps KeepsStatements }
{}

/// What holds of each tree that the grammar has holds of each dependency of such a model.
pub fn spelled_models_keep_trees()
    ensures { SpelledKeeps KeepsTrees }
{}

/// And of the quantity of each of its lines, and the time of each of its operations.
pub fn spelled_models_keep_counts()
    ensures { SpelledKeeps KeepsCounts }
{}

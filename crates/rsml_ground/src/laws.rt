ghost use Rattle.rsml_ground.specs.Laws.{TruthsAreOfPhrases, PhrasesMeanTheText, GuardsMeanTheText};
ghost use Rattle.rsml_ground.specs.Laws.{SumsMeanTheText, FunctionsMeanTheText};

/// Each truth is that of its phrase, by the truths of all phrases.
pub fn truths_are_of_phrases()
    ensures { TruthsAreOfPhrases }
{}

/// A phrase has in every world the truth of the phrase of the text for which it stands.
pub fn phrases_mean_the_text()
    ensures { PhrasesMeanTheText }
{}

/// A guard has in every world the truth of the guard of the text for which it stands.
pub fn guards_mean_the_text()
    ensures { GuardsMeanTheText }
{}

/// A sum has in every world the number of the sum of the text for which it stands.
pub fn sums_mean_the_text()
    ensures { SumsMeanTheText }
{}

/// A function has in every world the values that its instance in the text gives.
pub fn functions_mean_the_text()
    ensures { FunctionsMeanTheText }
{}

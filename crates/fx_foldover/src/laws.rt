//! What the words of a combined plan are.

ghost use Rattle.fx_foldover.specs.Laws.{CombinedPatternIsOfRules, CombinedPlanIsOfRules, CombinedWordsAreEven};
ghost use Rattle.fx_foldover.specs.Laws.{FullFoldHasNoOddCount, FullFoldHasNoOddWord, NoLowerResolution};
ghost use Rattle.fx_foldover.specs.Laws.{NoMoreCombinedWords, OthersAreBalanced};

/// The combined words, which are constant over the combined plan, are exactly the defining words of
/// the design that have an even number of folded factors (`even`). Every other vector over the
/// factors is balanced over it (`balanced`).
pub fn combined_words_are_even()
    ensures even { CombinedWordsAreEven }
    ensures balanced { OthersAreBalanced }
{}

/// After a fold of all factors no combined word has odd weight (`word`): the pattern is 0 at each odd
/// weight (`count`).
pub fn full_fold_has_no_odd_word()
    ensures word { FullFoldHasNoOddWord }
    ensures count { FullFoldHasNoOddCount }
{}

/// The combined plan has no more words of any weight than the design (`words`), so that its resolution
/// is not lower (`resolution`).
pub fn resolution_is_not_lower()
    ensures words { NoMoreCombinedWords }
    ensures resolution { NoLowerResolution }
{}

/// A combined plan is regular: it is the runs of a rule matrix with one run index more, of which a
/// rule has 1 where its factor is folded (`plan`), and its pattern is that of this matrix
/// (`pattern`).
pub fn combined_plan_is_regular()
    ensures plan { CombinedPlanIsOfRules }
    ensures pattern { CombinedPatternIsOfRules }
{}

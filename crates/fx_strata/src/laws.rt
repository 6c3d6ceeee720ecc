ghost use Rattle.std.specs.Prelude.{◌≡◌, ◌<◌, ◌+◌, ℕ, List, IsTrue, true};
ghost use Rattle.fx_designs.specs.Galois.{is_order};
ghost use Rattle.fx_designs.specs.Problems.{Dimensions};
ghost use Rattle.fx_strata.specs.Designs.{Strata, Order};
ghost use Rattle.fx_strata.specs.Orders.{CompareOnce};
ghost use Rattle.fx_strata.specs.Books.{Claim, Entry, is_good};
ghost use Rattle.fx_strata.specs.Spreads.{WordsBySpreads, NewWordsBySpreads};
ghost use Rattle.fx_strata.specs.Laws.{FewerFactors};
ghost use Rattle.fx_strata.specs.Laws.{CanonicalForEvery, CanonicalAreDesigns, DesignsAreTested, EarlierForEach};
ghost use Rattle.fx_strata.specs.Laws.{NoneWithoutRoom, NoneBelow, HasFactors, NoneBetter, LeastOfAll};
ghost use Rattle.fx_strata.specs.Laws.{ClearAreAlone, SameClear, ClearOrNot, ClearByTallies, LiveByTallies};
ghost use Rattle.fx_strata.specs.Laws.{UnclearBelow, IsomorphicAreAlike, AlikeHaveOneKey, IsomorphicAreLeast};
ghost use Rattle.fx_strata.specs.Ordinary.{LessPatternsAreBetter, MatricesAreDesigns};

/// Each named order has each of the words that designs are compared by once, and no other words.
pub fn named_orders_compare_once()
    ensures { (x : Strata) → CompareOnce x }
{}

/// Every design has a canonical one with no more words of any kind and weight, and no fewer clear
/// ones (`suffice`). Canonical ones are designs (`are`), and rows that pass the test are such
/// (`tested`).
pub fn canonical_designs_suffice()
    ensures suffice { (x : Strata) → IsTrue (is_order x.q) → CanonicalForEvery x }
    ensures are { (x : Strata) → IsTrue (is_order x.q) → CanonicalAreDesigns x }
    ensures tested { (x : Strata) → DesignsAreTested x }
{}

/// Where a change of the run indexes takes a prefix to one that precedes it, each design below it
/// has one before it with as many words of each kind and weight, and as many clear ones.
pub fn earlier_images()
    ensures { (x : Strata) → IsTrue (is_order x.q) → EarlierForEach x }
{}

/// A design without its last factors is one of fewer factors, so where there is none of so many there is
/// none of more.
pub fn fewer_factors()
    ensures { (x : Strata) → IsTrue (is_order x.q) → FewerFactors x }
{}

/// No design is below a prefix that too few rows can follow.
pub fn none_without_room()
    ensures { (x : Strata) → IsTrue (is_order x.q) → NoneWithoutRoom x }
{}

/// Where the key of a prefix, or its floor, is not less than another key, no design below the prefix
/// has a key that is less than that one.
pub fn none_below()
    ensures { (x : Strata) (order : Order) → IsTrue (is_order x.q) → NoneBelow x order }
{}

/// What a good book claims is so of every design (`none`). Rows of a canonical design whose key it
/// is about are a design of least key (`least`).
pub fn good_books_prove()
    ensures none { (x : Claim) (entries : List Entry)
        → IsTrue (is_order x.strata.q)
        → HasFactors x.strata
        → 0 < x.strata.w + x.strata.n
        → is_good x entries ≡ true
        → NoneBetter x }
    ensures least { (x : Claim) (entries : List Entry)
        → IsTrue (is_order x.strata.q)
        → HasFactors x.strata
        → 0 < x.strata.w + x.strata.n
        → is_good x entries ≡ true
        → LeastOfAll x }
{}

/// Isomorphic designs have as many words of each kind and weight, and as many clear ones (`alike`), so that they have one
/// key (`key`), and are of least key where one of them is (`least`).
pub fn isomorphic_designs_are_least()
    ensures alike { (x : Strata) → IsTrue (is_order x.q) → IsomorphicAreAlike x }
    ensures key { (x : Strata) (order : Order) → AlikeHaveOneKey x order }
    ensures least { (x : Strata) (order : Order) → IsTrue (is_order x.q) → IsomorphicAreLeast x order }
{}

/// Where the base is zero, what is proved of all designs is proved of all rule matrices that meet
/// resolution 3: none of them has a less pattern (`pattern`), or there is none (`none`).
pub fn rule_matrices_are_ordinary_designs()
    ensures pattern { (d : Dimensions) → IsTrue (is_order d.q) → LessPatternsAreBetter d }
    ensures none { (d : Dimensions) → IsTrue (is_order d.q) → MatricesAreDesigns d }
{}

/// Words are read from two tallies, of the rows and of the rows behind the base (`words`), and so
/// are those that a further row makes (`new`).
pub fn words_by_tallies()
    ensures words { (x : Strata) → IsTrue (is_order x.q) → WordsBySpreads x }
    ensures new { (x : Strata) → IsTrue (is_order x.q) → NewWordsBySpreads x }
{}

/// The words of two factors that are clear are those with which nothing else of one factor or two is
/// aliased (`alone`). Isomorphic designs have as many (`same`). All are clear or not (`all`). Of
/// canonical designs the clear ones are read from the tally of the rows (`tallies`, `live`), and
/// below a prefix so many are not clear (`below`).
pub fn clear_words()
    ensures alone { (x : Strata) → IsTrue (is_order x.q) → ClearAreAlone x }
    ensures same { (x : Strata) → IsTrue (is_order x.q) → SameClear x }
    ensures all { (x : Strata) → IsTrue (is_order x.q) → ClearOrNot x }
    ensures tallies { (x : Strata) → IsTrue (is_order x.q) → ClearByTallies x }
    ensures live { (x : Strata) → IsTrue (is_order x.q) → LiveByTallies x }
    ensures below { (x : Strata) → IsTrue (is_order x.q) → UnclearBelow x }
{}

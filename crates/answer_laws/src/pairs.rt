//! Laws of calls that compare two functions.
ghost use Rattle.answer_laws.specs.Compared.{DifferenceIsReplayed, EqualMeans};
ghost use Rattle.answer_laws.specs.EqualFindings.{EqualIsComplete, OnePairAnswer, OnePairFinding, OnePairPrice, PairFindingIsReported};

/// Functions of which a call wrote that they are equal are equal.
pub fn equal_means()
    ensures { EqualMeans }
{}

/// A difference that a call wrote is replayed by another.
pub fn difference_is_replayed()
    ensures { DifferenceIsReplayed }
{}

/// Two functions have one price.
pub fn one_pair_price()
    ensures { OnePairPrice }
{}

/// Two functions come to one finding within a budget.
pub fn one_pair_finding()
    ensures { OnePairFinding }
{}

/// What two functions come to is what a call reports of them, and nothing else.
pub fn pair_finding_is_reported()
    ensures { PairFindingIsReported }
{}

/// Functions that are equal are said to be.
pub fn equal_is_complete()
    ensures { EqualIsComplete }
{}

/// Two answers to one comparison are the same, but for the runs that they show.
pub fn one_pair_answer()
    ensures { OnePairAnswer }
{}

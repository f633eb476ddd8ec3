//! Laws of links, and of runs and walks of two functions.
ghost use Rattle.pair_spec.specs.ExitPlaces.{ExitIsOwn, ExitPlaceCosts, ExitPlacePairs, ExitPlaceReads, ExitPlaceRooms, ExitPlaceStarts, ExitPlaceTerms, ExitPlaceWalks};
ghost use Rattle.pair_spec.specs.LinkLaws.{LinksCompareAlike, LinksHaveNoFault, OneLinkFault, OneLinks};
ghost use Rattle.pair_spec.specs.PairLaws.{AskingIsFree, DifferenceIsFound, DifferenceReplays, EqualNotDifferent, NotDifferentIsEqual, OneExit, RunHasExit};
ghost use Rattle.pair_spec.specs.PairLayers.{BrokenIsNewInPair, ClausesOfPair, ValuesGivePair};
ghost use Rattle.pair_spec.specs.PairTerms.{ExitIsPlace};

/// A run that has exited did so by the step that it names, in a state.
pub fn run_has_exit()
    ensures { RunHasExit }
{}

/// A run exits in one state, by one step.
pub fn one_exit()
    ensures { OneExit }
{}

/// Equal functions are not different.
pub fn equal_not_different()
    ensures { EqualNotDifferent }
{}

/// Where both sides hold, there is a linked pair, and none exits apart, the functions are equal.
pub fn not_different_is_equal()
    ensures { NotDifferentIsEqual }
{}

/// What is asked for at the exit changes no run, no entry state and no point.
pub fn asking_is_free()
    ensures { AskingIsFree }
{}

/// A walk comes out where the walk of the program with the exit as a place comes to that place.
pub fn exit_is_place()
    ensures { ExitIsPlace }
{}

/// The runs of paired starts that exit apart are found to, whatever the bound on their backward transfers was.
pub fn difference_is_found()
    ensures { DifferenceIsFound }
{}

/// The text of a right difference, whose numbers can be written and which is no longer than texts may be, is replayed.
pub fn difference_replays()
    ensures { DifferenceReplays }
{}

/// A text says one list of links.
pub fn one_links()
    ensures { OneLinks }
{}

/// A text that says links has no fault.
pub fn links_have_no_fault()
    ensures { LinksHaveNoFault }
{}

/// A text has at most one first fault.
pub fn one_link_fault()
    ensures { OneLinkFault }
{}

/// The links of a text compare registers and flags alone.
pub fn links_compare_alike()
    ensures { LinksCompareAlike }
{}

/// The clauses of the cells of both sides are those of the question about both functions.
pub fn clauses_of_pair()
    ensures { ClausesOfPair }
{}

/// The starts of values that satisfy the clauses have runs by which the question about both functions is true.
pub fn values_give_pair()
    ensures { ValuesGivePair }
{}

/// A known byte that satisfying values have not on one of the sides was not asked there.
pub fn broken_is_new_in_pair()
    ensures { BrokenIsNewInPair }
{}

/// The form with the exit as a place can be made terms where the program can.
pub fn exit_place_walks()
    ensures { ExitPlaceWalks }
{}

/// The form costs no more stores, edges and known bytes than the program, and it evaluates no ensure lines.
pub fn exit_place_costs()
    ensures { ExitPlaceCosts }
{}

/// The points of the form have the ensure lines less than those of the program, and the last place more.
pub fn exit_place_rooms()
    ensures { ExitPlaceRooms }
{}

/// The form has the program's inputs, which nodes name and cells read alike.
pub fn exit_place_reads()
    ensures { ExitPlaceReads }
{}

/// Terms of the form have the values that they have as terms of the program.
pub fn exit_place_terms()
    ensures { ExitPlaceTerms }
{}

/// Clauses that tell the cells of both forms tell those of both programs.
pub fn exit_place_pairs()
    ensures { ExitPlacePairs }
{}

/// A program has its own exit where the exit's place counts more backward transfers than its points may have.
pub fn exit_is_own()
    ensures { ExitIsOwn }
{}

/// A start of values for the form is one for the program, but for choices at a step that only the form has.
pub fn exit_place_starts()
    ensures { ExitPlaceStarts }
{}

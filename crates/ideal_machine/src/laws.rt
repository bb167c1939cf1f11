//! What holds of every transition, and worked examples of the transitions and of replies.

ghost use Rattle.ideal_machine.specs.Growth.{EventsOnlyAdd, EventsKeepEnds};
ghost use Rattle.ideal_machine.specs.Regions.{EventsChangeTheirRegion};
ghost use Rattle.ideal_machine.specs.Apart.{IntegersLeaveHalves, HalvesLeaveIntegers};
ghost use Rattle.ideal_machine.specs.Apart.{StaticsAreApart, ObjectsStayApart};
ghost use Rattle.ideal_machine.specs.Inside.{AccessesLieInside, HalvesLieInside};
ghost use Rattle.ideal_machine.specs.Inside.{ChecksAreExact, FreesAreExact};
ghost use Rattle.ideal_machine.specs.Makers.{OnlyRunningThreadsAct, MainComesFirst};
ghost use Rattle.ideal_machine.specs.Makers.{IdsAreOfTheirThread};
ghost use Rattle.ideal_machine.specs.There.{HalvesAreThereFirst, HalvesStayThere};
ghost use Rattle.ideal_machine.specs.There.{AnswersNameObjects};
ghost use Rattle.ideal_machine.specs.Stores.{ObjectsAreWholeFirst, ObjectsStayWhole};
ghost use Rattle.ideal_machine.specs.Stores.{StoredIntegersAreRead, OtherIntegersStay};
ghost use Rattle.ideal_machine.specs.Stores.{StoredHalvesAreFound, OtherHalvesStay};
ghost use Rattle.ideal_machine.specs.Fits.{AllowedAnswersAreReplies, AllowedChecksAreReplies};
ghost use Rattle.ideal_machine.specs.Worked.{MainBegins, OnlyMainBegins, MainBeginsOnce};
ghost use Rattle.ideal_machine.specs.Worked.{EndsOnce, ProgramsEnd};
ghost use Rattle.ideal_machine.specs.Worked.{NoOutBeforeBegin, OutAfterBegin, NoRefusalWithRoom};
ghost use Rattle.ideal_machine.specs.Worked.{RefusalWithoutRoom, NoByteWithoutRoom, InputComesOnce};
ghost use Rattle.ideal_machine.specs.Worked.{SpawnGivesAFreeSlot, NoIdOfAnotherSlot};
ghost use Rattle.ideal_machine.specs.Worked.{SpawnedThreadBegins, ResultIsTakenOnce};
ghost use Rattle.ideal_machine.specs.Worked.{ThreadsEndOnce};
ghost use Rattle.ideal_machine.specs.Worked.{CellIsWantedByPointers, LocksAreCheckedAgain};
ghost use Rattle.ideal_machine.specs.Worked.{FreedIsShown, CoveredIsNotNamed};
ghost use Rattle.ideal_machine.specs.WorkedObjects.{StaticsHaveTheirContents, LiteralsAreReadOnly};
ghost use Rattle.ideal_machine.specs.WorkedObjects.{NewObjectsAreNext, NewObjectsAreZero};
ghost use Rattle.ideal_machine.specs.WorkedObjects.{PointersWithoutObjects, AccessesAreInBounds};
ghost use Rattle.ideal_machine.specs.WorkedObjects.{ChecksAreOfWidths, CellsAreWantedByWrites};
ghost use Rattle.ideal_machine.specs.WorkedObjects.{ObjectsAreFreedOnce, FreedObjectsStay};
ghost use Rattle.ideal_machine.specs.WorkedObjects.{SizesAreOfWholeObjects, NamesAreThere};
ghost use Rattle.ideal_machine.specs.WorkedObjects.{NewObjectsCover, CoveredObjectsAreGone};
ghost use Rattle.ideal_machine.specs.WorkedObjects.{CyclesEndInOrder};
ghost use Rattle.ideal_machine.specs.WorkedWords.{IntegersAreStoredInBytes, AccessesAreInside};
ghost use Rattle.ideal_machine.specs.WorkedWords.{OperationsAreComputedInTheirTypes};
ghost use Rattle.ideal_machine.specs.WorkedWords.{OperationsFitTheirAccess};
ghost use Rattle.ideal_machine.specs.WorkedWords.{RefusedOperationsChangeNothing};
ghost use Rattle.ideal_machine.specs.WorkedWords.{ExchangesCompareTheBytes};
ghost use Rattle.ideal_machine.specs.WorkedWords.{HalvesAreApart, HalvesAreFound};
ghost use Rattle.ideal_machine.specs.WorkedWords.{PairsAreFoundByNumber, HalvesAreExchanged};
ghost use Rattle.ideal_machine.specs.WorkedWords.{LocksAreTakenOnce};
ghost use Rattle.ideal_machine.specs.WorkedWords.{ThreadsBeginWithTheirHalf};
ghost use Rattle.ideal_machine.specs.WorkedWords.{ThreadsBeginWithFreed};

// ---- of every transition

/// Objects and pairs only grow in number. An object stays where it is, with its size and kind, and
/// a freed or covered one stays so.
pub fn events_only_add()
    ensures { EventsOnlyAdd }
{}

/// What only reads changes nothing; an event on objects leaves the threads and the outside, and
/// one of threads or of the outside every object.
pub fn events_change_their_region()
    ensures { EventsChangeTheirRegion }
{}

/// What has ended stays so: the program, and each cycle.
pub fn events_keep_ends()
    ensures { EventsKeepEnds }
{}

/// What writes an integer leaves every half and every pair, and what writes a half every integer.
pub fn halves_and_integers_are_apart()
    ensures integers { IntegersLeaveHalves }
    ensures halves { HalvesLeaveIntegers }
{}

/// Two objects that are neither freed nor covered share no byte: it holds of the static objects,
/// and every event leaves it so.
pub fn objects_in_use_share_no_byte()
    ensures first { StaticsAreApart }
    ensures stay { ObjectsStayApart }
{}

/// The bytes and the word that an allowed event accesses are those of an object that is there.
pub fn accesses_lie_inside_their_objects()
    ensures bytes { AccessesLieInside }
    ensures halves { HalvesLieInside }
{}

/// What a check and a `free` that nothing refuses say of their pointer, and where they come.
pub fn refusals_are_exact()
    ensures checks { ChecksAreExact }
    ensures frees { FreesAreExact }
{}

/// Only a running thread makes events, but for a thread that begins and the collector; and the
/// first thread that begins is that of `main`.
pub fn only_running_threads_act()
    ensures makers { OnlyRunningThreadsAct }
    ensures first { MainComesFirst }
{}

/// An id is that of one thread: of the one that is spawned, and of the one whose result is taken.
pub fn ids_are_of_their_thread()
    ensures { IdsAreOfTheirThread }
{}

/// A half that is kept names an object that is there, and so does one that is found.
pub fn halves_name_objects_that_are_there()
    ensures first { HalvesAreThereFirst }
    ensures stay { HalvesStayThere }
    ensures answers { AnswersNameObjects }
{}

/// Each object has a word for each of its 8 bytes.
pub fn objects_have_their_words()
    ensures first { ObjectsAreWholeFirst }
    ensures stay { ObjectsStayWhole }
{}

/// What was stored is read, and everywhere else what was there before.
pub fn stores_are_read()
    ensures integers { StoredIntegersAreRead }
    ensures other_integers { OtherIntegersStay }
    ensures halves { StoredHalvesAreFound }
    ensures other_halves { OtherHalvesStay }
{}

/// An allowed answer is a reply to its event, so no thread waits for want of one.
pub fn allowed_answers_are_replies()
    ensures events { AllowedAnswersAreReplies }
    ensures checks { AllowedChecksAreReplies }
{}

// ---- worked examples

/// The first memory lets `main` begin, in slot 0 and once.
pub fn main_begins_first()
    ensures main_begins { MainBegins }
    ensures only_main_begins { OnlyMainBegins }
    ensures main_begins_once { MainBeginsOnce }
{}

/// A running thread may end the program, and it doesn't end again.
pub fn a_program_ends_once()
    ensures ends { ProgramsEnd }
    ensures once { EndsOnce }
{}

/// A byte is put out by a thread that has begun and by no other, and is refused exactly where the
/// output has no room.
pub fn bytes_are_put_out_within_the_limit()
    ensures no_out_before_begin { NoOutBeforeBegin }
    ensures out_after_begin { OutAfterBegin }
    ensures no_refusal_with_room { NoRefusalWithRoom }
    ensures refusal_without_room { RefusalWithoutRoom }
    ensures no_byte_without_room { NoByteWithoutRoom }
{}

/// A byte of the input is taken in once, and the end comes after the last.
pub fn input_comes_once()
    ensures { InputComesOnce }
{}

/// A spawned thread gets the id of a free slot and of its generation, begins once, and its result
/// is taken once.
pub fn ids_are_of_their_slots()
    ensures spawn_gives_a_free_slot { SpawnGivesAFreeSlot }
    ensures no_id_of_another_slot { NoIdOfAnotherSlot }
    ensures spawned_thread_begins { SpawnedThreadBegins }
    ensures threads_end_once { ThreadsEndOnce }
    ensures result_is_taken_once { ResultIsTakenOnce }
{}

/// Which reply an answer is hangs on the query: want of a cell, and a lock's check.
pub fn replies_fit_their_queries()
    ensures cell_is_wanted_by_pointers { CellIsWantedByPointers }
    ensures locks_are_checked_again { LocksAreCheckedAgain }
{}

/// Freed stands for the half of a freed object alone, and no event names a covered object.
pub fn names_are_apart()
    ensures freed { FreedIsShown }
    ensures covered { CoveredIsNotNamed }
{}

/// Static objects have their addresses and contents from the first, and a literal is never written.
pub fn statics_are_there_from_the_first()
    ensures contents { StaticsHaveTheirContents }
    ensures read_only { LiteralsAreReadOnly }
{}

/// A new object is the next one, at a multiple of 8, and zero.
pub fn new_objects_are_zero()
    ensures next { NewObjectsAreNext }
    ensures zero { NewObjectsAreZero }
{}

/// A check gives the first reason against an access, and grants what has none.
pub fn checks_give_the_first_reason()
    ensures without_object { PointersWithoutObjects }
    ensures in_bounds { AccessesAreInBounds }
    ensures widths { ChecksAreOfWidths }
    ensures cells { CellsAreWantedByWrites }
{}

/// An object is freed once, by its own address, and stays as it was.
pub fn objects_are_freed_once()
    ensures once { ObjectsAreFreedOnce }
    ensures stays { FreedObjectsStay }
    ensures sizes { SizesAreOfWholeObjects }
    ensures names { NamesAreThere }
{}

/// What a new object lies on can't be named any more, unless it was freed.
pub fn new_objects_cover()
    ensures covers { NewObjectsCover }
    ensures gone { CoveredObjectsAreGone }
{}

/// The collector's cycles end one after another.
pub fn cycles_end_in_order()
    ensures { CyclesEndInOrder }
{}

/// An integer is stored in bytes, the lowest first.
pub fn integers_are_stored_in_bytes()
    ensures bytes { IntegersAreStoredInBytes }
    ensures inside { AccessesAreInside }
{}

/// An operation is computed in its types, and one without a result changes nothing.
#[tactic(auto, unfolding(filc_num::specs::Integers::convert_of, filc_num::specs::Integers::binary_of))]
pub fn operations_are_computed_in_their_types()
    ensures types { OperationsAreComputedInTheirTypes }
    ensures fits { OperationsFitTheirAccess }
    ensures refused { RefusedOperationsChangeNothing }
    ensures exchanges { ExchangesCompareTheBytes }
{}

/// A half is stored beside its integer; a pair is found by its number.
pub fn halves_are_stored_beside_integers()
    ensures apart { HalvesAreApart }
    ensures found { HalvesAreFound }
    ensures pairs { PairsAreFoundByNumber }
    ensures exchanges { HalvesAreExchanged }
{}

/// A lock is taken where it is 0, and a thread begins with the half that it was started with.
pub fn locks_and_threads()
    ensures locks { LocksAreTakenOnce }
    ensures halves { ThreadsBeginWithTheirHalf }
    ensures freed { ThreadsBeginWithFreed }
{}

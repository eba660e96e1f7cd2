//! What every list of the table's steps keeps, and what the owner and the sweeper may rely on. Each law is the contract of a
//! function that does nothing, so that a caller's proof may rely on it.
ghost use Rattle.dym_slots.specs.SlotLaws.{EachStepKeepsFacts, EachRunKeepsFacts, EachStepKeepsNotes, EachRunKeepsNotes, EachRunHasNotes, OwnerFindsItsOwn, FirstOfTwoIsFree, FullCountIsClean, OnlyTheListIsLeft, PutHasRoom, NumbersAreBelow};

/// Each step keeps all facts, and the number of slots.
pub fn each_step_keeps_facts()
    ensures { EachStepKeepsFacts }
{}

/// Each state that a list of steps reaches from the start meets all facts.
pub fn each_run_keeps_facts()
    ensures { EachRunKeepsFacts }
{}

/// Each step keeps the notes of the two seats.
pub fn each_step_keeps_notes()
    ensures { EachStepKeepsNotes }
{}

/// Each state that a list of steps reaches from the start meets all facts and all notes.
pub fn each_run_keeps_notes()
    ensures { EachRunKeepsNotes }
{}

/// The notes follow each list of steps.
pub fn each_run_has_notes()
    ensures { EachRunHasNotes }
{}

/// The owner takes a slot of its list at the first try: it finds the slot Live under the entry's number.
pub fn owner_finds_its_own()
    ensures { OwnerFindsItsOwn }
{}

/// A slot that was seen out with the sweeper is Free once a second one was seen so in the same `put`.
pub fn first_of_two_is_free()
    ensures { FirstOfTwoIsFree }
{}

/// A sweep that found all slots clean left no record below the root that it saw.
pub fn full_count_is_clean()
    ensures { FullCountIsClean }
{}

/// A sweep that saw the root leaves the records of the owner's list alone: each other slot is Free, where neither seat has one out.
pub fn only_the_list_is_left()
    ensures { OnlyTheListIsLeft }
{}

/// A list of at most 287 entries leaves at least 33 slots for the next `put`.
pub fn put_has_room()
    ensures { PutHasRoom }
{}

/// Records are numbered below 2^60, so that a state fits a word.
pub fn numbers_are_below()
    ensures { NumbersAreBelow }
{}

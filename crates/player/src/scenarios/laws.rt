//! The laws, each called once, and the numbers of the refusals.
use crate::transcript::Printer;
use desk::{
    Fault, accounts_are_isolated, accounts_disturb_little, commands_have_one_effect,
    deposits_are_shown_exactly, grants_are_of_their_plan, journeys_keep_their_promises,
    rejections_tell_their_rule, steps_keep_their_promises, steps_leave_sound_histories,
    successions_bring_their_identity, texts_are_reserved,
};
use sqlite::MemStore;
use sqlite_disk::Memory;
use store::{
    book_stands_in_tables, equal_tables_tell_the_same, openings_find_what_was_left,
    rows_stand_exactly, serials_rise,
};
use tsp::Rule;

static FAULTS: [Fault; 10] = [
    Fault::NotHere,
    Fault::NotOwner,
    Fault::Conflict,
    Fault::UnknownReader,
    Fault::SelfGrant,
    Fault::TooLarge,
    Fault::Rejected(Rule::Quota),
    Fault::Memory,
    Fault::Store,
    Fault::Signer,
];

/// Tells the numbers of the desk's refusals.
pub fn number(printer: Printer<'_>) {
    for fault in &FAULTS {
        printer.tell(&(*fault, fault.number()));
    }
}

/// Calls the laws of the store and of the desk.
pub fn call() {
    equal_tables_tell_the_same();
    serials_rise();
    rows_stand_exactly();
    book_stands_in_tables::<MemStore>();
    openings_find_what_was_left::<Memory>();
    steps_leave_sound_histories();
    grants_are_of_their_plan();
    commands_have_one_effect();
    deposits_are_shown_exactly();
    steps_keep_their_promises();
    rejections_tell_their_rule();
    successions_bring_their_identity();
    texts_are_reserved();
    journeys_keep_their_promises();
    accounts_are_isolated::<cms::KeyedHash>();
    accounts_disturb_little();
}

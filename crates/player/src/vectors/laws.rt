//! The laws, each called once.
use cms::sets_are_ascending;
use decide::{gen_times_are_one, verdicts_are_of_octets, verdicts_are_one};
use der::{
    elements_have_one_beginning, encodings_are_bounded, encodings_are_read,
    numbers_have_one_content, oids_have_one_content_and_text, trees_have_one_encoding,
};
use gentime::{texts_are_distinct, texts_are_rounded, texts_are_short};
use policy::records_are_sound;
use tsp::{JudgesRequests, octets_fail_as_their_request, tst_infos_have_one_reading};

/// A judge by whom a request fails no rule.
struct Lenient;

impl JudgesRequests for Lenient {
    ghost holds_of = { λ judge r rule. Unit {0} };
}

fn call_of_values() {
    elements_have_one_beginning();
    encodings_are_read();
    encodings_are_bounded();
    trees_have_one_encoding();
    numbers_have_one_content();
    oids_have_one_content_and_text();
}

fn call_of_messages() {
    texts_are_short();
    texts_are_distinct();
    texts_are_rounded();
    octets_fail_as_their_request::<Lenient>();
    tst_infos_have_one_reading();
    sets_are_ascending();
}

/// Calls the laws.
pub fn call() {
    call_of_values();
    call_of_messages();
    records_are_sound();
    verdicts_are_one();
    verdicts_are_of_octets();
    gen_times_are_one();
}

//! A case over a store across the wire: each call of its run is an exchange of HTTP messages with a store in memory.
use crate::left::tell_left_after_run;
use crate::play::{serve_setup_on_store, tell_run_of_case};
use crate::program::Program;
use case_text::{Given, Told, given_numbers, given_text_behind, has_given_line, line_of_run};
use case_verbs::place_of_store;
use gate_base::List;
use memory_swift::{StoreLink, client_over};
use std::alloc::Global;
use swift_calls::Swift;
use swift_client::SwiftClient;
use swift_store::{MapShelf, Shelf};

/// Runs a case once more, by reads of this size, and tells what came where it isn't the usual. One store serves the setup, the
/// case and what looks at the account that is left, each through a client of its own, and only that of the case loses messages. A
/// case whose store is gone from a call on is left out, for a link can't be lost so; so is a sweep.
pub(crate) fn play_wire<P: Program>(
    alloc: Global,
    program: &P,
    setup: Given<'_>,
    given: Given<'_>,
    size: u64,
    usual: &str,
    told: &mut Told,
) {
    if given_text_behind(given, "stop").is_none() && !has_given_line(given, "sweep") {
        let mut other = Told::new(alloc);
        let mut shelf = MapShelf::new(alloc);
        serve_setup_over_wire(alloc, program, setup, &mut shelf, &mut other);
        serve_case_over_wire(alloc, program, given, size, &mut shelf, &mut other);
        tell_left_over_wire(alloc, given, &mut shelf, &mut other);
        told.say_if_other("over the wire, by ", size, &other, usual);
    }
}

fn serve_setup_over_wire<P: Program, S: Shelf + Drop>(
    alloc: Global,
    program: &P,
    setup: Given<'_>,
    shelf: S,
    told: &mut Told,
) {
    if let Some(mut store) = client_over_wire(
        alloc,
        shelf,
        List::new(alloc),
        List::new(alloc),
        told,
    ) {
        serve_setup_on_store(alloc, program, setup, &mut store, "", told);
    }
}

fn serve_case_over_wire<P: Program, S: Shelf + Drop>(
    alloc: Global,
    program: &P,
    given: Given<'_>,
    size: u64,
    shelf: S,
    told: &mut Told,
) {
    let before = given_numbers(alloc, given, "before", "", told);
    let after = given_numbers(alloc, given, "after", "", told);
    if let Some(mut store) = client_over_wire(alloc, shelf, before, after, told) {
        tell_run_over_wire(alloc, program, given, size, &mut store, told);
    }
}

fn tell_run_over_wire<P: Program, W: Swift>(
    alloc: Global,
    program: &P,
    given: Given<'_>,
    size: u64,
    store: &mut W,
    told: &mut Told,
) {
    if let Some(mut line) = line_of_run(alloc, given, size, told) {
        tell_run_of_case(alloc, program, given, store, &mut line, told);
    }
}

fn tell_left_over_wire<S: Shelf + Drop>(
    alloc: Global,
    given: Given<'_>,
    shelf: S,
    told: &mut Told,
) {
    if let Some(mut store) = client_over_wire(
        alloc,
        shelf,
        List::new(alloc),
        List::new(alloc),
        told,
    ) {
        tell_left_after_run(alloc, given, &mut store, told);
    }
}

/// A client of a store over the shelf. Its calls of these numbers lose their request, or their answer.
fn client_over_wire<S: Shelf + Drop>(
    alloc: Global,
    shelf: S,
    before: List<u64>,
    after: List<u64>,
    told: &mut Told,
) -> Option<SwiftClient<StoreLink<S>>> {
    match place_of_store(alloc, b"localhost:8080", b"AUTH_test", b"secret", told) {
        Some(place) => told.keep_made(client_over(alloc, shelf, place, before, after)),
        None => None,
    }
}

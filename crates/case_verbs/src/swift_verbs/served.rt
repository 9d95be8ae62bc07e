//! Whole runs of the store.
use case_text::{Told, line_of_one_connection, tell_owned_value, tell_value, words_of_text};
use gate_base::{Bytes, List, MemLine, MemSink};
use std::alloc::Global;
use store_cmd::run_store;
use swift_store::MapShelf;

/// The most bytes that a read gives.
const PIECE: u64 = 64;

/// Tells what a run with these words writes, its status, and what it reports.
pub(crate) fn tell_swiftd_run(alloc: Global, text: &str, given: &[u8], told: &mut Told) {
    let words = words_of_text(alloc, text, told);
    if let Some(mut line) = line_of_one_connection(alloc, given, PIECE, List::new(alloc), told) {
        run_store_on_line(alloc, words.as_slice(), &mut line, told);
    }
}

fn run_store_on_line(alloc: Global, words: &[String], line: &mut MemLine, told: &mut Told) {
    let mut report = MemSink::new(alloc, List::new(alloc));
    let mut shelf = MapShelf::new(alloc);
    let status = run_store(alloc, words, line, &mut report, &mut shelf);
    tell_bytes_of_run(alloc, line, told);
    tell_value(&status, told);
    tell_owned_value(Bytes::from_slice(alloc, report.bytes()), told);
}

fn tell_bytes_of_run(alloc: Global, line: &MemLine, told: &mut Told) {
    let mut sent = Bytes::new(alloc);
    for piece in line.pieces() {
        told.append(&mut sent, piece.bytes.as_slice());
    }
    tell_value(&sent, told);
}

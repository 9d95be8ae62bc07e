//! The same requests through the S3 service as one machine: what it answers is what was written.
ghost use Rattle.std.specs.Prelude.{IsTrue};
ghost use Rattle.http_wire.specs.Print.{IsReplyStatus};

use crate::play::First;
use case_text::{
    Fault, Given, Told, begins_reply, copy_of_bytes, given_connections, given_keys, given_moments,
    given_text_behind, has_failing_call, has_given_line, reply_of_pieces, tell_bytes_by_lines,
};
use case_verbs::{
    Talk, USUAL_LARGEST_BODY, USUAL_LEAST_PART, USUAL_REGION, is_shown_reply, moment_with_date,
    settings_of_region,
};
use gate_base::{Bytes, Caller, Page, Piece, cut, drop};
use http_wire::{Message, print_page};
use s3_machine::{Label, Op, Reply, Settings};
use s3_names::Target;
use s3_native::Native;
use s3_pages::{PageContext, page};
use s3_requests::{Meant, meaning};
use sigv4::{Keys, SignedRequest, verify};
use std::alloc::Global;

/// The machine, and how many requests a run has had.
#[derive(Drop)]
pub(crate) struct Machine {
    alloc: Global,
    native: Native,
    turn: u64,
}

/// By what a run understands its requests.
#[derive(Drop)]
pub(crate) struct Service {
    pub(crate) settings: Settings,
    pub(crate) keys: Keys,
}

/// By what a request is understood, its label but for its caller, and the pieces whose first begins the reply to it.
#[derive(Clone, Copy)]
struct Turn<'a> {
    service: &'a Service,
    label: Label,
    pieces: &'a [Piece],
}

/// Tells what the machine answers where a run without a fault wrote something else.
pub(crate) fn compare_case_with_machine(
    alloc: Global,
    first: &First,
    given: Given<'_>,
    pieces: &[Piece],
    told: &mut Told,
) {
    if has_failing_call(given) || has_given_line(given, "nomodel") || pieces.is_empty() {
        return;
    }
    if let Some(mut machine) = machine_after_setup(alloc, first, given, told) {
        machine.answer_run(given, pieces, told);
    }
}

/// The machine that was asked what the run was that stands before a case, with the settings of the case.
pub(crate) fn machine_after_setup(
    alloc: Global,
    first: &First,
    given: Given<'_>,
    told: &mut Told,
) -> Option<Machine> {
    let mut machine = machine_without_bucket(alloc, given, told)?;
    machine.answer_run(first.given, first.pieces, told);
    Some(machine)
}

/// A machine without a bucket.
fn machine_without_bucket(alloc: Global, given: Given<'_>, told: &mut Told) -> Option<Machine> {
    let settings = settings_of_words(alloc, given, told)?;
    Some(Machine {
        alloc,
        native: Native::new(alloc, settings),
        turn: 0,
    })
}

impl Machine {
    /// The machine is asked what a new run was. What it answers is told where that wrote something else.
    pub(crate) fn answer_run(&mut self, given: Given<'_>, pieces: &[Piece], told: &mut Told) {
        if let Some(service) = service_of_run(self.alloc, given, told) {
            self.answer_run_by_service(&service, given, pieces, told);
        }
    }

    /// The completions are forgotten that the words of a run name. How many they are is told where the run reported something else.
    pub(crate) fn forget_as_run(&mut self, given: Given<'_>, report: &str, told: &mut Told) {
        let before = match option_of_words(given, " --forget-before ") {
            Some(value) => option_number_or_zero(value),
            None => 0,
        };
        let mut due = Told::new(self.alloc);
        due.say_number(" forgotten ", self.native.forget(before));
        due.say("\n");
        if !report.ends_with(due.text()) {
            told.say("by the machine:");
            told.say(due.text());
        }
    }

    fn answer_run_by_service(
        &mut self,
        service: &Service,
        given: Given<'_>,
        pieces: &[Piece],
        told: &mut Told,
    ) {
        self.turn = 0;
        let moments = given_moments(self.alloc, given, told);
        let mut number = 0u64;
        let connections = given_connections(self.alloc, given, told);
        for bytes in connections.as_slice() {
            number = number.saturating_add(1);
            if let Some(mut talk) = Talk::open_over_bytes(self.alloc, bytes.as_slice(), told) {
                talk.limit_bodies(service.settings.largest_body);
                let moments = moments.as_slice();
                self.answer_connection(service, moments, &mut talk, number, pieces, told);
            }
        }
    }

    /// The requests of a connection.
    fn answer_connection(
        &mut self,
        service: &Service,
        moments: &[u64],
        talk: &mut Talk,
        number: u64,
        pieces: &[Piece],
        told: &mut Told,
    ) {
        let mut rest = pieces;
        for _ in 0..pieces.len() {
            if is_reply_on_connection(rest, number) {
                let turn = Turn {
                    service,
                    label: label_of_turn(self.turn, moments, told),
                    pieces: rest,
                };
                self.turn = self.turn.saturating_add(1);
                self.answer_next_request(talk, &turn, told);
            }
            rest = pieces_behind_first(rest);
        }
    }

    /// The next request of a connection. One that is refused before it is understood is not for the machine.
    fn answer_next_request(&mut self, talk: &mut Talk, turn: &Turn, told: &mut Told) {
        if let Some(mut message) = talk.next_message() {
            self.answer_message(&mut message, turn, told);
        }
    }

    fn answer_message(&mut self, message: &mut Message, turn: &Turn, told: &mut Told) {
        if let Ok(target) = Target::read(self.alloc, message.target.as_slice()) {
            self.answer_if_verified(message, &target, turn, told);
        }
    }

    fn answer_if_verified(
        &mut self,
        message: &mut Message,
        target: &Target,
        turn: &Turn,
        told: &mut Told,
    ) {
        let keys = &turn.service.keys;
        let request = SignedRequest {
            message,
            target,
            region: turn.service.settings.region.as_slice(),
            moment: turn.label.moment,
        };
        if let Ok(caller) = verify(self.alloc, keys, &request) {
            self.answer_by_meaning(message, target, caller, turn, told);
        }
    }

    fn answer_by_meaning(
        &mut self,
        message: &mut Message,
        target: &Target,
        caller: Caller,
        turn: &Turn,
        told: &mut Told,
    ) {
        let meant = meaning(self.alloc, message, target, &caller, &turn.service.settings);
        self.answer_meant(&meant, message, target, caller, turn, told);
        drop(meant);
    }

    fn answer_meant(
        &mut self,
        meant: &Meant,
        message: &Message,
        target: &Target,
        caller: Caller,
        turn: &Turn,
        told: &mut Told,
    ) {
        match meant {
            Meant::Op(op) => self.answer_operation(op, message, target, caller, turn, told),
            Meant::Refused(_) => {}
            Meant::Memory => told.note_fault(Fault::Memory),
        }
    }

    fn answer_operation(
        &mut self,
        op: &Op,
        message: &Message,
        target: &Target,
        caller: Caller,
        turn: &Turn,
        told: &mut Told,
    ) {
        let label = Label {
            caller,
            moment: turn.label.moment,
            request_id: turn.label.request_id,
            draw: turn.label.draw,
        };
        let method = message.method.as_slice();
        let resource = target.raw_path.as_slice();
        match self.native.step(op, &label) {
            Ok(reply) => compare_reply_with_pieces(
                self.alloc, reply, &label, method, resource, turn, told,
            ),
            Err(_) => told.note_fault(Fault::Memory),
        }
    }
}

/// Whether the first of these pieces begins the reply to a request on a connection. An interim line is none: it is written before
/// a body is read, and the reply follows.
fn is_reply_on_connection(pieces: &[Piece], number: u64) -> bool {
    match pieces.first() {
        Some(piece) => {
            piece.connection == number
                && begins_reply(piece)
                && !piece.bytes.as_slice().starts_with(b"HTTP/1.1 100 ")
        }
        None => false,
    }
}

fn pieces_behind_first(pieces: &[Piece]) -> &[Piece] {
    match pieces.split_first() {
        Some((_, behind)) => behind,
        None => pieces,
    }
}

/// Tells the reply as it is printed where it isn't what the pieces make. Where they say that the connection ends, it says so too.
fn compare_reply_with_pieces(
    alloc: Global,
    reply: Reply,
    label: &Label,
    method: &[u8],
    resource: &[u8],
    turn: &Turn,
    told: &mut Told,
) {
    if let Some(page) = page_of_machine_reply(alloc, reply, label, resource, told) {
        compare_page_with_pieces(alloc, &page, method, turn, told);
    }
}

fn page_of_machine_reply(
    alloc: Global,
    reply: Reply,
    label: &Label,
    resource: &[u8],
    told: &mut Told,
) -> Option<Page> {
    if is_shown_reply(&reply) {
        let context = PageContext::strict(copy_of_bytes(alloc, resource, told));
        told.keep_made(page(alloc, reply, label, &context))
    } else {
        drop(reply);
        told.note_fault(Fault::Unread("a reply without a page"));
        None
    }
}

fn compare_page_with_pieces(
    alloc: Global,
    page: &Page,
    method: &[u8],
    turn: &Turn,
    told: &mut Told,
) {
    let came = reply_of_pieces(alloc, turn.pieces, told);
    let closing = ends_connection(came.as_slice());
    let due = printed_machine_page(alloc, page, method, closing, told);
    if due.as_slice() != came.as_slice() {
        told.say("by the machine:\n");
        tell_bytes_by_lines(alloc, due.as_slice(), told);
    }
}

/// Whether the head of a reply says that the connection ends.
fn ends_connection(reply: &[u8]) -> bool {
    let mut rest = reply;
    for _ in 0..reply.len() {
        let (line, behind) = cut(rest, b'\n');
        if line == b"Connection: close\r".as_slice() {
            return true;
        }
        if line == b"\r".as_slice() {
            return false;
        }
        rest = behind;
    }
    false
}

/// The bytes of a reply of the machine to a request of that method.
fn printed_machine_page(
    alloc: Global,
    page: &Page,
    method: &[u8],
    closing: bool,
    told: &mut Told,
) -> Bytes {
    if !is_reply_status(page.status) {
        return nothing_printed(alloc, Fault::Unread("no status of a reply"), told);
    }
    match print_page(alloc, page, method, closing) {
        Ok(text) => text,
        Err(_) => nothing_printed(alloc, Fault::Memory, told),
    }
}

/// The label of a request by its place in a run, from 0: two words are drawn a request, and the last moment comes again.
fn label_of_turn(turn: u64, moments: &[u64], told: &mut Told) -> Label {
    let draws = 2 * u128::from(turn);
    let moment = match moments.get(turn as usize) {
        Some(moment) => *moment,
        None => match moments.last() {
            Some(moment) => *moment,
            None => 0,
        },
    };
    Label {
        caller: Caller::Anonymous,
        moment: moment_with_date(moment, told),
        request_id: draws + 1,
        draw: draws + 2,
    }
}

/// The word that stands behind an option in the words of the program.
fn option_of_words<'a>(given: Given<'a>, option: &str) -> Option<&'a str> {
    let words = given_text_behind(given, "words")?;
    let (_, rest) = words.split_once(option)?;
    match rest.split_once(' ') {
        Some((value, _)) => Some(value),
        None => Some(rest),
    }
}

/// The region of the words, or the usual one.
fn region_of_words(given: Given<'_>) -> &[u8] {
    match option_of_words(given, " --region ") {
        Some(region) => region.as_bytes(),
        None => USUAL_REGION,
    }
}

/// The least size of a part of the words, or the usual one, 5 MiB.
fn least_part_of_words(given: Given<'_>) -> u64 {
    match option_of_words(given, " --least-part ") {
        Some(value) => option_number_or_zero(value),
        None => USUAL_LEAST_PART,
    }
}

/// The most bytes of a body by the words, or the usual ones, 16 MiB.
fn largest_body_of_words(given: Given<'_>) -> u64 {
    match option_of_words(given, " --largest-body ") {
        Some(value) => option_number_or_zero(value),
        None => USUAL_LARGEST_BODY,
    }
}

/// Whether the words have the flag that asks for more than the strict profile.
fn is_extended_by_words(given: Given<'_>) -> bool {
    match given_text_behind(given, "words") {
        Some(words) => words.contains(" --extended"),
        None => false,
    }
}

fn settings_of_words(alloc: Global, given: Given<'_>, told: &mut Told) -> Option<Settings> {
    settings_of_region(
        alloc,
        region_of_words(given),
        least_part_of_words(given),
        largest_body_of_words(given),
        is_extended_by_words(given),
        told,
    )
}

fn option_number_or_zero(text: &str) -> u64 {
    match text.parse::<u64>() {
        Ok(number) => number,
        Err(_) => 0,
    }
}

pub(crate) fn service_of_run(alloc: Global, given: Given<'_>, told: &mut Told) -> Option<Service> {
    let keys = keys_of_run(alloc, given, told)?;
    let settings = settings_of_words(alloc, given, told)?;
    Some(Service { settings, keys })
}

fn keys_of_run(alloc: Global, given: Given<'_>, told: &mut Told) -> Option<Keys> {
    let text = given_keys(alloc, given);
    told.keep_made(Keys::read(alloc, text.text().as_bytes()))
}

fn nothing_printed(alloc: Global, fault: Fault, told: &mut Told) -> Bytes {
    told.note_fault(fault);
    Bytes::new(alloc)
}

fn is_reply_status(status: u16) -> bool
    ensures { IsTrue result → IsReplyStatus status }
{
    match status {
        200 | 204 | 206 | 304 => true,
        400 | 403 | 404 | 405 | 409 | 411 | 412 | 416 => true,
        500 | 501 | 503 => true,
        _ => false,
    }
}

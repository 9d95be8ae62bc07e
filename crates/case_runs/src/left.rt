//! What a store keeps, as its answers tell it.
use case_text::{Fault, Given, Told, copy_of_bytes, has_given_line, tell_value};
use gate_base::{Bytes, drop};
use std::alloc::Global;
use swift_calls::{Swift, SwiftFault, SwiftReply, SwiftRequest, drop_request, is_fit};

/// The most names that a call lists. No case leaves more containers, or more objects in one.
const MOST_NAMES: u32 = 1000;

pub(crate) const OTHER: Fault = Fault::Unread("a store that answers something else");

/// Tells the containers of a store whose calls don't fail, each with its readers, and how many objects it has; and the objects, and
/// the bytes of each.
pub(crate) fn tell_left_after_run<W: Swift>(
    alloc: Global,
    given: Given<'_>,
    store: &mut W,
    told: &mut Told,
) {
    if has_given_line(given, "tell left") {
        let request = SwiftRequest::ListContainers {
            marker: Bytes::new(alloc),
            limit: MOST_NAMES,
        };
        let answer = ask_store(store, request);
        tell_left_containers(alloc, given, store, &answer, told);
        drop(answer);
    }
}

fn tell_left_containers<W: Swift>(
    alloc: Global,
    given: Given<'_>,
    store: &mut W,
    answer: &Result<SwiftReply, SwiftFault>,
    told: &mut Told,
) {
    let Ok(SwiftReply::Containers(names)) = answer else {
        return told.note_fault(OTHER);
    };
    told.say("left ");
    tell_value(names, told);
    for name in names.as_slice() {
        tell_left_readers(alloc, store, name.as_slice(), told);
        tell_left_names(alloc, given, store, name.as_slice(), told);
    }
}

fn tell_left_readers<W: Swift>(alloc: Global, store: &mut W, container: &[u8], told: &mut Told) {
    let container = copy_of_bytes(alloc, container, told);
    let answer = ask_store(store, SwiftRequest::HeadContainer { container });
    tell_reply_of_store(&answer, told);
    drop(answer);
}

fn tell_reply_of_store(answer: &Result<SwiftReply, SwiftFault>, told: &mut Told) {
    match answer {
        Ok(reply) => tell_value(reply, told),
        Err(_) => told.note_fault(OTHER),
    }
}

fn tell_left_names<W: Swift>(
    alloc: Global,
    given: Given<'_>,
    store: &mut W,
    container: &[u8],
    told: &mut Told,
) {
    let request = SwiftRequest::ListNames {
        container: copy_of_bytes(alloc, container, told),
        prefix: Bytes::new(alloc),
        marker: Bytes::new(alloc),
        limit: MOST_NAMES,
    };
    let answer = ask_store(store, request);
    tell_left_objects(alloc, given, store, container, &answer, told);
    drop(answer);
}

fn tell_left_objects<W: Swift>(
    alloc: Global,
    given: Given<'_>,
    store: &mut W,
    container: &[u8],
    answer: &Result<SwiftReply, SwiftFault>,
    told: &mut Told,
) {
    let Ok(SwiftReply::Names(items)) = answer else {
        return told.note_fault(OTHER);
    };
    told.say("objects ");
    tell_value(&items.len(), told);
    for item in items.as_slice() {
        if has_given_line(given, "tell objects") {
            tell_left_head(alloc, store, container, &item.name, told);
        }
        if has_given_line(given, "tell bodies") {
            tell_left_object_body(alloc, store, container, &item.name, told);
        }
    }
}

fn tell_left_head<W: Swift>(
    alloc: Global,
    store: &mut W,
    container: &[u8],
    name: &Bytes,
    told: &mut Told,
) {
    let request = SwiftRequest::HeadObject {
        container: copy_of_bytes(alloc, container, told),
        name: copy_of_bytes(alloc, name.as_slice(), told),
    };
    let answer = ask_store(store, request);
    tell_left_object(name, &answer, told);
    drop(answer);
}

fn tell_left_object(name: &Bytes, answer: &Result<SwiftReply, SwiftFault>, told: &mut Told) {
    let Ok(SwiftReply::Head(head)) = answer else {
        return told.note_fault(OTHER);
    };
    told.say("object ");
    told.say_value(name);
    told.say(" ");
    told.say_value(&head.content_type);
    told.say(" ");
    told.say_value(&head.meta);
    if head.manifest {
        told.say(" segments ");
        told.say_value(&head.etag);
    }
    told.say("\n");
}

fn tell_left_object_body<W: Swift>(
    alloc: Global,
    store: &mut W,
    container: &[u8],
    name: &Bytes,
    told: &mut Told,
) {
    let request = SwiftRequest::GetObject {
        container: copy_of_bytes(alloc, container, told),
        name: copy_of_bytes(alloc, name.as_slice(), told),
        range: None,
    };
    let answer = ask_store(store, request);
    tell_left_object_bytes(&answer, told);
    drop(answer);
}

fn tell_left_object_bytes(answer: &Result<SwiftReply, SwiftFault>, told: &mut Told) {
    match answer {
        Ok(SwiftReply::Bytes { body, .. }) => {
            told.say("body ");
            tell_value(body, told);
        }
        _ => told.note_fault(OTHER),
    }
}

pub(crate) fn ask_store<W: Swift>(
    store: &mut W,
    request: SwiftRequest,
) -> Result<SwiftReply, SwiftFault> {
    let answer = ask_store_if_fit(store, &request);
    drop_request(request);
    answer
}

fn ask_store_if_fit<W: Swift>(
    store: &mut W,
    request: &SwiftRequest,
) -> Result<SwiftReply, SwiftFault> {
    if is_fit(request) {
        store.call(request)
    } else {
        Err(SwiftFault::Failed)
    }
}

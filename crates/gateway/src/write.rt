//! What is written for a reply.
ghost use Rattle.std.specs.Prelude.{◌≡◌, ◌≢◌, ◌<◌, IsTrue, IfOk, OnOk};
ghost use Rattle.gate_base.specs.Line.{OnlyWrites};
ghost use Rattle.http_wire.specs.Print.{memory_reply};
ghost use Rattle.s3_machine.specs.declared.operation.Reply.TheVariants as answer;
ghost use Rattle.s3_machine.specs.Shown.{IsShowable};
ghost use Rattle.s3_pages.specs.Pages.{page_of, strict_context};
ghost use Rattle.gateway.specs.declared.write.Written.TheVariants as written;
ghost use Rattle.gateway.specs.Request.{reply_text};
ghost use Rattle.gateway.specs.Write.{WritesReply, WritesOutOfMemory, is_failed_write};

use gate_base::{Bytes, Line, Memory, Page, drop};
use http_wire::{print_memory, print_page};
use s3_machine::{Label, Reply};
use s3_pages::{PageContext, page};
use std::alloc::Global;
use swift_calls::Swift;

/// What became of the bytes of a reply.
#[derive(Clone, Copy, Debug, PartialEq, Eq)]
pub enum Written {
    /// The reply was written.
    Whole,
    /// Memory ran out, and the reply for that was written.
    Memory,
    /// The line failed under either.
    Failed,
}

/// What a reply is printed for: the label of its request, the method, and the raw path of the target, which an error names.
#[derive(Debug, Drop)]
pub struct ReplyContext<'a> {
    pub label: Label,
    pub method: &'a [u8],
    pub resource: &'a [u8],
}

/// Writes a reply as one piece, or the out-of-memory reply in its place.
pub fn write_reply<N: Line<W>, W: Swift>(
    alloc: Global,
    line: &mut N,
    store: &W,
    reply: Reply,
    context: &ReplyContext<'_>,
    closing: bool,
) -> Written
    requires open { IsTrue (N.model line.old).is_open }
    requires showable { IsShowable reply }
    ensures writes { OnlyWrites (is_failed_write result) (N.model line.old) (N.model line.new) }
    ensures effect { IsTrue (N.model line.old).observable
        → WritesReply (N.model line.old).transcript (W.history store.now).called reply
        context.now.label context.now.method.now context.now.resource.now closing result
        (N.model line.new).transcript }
{
    match print_reply(alloc, reply, context, closing) {
        Ok(text) => match line.write(store, text.as_slice()) {
            Ok(()) => Written::Whole,
            Err(_) => Written::Failed,
        },
        Err(_) => write_memory_reply(line, store, context.method == b"HEAD".as_slice()),
    }
}

/// Writes the out-of-memory reply.
pub fn write_memory_reply<N: Line<W>, W: Swift>(line: &mut N, store: &W, head: bool) -> Written
    requires { IsTrue (N.model line.old).is_open }
    ensures outcome { result ≢ written.Whole }
    ensures writes { OnlyWrites (is_failed_write result) (N.model line.old) (N.model line.new) }
    ensures effect { IsTrue (N.model line.old).observable
        → WritesOutOfMemory (N.model line.old).transcript (W.history store.now).called
        (memory_reply head) result (N.model line.new).transcript }
{
    write_out_of_memory(line, store, print_memory(head))
}

fn write_out_of_memory<N: Line<W>, W: Swift>(line: &mut N, store: &W, bytes: &[u8]) -> Written
    requires { IsTrue (N.model line.old).is_open }
    ensures outcome { result ≢ written.Whole }
    ensures writes { OnlyWrites (is_failed_write result) (N.model line.old) (N.model line.new) }
    ensures effect { IsTrue (N.model line.old).observable
        → WritesOutOfMemory (N.model line.old).transcript (W.called store.now) bytes.now result
        (N.model line.new).transcript }
{
    match line.write(store, bytes) {
        Ok(()) => Written::Memory,
        Err(_) => Written::Failed,
    }
}

/// The bytes of a reply to a request of that context; `closing` says that the
/// connection ends after it. Moments are seconds since the beginning of 1970. The reply that says that memory ran out has
/// its bytes from [`http_wire::print_memory`]: for it the call fails.
#[tactic(auto, using(crate::proofs::Statuses::reply_status), unfolding(crate::specs::Request::reply_text))]
pub fn print_reply(
    alloc: Global,
    reply: Reply,
    context: &ReplyContext<'_>,
    closing: bool,
) -> Result<Bytes, Memory>
    requires showable { IsShowable reply }
    ensures text { IfOk result
        (λ text. text ≡ reply_text reply context.now.label context.now.method.now
        context.now.resource.now closing) }
    ensures known { OnOk result (reply ≢ answer.Memory) }
{
    if let Reply::Memory = reply {
        return Err(Memory);
    }
    let page = page_of_reply(alloc, reply, context)?;
    let text = print_page(alloc, &page, context.method, closing)?;
    Ok(text)
}

/// The page of a reply, of the strict profile.
fn page_of_reply(alloc: Global, reply: Reply, context: &ReplyContext<'_>) -> Result<Page, Memory>
    requires reply { reply ≢ answer.Memory }
    requires showable { IsShowable reply }
    ensures { IfOk result
        (λ page. page ≡ page_of reply context.now.label (strict_context context.now.resource.now)) }
{
    match Bytes::from_slice(alloc, context.resource) {
        Ok(resource) => {
            let told = PageContext::strict(resource);
            page(alloc, reply, &context.label, &told)
        }
        Err(fault) => {
            drop(reply);
            Err(fault)
        }
    }
}

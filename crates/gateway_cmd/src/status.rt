ghost use Rattle.std.specs.Prelude.{◌≡◌, ◌++◌, IfOk, OnOk, decimal};
ghost use Rattle.gateway_cmd.specs.Report.{code_of, inconsistent_line, line_of, lines_of, sealed_word, signed_lines, surveyed_line, swept_line, url_report_line, trial_report_line};
ghost use Rattle.gateway_cmd.specs.declared.status.Told.TheVariants.{Settled};

use gate_base::{Bytes, Memory};
use s3_names::encode_all;
use sigv4::Signed;
use std::alloc::Global;
use sweep::{Surveyed, Swept};
use text_forms::append_decimal;

/// How a run ended that has nothing to tell.
#[derive(Clone, Copy, Debug, PartialEq, Eq)]
pub enum Status {
    /// Each connection of the line was served, or as many as were asked for.
    Done,
    /// The words are refused, or the key text.
    Usage,
    /// The line failed to give another connection, or, where a request was to be signed, at any call.
    Line,
    /// The store failed, where its account was to be kept up or counted.
    Store,
    /// No request stood first on the line, or one that can't be signed.
    Request,
    /// Memory ran out.
    Memory,
}

impl Status {
    /// The exit status.
    pub fn code(self) -> u8
        ensures { result ≡ code_of self }
    {
        match self {
            Status::Done => 0,
            Status::Usage => 2,
            Status::Line => 3,
            Status::Store => 4,
            Status::Memory => 5,
            Status::Request => 8,
        }
    }

    /// The line of the report, with its end; none where all was done.
    #[tactic(auto, unfolding(crate::specs::Report::line_of))]
    pub fn line(self) -> &'static [u8]
        ensures { result.now ≡ line_of self }
    {
        match self {
            Status::Done => b"",
            Status::Usage =>
                b"usage: s3gate session|serve|recover|sweep|check|sign|trial|presign\n",
            Status::Line => b"s3gate: line\n",
            Status::Store => b"s3gate: store\n",
            Status::Memory => b"s3gate: memory\n",
            Status::Request => b"s3gate: request\n",
        }
    }
}

/// What a run has to tell, where it is done.
#[derive(Debug, Drop)]
pub enum Told {
    /// The first request of the line signs to this.
    Signature(Signed),
    /// It has this URL, from its path on.
    Url(Bytes),
    /// The store is settled.
    Settled,
    /// The account was swept, and this was removed.
    Sweep(Swept),
    /// This stands on the account.
    Survey(Surveyed),
    /// So many requests of a trial were answered, by this many bytes with this SHA-256.
    Trial {
        requests: u64,
        size: u64,
        hash: [u8; 32],
    },
}

/// How a run ended.
#[derive(Debug, Drop)]
pub enum RunOutcome {
    Told(Told),
    /// The store answered what it doesn't answer over a consistent account, of this container and the object of this name in it.
    Inconsistent { container: Bytes, name: Bytes },
    Plain(Status),
}

/// The lines that report what a run has to tell.
pub fn run_report_lines(alloc: Global, told: &Told) -> Result<Bytes, Memory>
    ensures { IfOk result (λ lines. lines ≡ lines_of told.now) }
{
    match told {
        Told::Signature(signed) => signature_report_lines(alloc, signed),
        Told::Url(url) => url_report_line(alloc, url.as_slice()),
        Told::Settled => settled_report_line(alloc),
        Told::Sweep(swept) => sweep_report_line(alloc, swept),
        Told::Survey(surveyed) => survey_report_line(alloc, surveyed),
        Told::Trial {
            requests,
            size,
            hash,
        } => trial_report_line(alloc, *requests, *size, hash),
    }
}

/// The two lines that report a signature.
#[tactic(auto, unfolding(crate::specs::Report::signed_lines))]
fn signature_report_lines(alloc: Global, signed: &Signed) -> Result<Bytes, Memory>
    ensures { IfOk result (λ lines. lines ≡ signed_lines signed.now) }
{
    let mut lines = Bytes::from_slice(alloc, b"canonical ")?;
    lines.append(hex::encode(alloc, signed.canonical_hash)?.as_bytes())?;
    lines.append(b"\nsignature ")?;
    lines.append(hex::encode(alloc, signed.signature)?.as_bytes())?;
    lines.append(b"\n")?;
    Ok(lines)
}

/// The line that reports a URL.
fn url_report_line(alloc: Global, url: &[u8]) -> Result<Bytes, Memory>
    ensures { IfOk result (λ line. line ≡ url_report_line url.now) }
{
    let mut line = Bytes::from_slice(alloc, b"url ")?;
    line.append(url)?;
    line.append(b"\n")?;
    Ok(line)
}

/// The line that reports that the store is settled.
fn settled_report_line(alloc: Global) -> Result<Bytes, Memory>
    ensures { IfOk result (λ line. line ≡ lines_of Settled) }
{
    Bytes::from_slice(alloc, b"settled\n")
}

/// The line that reports what a sweep removed.
#[tactic(auto, unfolding(crate::specs::Report::swept_line))]
fn sweep_report_line(alloc: Global, swept: &Swept) -> Result<Bytes, Memory>
    ensures { IfOk result (λ line. line ≡ swept_line swept.now) }
{
    let mut line = Bytes::from_slice(alloc, b"swept segments ")?;
    append_decimal(&mut line, swept.segments)?;
    append_report_count(&mut line, b" records ", swept.records)?;
    append_report_count(&mut line, b" containers ", swept.containers)?;
    append_report_count(&mut line, b" migrated ", swept.migrated)?;
    append_report_count(&mut line, b" forgotten ", swept.forgotten)?;
    line.append(b"\n")?;
    Ok(line)
}

/// The line that reports what stands on the account.
#[tactic(auto, unfolding(crate::specs::Report::surveyed_line))]
fn survey_report_line(alloc: Global, surveyed: &Surveyed) -> Result<Bytes, Memory>
    ensures { IfOk result (λ line. line ≡ surveyed_line surveyed.now) }
{
    let mut line = Bytes::from_slice(alloc, b"buckets ")?;
    append_decimal(&mut line, surveyed.buckets)?;
    append_report_count(&mut line, b" objects ", surveyed.objects)?;
    append_report_count(&mut line, b" uploads ", surveyed.uploads)?;
    append_report_count(&mut line, b" kept ", surveyed.kept)?;
    append_report_count(&mut line, b" orphans ", surveyed.orphans)?;
    line.append(sealed_word(surveyed.sealed))?;
    Ok(line)
}

fn append_report_count(line: &mut Bytes, word: &[u8], count: u64) -> Result<(), Memory>
    ensures { OnOk result (line.new ≡ line.old ++ (word.now ++ decimal count)) }
{
    line.append(word)?;
    append_decimal(line, count)
}

fn sealed_word(sealed: bool) -> &'static [u8]
    ensures { result.now ≡ sealed_word sealed }
{
    if sealed {
        b" sealed yes\n"
    } else {
        b" sealed no\n"
    }
}

/// The line that reports a trial.
fn trial_report_line(
    alloc: Global,
    requests: u64,
    size: u64,
    hash: &[u8; 32],
) -> Result<Bytes, Memory>
    ensures { IfOk result (λ line. line ≡ trial_report_line requests size hash.now) }
{
    let mut line = Bytes::from_slice(alloc, b"requests ")?;
    append_decimal(&mut line, requests)?;
    line.append(b" output ")?;
    append_decimal(&mut line, size)?;
    line.append(b" ")?;
    line.append(hex::encode(alloc, *hash)?.as_bytes())?;
    line.append(b"\n")?;
    Ok(line)
}

/// The line that names an object of which the store answered what it doesn't over a consistent account.
pub fn inconsistent_line(alloc: Global, container: &[u8], name: &[u8]) -> Result<Bytes, Memory>
    ensures { IfOk result (λ line. line ≡ inconsistent_line container.now name.now) }
{
    let container = encode_all(alloc, container)?;
    let name = encode_all(alloc, name)?;
    let mut line = Bytes::from_slice(alloc, b"s3gate: inconsistent ")?;
    line.append(container.as_slice())?;
    line.append(b" ")?;
    line.append(name.as_slice())?;
    line.append(b"\n")?;
    Ok(line)
}

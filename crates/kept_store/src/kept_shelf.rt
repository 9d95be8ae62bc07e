//! A shelf over a connection.
ghost use Rattle.std.specs.Prelude.{◌≡◌, pos, true, false, None, IfOk, IfSome, OnErr, OnOk};
ghost use Rattle.std.specs.List.{All};
ghost use Rattle.std.proofs.Common.{sym, true≢false};
ghost use Rattle.gate_base.specs.Causes.{Rose};
ghost use Rattle.swift_calls.specs.Bodies.{etag_of};
ghost use Rattle.swift_calls.specs.Account.{files, put_file};
ghost use Rattle.swift_store.specs.Made.{IsMadeObject};
ghost use Rattle.swift_store.specs.Shelf.{CountsStoreFaults, ShelfReads, ShelfWrites, object_of, object_page};
ghost use Rattle.swift_store.specs.declared.faults.StoreFault.TheVariants as fault;
ghost use Rattle.object_rows.specs.Rows.{HasRow};
ghost use Rattle.sqlite.specs.Held.{state};
ghost use Rattle.sqlite.specs.State.{HasCleanDisk, QueriesRow};
ghost use Rattle.sqlite.specs.Values.{bound};
ghost use Rattle.kept_store.specs.Kept.{Commits, CountsFault, HasPrefix, IsRowOf, Looks, Puts, PutsRow, kept_model, place_values, put_values};
ghost use Rattle.kept_store.specs.declared.statements.TheConstants.{PLACE, PUT};

use crate::file::{FileFault, fault_of_beside};
use crate::latest::{Latest, append_latest, append_part, found_in, is_latest, place_of_latest};
use crate::rows::{container_in, head_in, is_out_of_memory, items_in, names_in, number_in, row_in};
use crate::statements;
use crate::tables::{commit, placed_numbers, tested_commit};
use body_files::{Beside, BodyFault, BodyFolder, Place, Settled, settle};
use gate_base::{Bytes, List, Memory};
use object_rows::{Row, RowFault, from_row, row_with_etag, row_with_place};
use slo_manifest::Segment;
use sqlite::types::ValueRef;
use sqlite::{Alter, Connection, Error, params};
use std::alloc::Global;
use swift_calls::{Content, NameItem, ReadList, Stored, StoredHead};
use swift_store::{Shelf, StoreFault};

/// The most bytes of a body that stands in its row. Each start has these in memory together.
const MOST_IN_ROW: usize = 256;

/// An account in the tables of a database, and the larger bodies in the files of a folder beside it. Each call writes by at most one
/// transaction, of a statement and its number, so one that is refused changes nothing. A file is written before the row that tells of
/// it, and removed after the row that told of it. It tells nothing of the tables.
///
/// `read` keeps what it found until a statement writes, since bodies are asked for in ranges: the place of a body, or a row.
#[derive(Drop)]
pub struct KeptShelf<S: Alter> {
    alloc: Global,
    connection: Connection<S>,
    faults: u64,
    latest: Option<Latest>,
    beside: Beside,
    next: u64,
    settled: Settled,
}

/// The numbers of the files of a put: of the body that stood there, and of the one that comes. None of a body that stands in a row.
#[derive(Clone, Copy)]
struct Files {
    before: Option<u64>,
    number: Option<u64>,
}

impl<S: Alter + Drop> KeptShelf<S> {
    /// A shelf over a connection, and what stands beside it. It makes the tables where they aren't there, and settles what a stop
    /// left of the files. NoDatabase: a statement was refused for another cause than memory, as where tables of these names have
    /// other columns. Behind: the file beside has a higher number than the last commit of the tables. After either all is as it was.
    pub fn adopt(
        alloc: Global,
        mut connection: Connection<S>,
        beside: Beside,
    ) -> Result<KeptShelf<S>, FileFault> {
        let (settled, next) = begin(alloc, &mut connection, &beside)?;
        Ok(KeptShelf {
            alloc,
            connection,
            faults: 0,
            latest: None,
            beside,
            next,
            settled,
        })
    }

    /// What the start found among the files.
    pub fn settled(&self) -> Settled {
        self.settled
    }

    /// The connection back. It takes no memory.
    pub fn release(self) -> Connection<S> {
        let KeptShelf {
            alloc: _,
            connection,
            faults: _,
            latest: _,
            beside: _,
            next: _,
            settled: _,
        } = self;
        connection
    }

    fn fail(&mut self) -> StoreFault
        ensures value { result ≡ fault.Failed }
        ensures count { Rose self.old.faults self.new.faults }
    {
        self.faults = self.faults.saturating_add(1);
        StoreFault::Failed
    }

    /// The fault of a statement that is refused.
    fn refused(&mut self, error: Error) -> StoreFault
        ensures { CountsFault self.old.faults self.new.faults result }
    {
        if is_out_of_memory(error) {
            StoreFault::Memory
        } else {
            self.fail()
        }
    }

    /// The fault of a row that is not read.
    fn unread(&mut self, fault: RowFault) -> StoreFault
        ensures { CountsFault self.old.faults self.new.faults result }
    {
        match fault {
            RowFault::Memory => StoreFault::Memory,
            RowFault::Unread => self.fail(),
        }
    }

    /// The fault of a body that is not read or written.
    fn unread_body(&mut self, fault: BodyFault) -> StoreFault
        ensures { CountsFault self.old.faults self.new.faults result }
    {
        match fault {
            BodyFault::Memory => StoreFault::Memory,
            BodyFault::Refused => self.fail(),
            BodyFault::Damaged => self.fail(),
        }
    }

    /// A number that no commit and no body has: they have one count, so that a number above the last commit's is above all.
    fn take_number(&mut self) -> u64
        ensures faults { self.new.faults ≡ self.old.faults }
        ensures latest { self.new.latest ≡ self.old.latest }
        ensures connection { self.new.connection ≡ self.old.connection }
    {
        let number = self.next;
        self.next = number.saturating_add(1);
        number
    }

    /// How many rows a statement wrote, which is committed with its number. Each statement that writes is run here, and what was
    /// read before it is forgotten. The number is written beside once it is committed, so that a start finds out whether it still is.
    fn written(&mut self, text: &str, values: &[ValueRef<'_>]) -> Result<usize, StoreFault>
        ensures faults { CountsStoreFaults self.old.faults self.new.faults result }
        ensures forgets { OnOk result (self.new.latest ≡ None) }
        ensures runs { OnOk result (Commits (state S.Store) text.now (bound values.now)
            self.old.connection self.new.connection) }
    {
        self.keep(None);
        let number = self.take_number();
        let Some(signed) = signed(number) else {
            return Err(self.fail());
        };
        match commit(&mut self.connection, text, values, signed) {
            Ok(count) => {
                let _ = self.beside.commits.set(number);
                Ok(count)
            }
            Err(error) => Err(self.refused(error)),
        }
    }

    /// The first row of a query's answer.
    fn row(
        &mut self,
        text: &str,
        values: &[ValueRef<'_>],
    ) -> Result<Option<sqlite::Row>, StoreFault>
        ensures { CountsStoreFaults self.old.faults self.new.faults result }
    {
        match self.connection.query_row(text, values) {
            Ok(row) => Ok(Some(row)),
            Err(Error::QueryReturnedNoRows) => Ok(None),
            Err(error) => Err(self.refused(error)),
        }
    }

    fn rows(&mut self, text: &str, values: &[ValueRef<'_>]) -> Result<Vec<sqlite::Row>, StoreFault>
        ensures { CountsStoreFaults self.old.faults self.new.faults result }
    {
        match self.connection.query_all(text, values) {
            Ok(rows) => Ok(rows),
            Err(error) => Err(self.refused(error)),
        }
    }

    /// The rows of the names behind the marker, from the prefix on and before the bound. A statement with both conditions would
    /// read all names from the prefix up to the marker; so the later of the two stands in it.
    // One lifetime for all values: `params!` makes one slice of them.
    fn rows_of_names<'x>(
        &mut self,
        container: &'x [u8],
        prefix: &'x [u8],
        marker: &'x [u8],
        bound: &'x [u8],
        limit: u32,
    ) -> Result<Vec<sqlite::Row>, StoreFault>
        ensures { CountsStoreFaults self.old.faults self.new.faults result }
    {
        if marker.cmp(prefix).is_lt() {
            self.rows(
                statements::NAMES_FROM,
                params![container, prefix, bound, limit],
            )
        } else {
            self.rows(
                statements::NAMES_BEHIND,
                params![container, marker, bound, limit],
            )
        }
    }

    fn rows_put<'x>(
        &mut self,
        container: &'x [u8],
        name: &'x [u8],
        kind: i64,
        size: i64,
        row: &'x Row,
    ) -> Result<usize, StoreFault>
        requires kind { kind ≡ pos row.now.kind }
        requires size { size ≡ pos row.now.size }
        ensures faults { CountsStoreFaults self.old.faults self.new.faults result }
        ensures forgets { OnOk result (self.new.latest ≡ None) }
        ensures runs { OnOk result (Commits (state S.Store) PUT.now
            (put_values container.now name.now row.now) self.old.connection self.new.connection) }
    {
        self.written(
            statements::PUT,
            params![
                container,
                name,
                kind,
                row.content_type.as_slice(),
                row.meta.as_slice(),
                size,
                row.hash.as_slice(),
                row.body.as_slice(),
            ],
        )
    }

    /// Puts an object, and removes the file of the one that stood there. A larger body is written and synced before its row is. Where
    /// the statement fails, whether the row is there isn't known until the next start: the files stay, and that one settles them.
    fn put_object(
        &mut self,
        container: &[u8],
        object: &Stored,
        etag: Bytes,
    ) -> Result<(), StoreFault>
        requires row { HasRow object.now }
        requires etag { etag ≡ etag_of object.now.content }
        ensures faults { CountsStoreFaults self.old.faults self.new.faults result }
        ensures runs { OnOk result (Puts (state S.Store) container.now object.now
            self.old.connection self.new.connection) }
    {
        let before = self.look_for_place(container, object.name.as_slice())?;
        self.put_over(before, container, object, etag)
    }

    /// The same over the object whose body stands in the file of a number, or over one that has none.
    fn put_over(
        &mut self,
        before: Option<u64>,
        container: &[u8],
        object: &Stored,
        etag: Bytes,
    ) -> Result<(), StoreFault>
        requires row { HasRow object.now }
        requires etag { etag ≡ etag_of object.now.content }
        ensures faults { CountsStoreFaults self.old.faults self.new.faults result }
        ensures runs { OnOk result (PutsRow (state S.Store) container.now object.now
            self.old.connection self.new.connection) }
    {
        let number = self.write_body(&object.content)?;
        let row = row_to_put(self.alloc, object, etag, number)?;
        let files = Files { before, number };
        self.put_row_of(&files, container, object.name.as_slice(), &row)
    }

    /// Puts a row, with what is done to its files before and after.
    fn put_row_of(
        &mut self,
        files: &Files,
        container: &[u8],
        name: &[u8],
        row: &Row,
    ) -> Result<(), StoreFault>
        ensures faults { CountsStoreFaults self.old.faults self.new.faults result }
        ensures runs { OnOk result (Commits (state S.Store) PUT.now
            (put_values container.now name.now row.now) self.old.connection self.new.connection) }
    {
        retire_body(&self.beside.bodies, files.before);
        self.put_row(container, name, row)?;
        keep_body(&self.beside.bodies, files.number);
        drop_body(&self.beside.bodies, files.before);
        Ok(())
    }

    /// Writes a body that is too large for its row into a new file, and gives its number. A file that isn't written to its end is
    /// removed.
    fn write_body(&mut self, content: &Content) -> Result<Option<u64>, StoreFault>
        ensures faults { CountsStoreFaults self.old.faults self.new.faults result }
        ensures same { OnOk result (self.new.connection ≡ self.old.connection) }
    {
        match content {
            Content::Plain(body) => {
                if body.len() > MOST_IN_ROW {
                    self.write_large_body(body.as_slice())
                } else {
                    Ok(None)
                }
            }
            Content::Segments(_) => Ok(None),
        }
    }

    fn write_large_body(&mut self, body: &[u8]) -> Result<Option<u64>, StoreFault>
        ensures faults { CountsStoreFaults self.old.faults self.new.faults result }
        ensures same { OnOk result (self.new.connection ≡ self.old.connection) }
    {
        let number = self.take_number();
        match self.beside.bodies.write(number, body) {
            Ok(()) => Ok(Some(number)),
            Err(fault) => {
                let _ = self.beside.bodies.remove(number);
                Err(self.unread_body(fault))
            }
        }
    }

    /// The number of the file in which the body of an object stands, if it stands in one.
    fn look_for_place(&mut self, container: &[u8], name: &[u8]) -> Result<Option<u64>, StoreFault>
        ensures faults { CountsStoreFaults self.old.faults self.new.faults result }
        ensures looks { OnOk result (Looks container.now name.now
            (state S.Store self.old.connection) (state S.Store self.new.connection)) }
    {
        match self.row_of_place(container, name) {
            Ok(row) => match number_in(&row) {
                Ok(number) => Ok(number),
                Err(error) => Err(self.refused(error)),
            },
            Err(Error::QueryReturnedNoRows) => Ok(None),
            Err(error) => Err(self.refused(error)),
        }
    }

    fn row_of_place<'x>(
        &mut self,
        container: &'x [u8],
        name: &'x [u8],
    ) -> Result<sqlite::Row, Error>
        ensures faults { self.new.faults ≡ self.old.faults }
        ensures looks { HasCleanDisk (state S.Store self.new.connection)
            → QueriesRow PLACE.now (place_values container.now name.now)
            (state S.Store self.old.connection) (state S.Store self.new.connection) result }
    {
        self.connection
            .query_row(statements::PLACE, params![container, name])
    }

    /// A row whose kind or size no column takes is Failed.
    fn put_row(&mut self, container: &[u8], name: &[u8], row: &Row) -> Result<(), StoreFault>
        ensures faults { CountsStoreFaults self.old.faults self.new.faults result }
        ensures forgets { OnOk result (self.new.latest ≡ None) }
        ensures runs { OnOk result (Commits (state S.Store) PUT.now
            (put_values container.now name.now row.now) self.old.connection self.new.connection) }
    {
        let Some(kind) = signed(row.kind) else {
            return Err(self.fail());
        };
        let Some(size) = signed(row.size) else {
            return Err(self.fail());
        };
        let _ = self.rows_put(container, name, kind, size, row)?;
        Ok(())
    }

    /// The row of an object that may list segments: none of one that has a body of its own.
    fn row_of_list(&mut self, container: &[u8], name: &[u8]) -> Result<Option<Row>, StoreFault>
        ensures { CountsStoreFaults self.old.faults self.new.faults result }
    {
        let Some(row) = self.row(statements::LISTED, params![container, name])? else {
            return Ok(None);
        };
        match row_in(&row) {
            Ok(row) => Ok(Some(row)),
            Err(error) => Err(self.refused(error)),
        }
    }

    /// Keeps the object that was read last, or none.
    fn keep(&mut self, latest: Option<Latest>)
        ensures latest { self.new.latest ≡ latest }
        ensures faults { self.new.faults ≡ self.old.faults }
        ensures connection { self.new.connection ≡ self.old.connection }
    {
        self.latest = latest;
    }

    /// Appends the bytes of a body that stands in a file.
    fn read_file(
        &mut self,
        place: Place,
        from: u64,
        end: u64,
        out: &mut Bytes,
    ) -> Result<(), StoreFault>
        ensures faults { CountsStoreFaults self.old.faults self.new.faults result }
        ensures err { OnErr result (out.new ≡ out.old) }
    {
        match self.beside.bodies.read(place, from, end) {
            Ok(part) => Ok(append_part(part, out)?),
            Err(fault) => Err(self.unread_body(fault)),
        }
    }

    /// Reads the object of that name, where it is there, and keeps it.
    fn look_up(&mut self, container: &[u8], name: &[u8]) -> Result<(), StoreFault>
        ensures { CountsStoreFaults self.old.faults self.new.faults result }
    {
        self.keep(None);
        let row = self.row(statements::OBJECT, params![container, name])?;
        match found_in(self.alloc, container, name, row) {
            Ok(found) => {
                self.keep(found);
                Ok(())
            }
            Err(fault) => Err(self.unread(fault)),
        }
    }
}

/// What a start finds of the tables and the files: it settles these. Beside it, a number above those of all commits and bodies.
fn begin<S: Alter + Drop>(
    alloc: Global,
    connection: &mut Connection<S>,
    beside: &Beside,
) -> Result<(Settled, u64), FileFault> {
    let last = tested_commit(connection, beside)?;
    let numbers = placed_numbers(alloc, connection)?;
    let settled = settle_beside(beside, &numbers)?;
    Ok((settled, settled.next.max(last.saturating_add(1))))
}

fn settle_beside(beside: &Beside, numbers: &[u64]) -> Result<Settled, FileFault> {
    match settle(&beside.bodies, numbers) {
        Ok(settled) => Ok(settled),
        Err(fault) => Err(fault_of_beside(fault)),
    }
}

/// The row of an object whose body stands in the file of a number, or in the row where there is none.
fn row_to_put(
    alloc: Global,
    object: &Stored,
    etag: Bytes,
    number: Option<u64>,
) -> Result<Row, Memory>
    requires row { HasRow object.now }
    requires etag { etag ≡ etag_of object.now.content }
    ensures { IfOk result (IsRowOf object.now) }
{
    match number {
        Some(number) => {
            let place = Bytes::from_slice(alloc, &number.to_be_bytes())?;
            row_with_place(alloc, object, etag, place)
        }
        None => row_with_etag(alloc, object, etag),
    }
}

/// Before the statement that ends a row: a start keeps the file or removes it, as the row is there.
fn retire_body(bodies: &BodyFolder, number: Option<u64>) {
    if let Some(number) = number {
        let _ = bodies.retire(number);
    }
}

/// After the statement that told of it.
fn keep_body(bodies: &BodyFolder, number: Option<u64>) {
    if let Some(number) = number {
        let _ = bodies.keep(number);
    }
}

/// After the statement that ended its row.
fn drop_body(bodies: &BodyFolder, number: Option<u64>) {
    if let Some(number) = number {
        let _ = bodies.remove(number);
    }
}

/// A text behind all texts of UTF-8 that begin with the prefix.
fn bound_of(alloc: Global, prefix: &[u8]) -> Result<Bytes, Memory> {
    match prefix {
        [front @ .., last] => {
            let mut bound = Bytes::from_slice(alloc, front)?;
            bound.push(last.saturating_add(1))?;
            Ok(bound)
        }
        [] => Bytes::from_slice(alloc, &[255]),
    }
}

fn segments_of(object: Stored) -> Option<List<Segment>> {
    let Stored {
        name: _,
        content_type: _,
        meta: _,
        content,
    } = object;
    match content {
        Content::Plain(_) => None,
        Content::Segments(segments) => Some(segments),
    }
}

fn number_of_readers(readers: ReadList) -> i64 {
    match readers {
        ReadList::Nobody => 0,
        ReadList::Everybody => 1,
    }
}

fn signed(number: u64) -> Option<i64>
    ensures { IfSome result (λ same. same ≡ pos number) }
{
    i64::try_from(number).ok()
}

fn signed_moment(moment: Option<u64>) -> Option<i64> {
    match moment {
        Some(moment) => signed(moment),
        None => None,
    }
}

impl<S: Alter + Drop> Shelf for KeptShelf<S> {
    ghost model = { λ s. kept_model s.faults };

    ghost made = { λ s observable. absurd (true≢false (sym observable)) };

    fn containers(&mut self, marker: &[u8], limit: u32) -> Result<List<Bytes>, StoreFault> {
        let rows = self.rows(statements::CONTAINERS, params![marker, limit])?;
        match names_in(self.alloc, rows.as_slice()) {
            Ok(names) => Ok(names),
            Err(error) => Err(self.refused(error)),
        }
    }

    fn container(&mut self, name: &[u8]) -> Result<Option<(ReadList, Option<u64>)>, StoreFault> {
        let Some(row) = self.row(statements::CONTAINER, params![name])? else {
            return Ok(None);
        };
        match container_in(&row) {
            Ok(told) => Ok(Some(told)),
            Err(error) => Err(self.refused(error)),
        }
    }

    fn is_bare(&mut self, container: &[u8]) -> Result<Option<bool>, StoreFault> {
        let Some(row) = self.row(statements::IS_BARE, params![container])? else {
            return Ok(None);
        };
        match row.get(0) {
            Ok(bare) => Ok(Some(bare)),
            Err(error) => Err(self.refused(error)),
        }
    }

    fn put_container(
        &mut self,
        name: &[u8],
        readers: ReadList,
        created: Option<u64>,
    ) -> Result<(), StoreFault> {
        let created = signed_moment(created);
        let _ = self.written(
            statements::PUT_CONTAINER,
            params![name, number_of_readers(readers), created],
        )?;
        Ok(())
    }

    fn drop_container(&mut self, name: &[u8]) -> Result<(), StoreFault> {
        let _ = self.written(statements::DROP_CONTAINER, params![name])?;
        Ok(())
    }

    fn names(
        &mut self,
        container: &[u8],
        prefix: &[u8],
        marker: &[u8],
        limit: u32,
    ) -> Result<List<NameItem>, StoreFault>
        ensures reads { ShelfReads (λ account items. items ≡ object_page limit prefix.now marker.now
            (files account container.now)) (kept_model self.old.faults) result
            (kept_model self.new.faults) }
        ensures prefixed { IfOk result (All (HasPrefix prefix.now)) }
    {
        let bound = bound_of(self.alloc, prefix)?;
        let rows = self.rows_of_names(container, prefix, marker, bound.as_slice(), limit)?;
        match items_in(self.alloc, prefix, rows.as_slice()) {
            Ok(items) => Ok(items),
            Err(error) => Err(self.refused(error)),
        }
    }

    fn head(&mut self, container: &[u8], name: &[u8]) -> Result<Option<StoredHead>, StoreFault> {
        let Some(row) = self.row(statements::HEAD, params![container, name])? else {
            return Ok(None);
        };
        match head_in(self.alloc, &row) {
            Ok(head) => Ok(Some(head)),
            Err(error) => Err(self.refused(error)),
        }
    }

    fn segments(
        &mut self,
        container: &[u8],
        name: &[u8],
    ) -> Result<Option<List<Segment>>, StoreFault> {
        let Some(row) = self.row_of_list(container, name)? else {
            return Ok(None);
        };
        match from_row(self.alloc, name, &row) {
            Ok(object) => Ok(segments_of(object)),
            Err(fault) => Err(self.unread(fault)),
        }
    }

    fn read(
        &mut self,
        container: &[u8],
        name: &[u8],
        from: u64,
        end: u64,
        out: &mut Bytes,
    ) -> Result<(), StoreFault> {
        if !is_latest(&self.latest, container, name) {
            self.look_up(container, name)?;
        }
        match place_of_latest(&self.latest) {
            Some(place) => self.read_file(place, from, end, out),
            None => Ok(append_latest(&self.latest, from, end, out)?),
        }
    }

    fn put(&mut self, container: &[u8], object: Stored, etag: Bytes) -> Result<(), StoreFault>
        requires etag { etag ≡ etag_of object.content }
        requires made { IsMadeObject object.name (object_of object) }
        ensures writes { ShelfWrites (put_file container.now object.name (object_of object))
            (kept_model self.old.faults) result (kept_model self.new.faults) }
        ensures runs { OnOk result (Puts (state S.Store) container.now object
            self.old.connection self.new.connection) }
    {
        self.put_object(container, &object, etag)
    }

    fn remove(&mut self, container: &[u8], name: &[u8]) -> Result<bool, StoreFault> {
        let before = self.look_for_place(container, name)?;
        retire_body(&self.beside.bodies, before);
        let count = self.written(statements::REMOVE, params![container, name])?;
        drop_body(&self.beside.bodies, before);
        Ok(count > 0)
    }
}

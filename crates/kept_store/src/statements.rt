//! The statements, as SQLite has them. What they do is shown by tests alone.

/// What is made is made in one transaction: where a table has other columns, nothing is left of it. What a call writes is committed
/// with its number.
pub(crate) const BEGIN: &str = "BEGIN";

pub(crate) const COMMIT: &str = "COMMIT";

pub(crate) const ROLLBACK: &str = "ROLLBACK";

/// Each table is made where it isn't there. A container that goes takes its objects with it.
pub(crate) const MAKE_CONTAINERS: &str =
    "CREATE TABLE IF NOT EXISTS containers (name BLOB NOT NULL PRIMARY KEY, readers INTEGER NOT NULL, created INTEGER) STRICT";

pub(crate) const MAKE_OBJECTS: &str =
    "CREATE TABLE IF NOT EXISTS objects (container BLOB NOT NULL REFERENCES containers (name) ON DELETE CASCADE, name BLOB NOT NULL, kind INTEGER NOT NULL, content_type BLOB NOT NULL, meta BLOB NOT NULL, size INTEGER NOT NULL, hash BLOB NOT NULL, body BLOB NOT NULL, PRIMARY KEY (container, name)) STRICT";

/// One row: the number of the last commit. Each commit has a higher one than all before.
pub(crate) const MAKE_COMMITS: &str =
    "CREATE TABLE IF NOT EXISTS commits (id INTEGER NOT NULL PRIMARY KEY, number INTEGER NOT NULL) STRICT";

/// Each column but the body: what reads no body reads this in place of the table.
pub(crate) const MAKE_HEADS: &str =
    "CREATE UNIQUE INDEX IF NOT EXISTS heads ON objects (container, name, kind, content_type, meta, size, hash)";

/// Refused where the tables that are there have other columns.
pub(crate) const TRY_CONTAINERS: &str = "SELECT name, readers, created FROM containers LIMIT 0";

pub(crate) const TRY_OBJECTS: &str =
    "SELECT container, name, kind, content_type, meta, size, hash, body FROM objects LIMIT 0";

pub(crate) const TRY_COMMITS: &str = "SELECT id, number FROM commits LIMIT 0";

pub(crate) const LAST_COMMIT: &str = "SELECT number FROM commits WHERE id = 1";

/// Within the transaction of each statement that writes.
pub(crate) const NUMBER: &str =
    "INSERT INTO commits (id, number) VALUES (1, ?1) ON CONFLICT (id) DO UPDATE SET number = excluded.number";

pub(crate) const CONTAINERS: &str =
    "SELECT name FROM containers WHERE name > ?1 ORDER BY name LIMIT ?2";

pub(crate) const CONTAINER: &str = "SELECT readers, created FROM containers WHERE name = ?1";

pub(crate) const IS_BARE: &str =
    "SELECT NOT EXISTS (SELECT 1 FROM objects WHERE container = ?1) FROM containers WHERE name = ?1";

pub(crate) const PUT_CONTAINER: &str =
    "INSERT INTO containers (name, readers, created) VALUES (?1, ?2, ?3) ON CONFLICT (name) DO UPDATE SET readers = excluded.readers, created = excluded.created";

pub(crate) const DROP_CONTAINER: &str = "DELETE FROM containers WHERE name = ?1";

/// The names from the second value on, and those behind it. The third value is behind all names with the prefix.
pub(crate) const NAMES_FROM: &str =
    "SELECT name, content_type, size, hash FROM objects WHERE container = ?1 AND name >= ?2 AND name < ?3 ORDER BY name LIMIT ?4";

pub(crate) const NAMES_BEHIND: &str =
    "SELECT name, content_type, size, hash FROM objects WHERE container = ?1 AND name > ?2 AND name < ?3 ORDER BY name LIMIT ?4";

pub(crate) const HEAD: &str =
    "SELECT kind, content_type, meta, size, hash FROM objects WHERE container = ?1 AND name = ?2";

pub(crate) const OBJECT: &str =
    "SELECT kind, content_type, meta, size, hash, body FROM objects WHERE container = ?1 AND name = ?2";

/// The same of an object that isn't of the kinds with a body of its own.
pub(crate) const LISTED: &str =
    "SELECT kind, content_type, meta, size, hash, body FROM objects WHERE container = ?1 AND name = ?2 AND kind <> 0 AND kind <> 2";

/// What stands in place of the body of an object whose own bytes stand in a file.
pub(crate) const PLACE: &str =
    "SELECT body FROM objects WHERE container = ?1 AND name = ?2 AND kind = 2";

pub(crate) const PLACES: &str = "SELECT body FROM objects WHERE kind = 2";

/// Into a container that isn't there no row is written.
pub(crate) const PUT: &str =
    "INSERT INTO objects (container, name, kind, content_type, meta, size, hash, body) SELECT ?1, ?2, ?3, ?4, ?5, ?6, ?7, ?8 FROM containers WHERE name = ?1 ON CONFLICT (container, name) DO UPDATE SET kind = excluded.kind, content_type = excluded.content_type, meta = excluded.meta, size = excluded.size, hash = excluded.hash, body = excluded.body";

pub(crate) const REMOVE: &str = "DELETE FROM objects WHERE container = ?1 AND name = ?2";

/// Where the tables are written anew. A table beside these three is of another program.
pub(crate) const OTHERS: &str =
    "SELECT count(*) FROM sqlite_schema WHERE type = 'table' AND name NOT IN ('containers', 'objects', 'commits')";

pub(crate) const EACH_CONTAINER: &str =
    "SELECT rowid, name, readers, created FROM containers WHERE rowid > ?1 ORDER BY rowid LIMIT 100";

pub(crate) const COPY_CONTAINER: &str =
    "INSERT INTO containers (name, readers, created) VALUES (?1, ?2, ?3)";

pub(crate) const EACH_OBJECT: &str =
    "SELECT rowid, container, name, kind, content_type, meta, size, hash, body FROM objects WHERE rowid > ?1 ORDER BY rowid LIMIT 100";

pub(crate) const COPY_OBJECT: &str =
    "INSERT INTO objects (container, name, kind, content_type, meta, size, hash, body) VALUES (?1, ?2, ?3, ?4, ?5, ?6, ?7, ?8)";

pub(crate) const EACH_COMMIT: &str =
    "SELECT rowid, id, number FROM commits WHERE rowid > ?1 ORDER BY rowid LIMIT 100";

pub(crate) const COPY_COMMIT: &str = "INSERT INTO commits (id, number) VALUES (?1, ?2)";

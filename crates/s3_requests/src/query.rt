//! Which names the query of a request may have: those of the rows, and of its row those that the row has.
ghost use Rattle.std.specs.Prelude.{◌≡◌};
ghost use Rattle.request_fields.specs.Query.{counts_as_query_name};
ghost use Rattle.s3_requests.specs.Query.{is_extended_pair, is_foreign, has_foreign_name, is_unknown, has_unknown_name};

use crate::rows::{Row, is_known_query_name, is_query_name_of_row};
use gate_base::Pair;
use request_fields::{counts_as_query_name, has_query_name};

fn is_unknown(pair: &Pair) -> bool
    ensures { result ≡ is_unknown pair.now }
{
    !is_known_query_name(pair.name.as_slice())
}

/// Whether the query has a name that no row has.
pub fn has_unknown_name(query: &[Pair]) -> bool
    ensures { result ≡ has_unknown_name query.now }
{
    query
        .iter()
        .filter(|pair| counts_as_query_name(pair))
        .any(|pair| is_unknown(pair))
}

/// Whether the extended profile has this of the row: of a listing of uploads an empty delimiter, and the encoding of its texts.
fn is_extended_pair(row: Row, pair: &Pair) -> bool
    ensures { result ≡ is_extended_pair row pair.now }
{
    match row {
        Row::ListMultipartUploads => {
            (has_query_name(b"delimiter", pair) && pair.value.len() == 0)
                || has_query_name(b"encoding-type", pair)
        }
        _ => false,
    }
}

fn is_foreign(extended: bool, row: Row, pair: &Pair) -> bool
    ensures { result ≡ is_foreign extended row pair.now }
{
    !is_query_name_of_row(pair.name.as_slice(), row) && !(extended && is_extended_pair(row, pair))
}

/// Whether the query has a name that the row doesn't have.
pub fn has_foreign_name(extended: bool, row: Row, query: &[Pair]) -> bool
    ensures { result ≡ has_foreign_name extended row query.now }
{
    query
        .iter()
        .filter(|pair| counts_as_query_name(pair))
        .any(|pair| is_foreign(extended, row, pair))
}

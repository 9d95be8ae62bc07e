//! The names of a query and their values. `x-id`, by which clients name the operation a second time, is none of the names.
ghost use Rattle.std.specs.Prelude.{◌≡◌, filter, find, bytes_eq};
ghost use Rattle.std.specs.Option.{option_copied};
ghost use Rattle.request_fields.specs.Query.{counts_as_query_name, is_asked, occurrences, is_given_twice, has_name_twice, text_at};

use gate_base::Pair;

/// Whether the pair counts among the names of the query.
pub fn counts_as_query_name(pair: &Pair) -> bool
    ensures { result ≡ counts_as_query_name pair.now }
{
    pair.name.as_slice() != b"x-id".as_slice()
}

/// Whether the pair has the name.
pub fn has_query_name(name: &[u8], pair: &Pair) -> bool
    ensures { result ≡ bytes_eq pair.now.name name.now }
{
    pair.name.as_slice() == name
}

/// Whether the query has the name.
pub fn is_asked(query: &[Pair], name: &[u8]) -> bool
    ensures { result ≡ is_asked query.now name.now }
{
    query
        .iter()
        .filter(|pair| counts_as_query_name(pair))
        .any(|pair| has_query_name(name, pair))
}

/// How often the query has the name.
fn occurrences(name: &[u8], query: &[Pair]) -> usize
    ensures { result ≡ occurrences name.now query.now }
{
    query
        .iter()
        .filter(|pair| counts_as_query_name(pair))
        .filter(|pair| has_query_name(name, pair))
        .count()
}

fn is_given_twice(query: &[Pair], pair: &Pair) -> bool
    ensures { result ≡ is_given_twice query.now pair.now }
{
    1 < occurrences(pair.name.as_slice(), query)
}

/// Whether the query has a name twice.
pub fn has_name_twice(query: &[Pair]) -> bool
    ensures { result ≡ has_name_twice query.now }
{
    query
        .iter()
        .filter(|pair| counts_as_query_name(pair))
        .any(|pair| is_given_twice(query, pair))
}

/// The value of a name, nothing where the query doesn't have the name.
pub fn text_at<'a>(query: &'a [Pair], name: &[u8]) -> &'a [u8]
    ensures { result.now ≡ text_at name.now query.now }
{
    match first_query_pair(query, name) {
        Some(pair) => pair.value.as_slice(),
        None => b"",
    }
}

fn first_query_pair<'a>(query: &'a [Pair], name: &[u8]) -> Option<&'a Pair>
    ensures { option_copied result ≡ find (λ pair. bytes_eq pair.name name.now) query.now }
{
    query.iter().find(|pair| has_query_name(name, pair))
}

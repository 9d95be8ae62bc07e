//! Laws of the definitions, each the contract of a function that does nothing.
ghost use Rattle.request_fields.specs.Laws.{GivenMeta, RangeAsked, SourceNamed, TokenReturns};

/// The metadata of headers has their entries and no other, each name once and in order.
pub fn law_given_meta()
    ensures { GivenMeta }
{}

/// The value of a Range header is read as a range exactly where it asks for that range, in its whole text.
pub fn law_range_asked()
    ensures { RangeAsked }
{}

/// The token that a listing prints for the text of its last item is read as that text.
pub fn law_token_returns()
    ensures { TokenReturns }
{}

/// The text of `x-amz-copy-source` is read as a bucket and a key exactly where it stands for them, with `/` between, behind one
/// leading `/` or none.
pub fn law_source_named()
    ensures { SourceNamed }
{}

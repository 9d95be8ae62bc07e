//! Laws of the definitions, each the contract of a function that does nothing.
ghost use Rattle.s3_names.specs.Laws.{IdReadsBack, WithPair};

/// A pair whose name is new goes into metadata in its place: the names still ascend, and nothing else comes or goes.
pub fn law_with_pair()
    ensures { WithPair }
{}

/// An id is read back from its digits, so no two have the same.
pub fn law_id_reads_back()
    ensures { IdReadsBack }
{}

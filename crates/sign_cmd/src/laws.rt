//! The laws of the definitions: each is the contract of a function that does nothing.
ghost use Rattle.sign_cmd.specs.Laws.{NamesOnce, OneAnswer};

/// The headers of a request determine the list of the names that are signed.
pub fn law_names_once()
    ensures { NamesOnce }
{}

/// What the first connection sends determines the answer, unless the line fails or memory runs out.
pub fn law_one_answer()
    ensures { OneAnswer }
{}

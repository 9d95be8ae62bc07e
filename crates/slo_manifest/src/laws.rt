//! The laws of the definitions: contracts of functions that do nothing.
ghost use Rattle.slo_manifest.specs.Laws.{ByteLies, OneAnswer, TextReadsBack};

/// Each text has just one answer of `read`, unless memory runs out.
pub fn law_one_answer()
    ensures { OneAnswer }
{}

/// The text of segments that a manifest may list is read as those segments, in both forms.
pub fn law_text_reads_back()
    ensures { TextReadsBack }
{}

/// A byte of joined bodies is the byte of the one body in which `cover` says that it lies.
pub fn law_byte_lies()
    ensures { ByteLies }
{}

//! The laws of the definitions: contracts of functions that do nothing.
ghost use Rattle.upload_texts.specs.Laws.{RecordHasOneText, SealedHasOneText};

/// What reads as a record is the one text that this has.
pub fn law_record_has_one_text()
    ensures { RecordHasOneText }
{}

/// What reads as a sealed completion is the one text that this has.
pub fn law_sealed_has_one_text()
    ensures { SealedHasOneText }
{}

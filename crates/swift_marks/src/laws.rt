//! The laws of the definitions: the contracts of functions that do nothing.
ghost use Rattle.swift_marks.specs.Laws.{TagTextReads, TagHasOneText, PackUnpacks, MetadataHasOnePack, EtagForms, TagIsField, PackIsSmall};

/// The text of a tag reads as the tag.
pub fn law_tag_text_reads()
    ensures { TagTextReads }
{}

/// What a text reads as has a text, and it is that one.
pub fn law_tag_has_one_text()
    ensures { TagHasOneText }
{}

/// The pack of metadata unpacks to the metadata.
pub fn law_pack_unpacks()
    ensures { PackUnpacks }
{}

/// What pieces unpack to has a pack, and it is those pieces.
pub fn law_metadata_has_one_pack()
    ensures { MetadataHasOnePack }
{}

/// 32 hexadecimal digits in lower case are an ETag, and so are they with `-` and a number from 1 to 10000.
pub fn law_etag_forms()
    ensures { EtagForms }
{}

/// The text of a tag has 1 to 512 bytes of visible ASCII and spaces without a space at either end, as a store takes a
/// content type.
pub fn law_tag_is_field()
    ensures { TagIsField }
{}

/// Metadata within the limits packs into at most 11 pieces, each of 1 to 256 bytes of visible ASCII and spaces without
/// a space at either end, as a store takes metadata.
pub fn law_pack_is_small()
    ensures { PackIsSmall }
{}

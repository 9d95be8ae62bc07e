//! The laws of the answers: contracts of functions that do nothing.
ghost use Rattle.swift_replies.specs.AnswerLaws.{OneReply, OneAnswer, ReadsBack};

use slo_manifest::law_text_reads_back;

/// No bytes spell two replies to one call.
pub fn law_one_reply()
    ensures { OneReply }
{}

/// Bytes that spell a reply are one whole answer: `answer_end` finds its end at theirs.
pub fn law_one_answer()
    ensures { OneAnswer }
{}

/// A reply that has a spelling to a call is read back from what is written for it.
pub fn law_reads_back()
    ensures { ReadsBack }
{
    law_text_reads_back();
}

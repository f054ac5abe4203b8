//! Laws of lists of edits.
ghost use Rattle.section_edits.specs.SessionLaws.{OneMoreIsApplied, NoneIsBoth, OneRefusal, OneResult};

/// A law: a session that takes edits one by one has the sections that the whole list of edits makes of those that it
/// was opened with.
pub fn edits_add_up()
    ensures { OneMoreIsApplied }
{}

/// A law: an edit of sections is applied or refused, not both; it has one refusal; and a list of edits has one result.
pub fn edits_are_one()
    ensures none { NoneIsBoth }
    ensures one_refusal { OneRefusal }
    ensures one { OneResult }
{}

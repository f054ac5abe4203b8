//! A law of lines of edits.
ghost use Rattle.section_edits.specs.Laws.{OneEdit};

/// A law: a line stands for at most one edit.
pub fn lines_have_one_edit()
    ensures one_edit { OneEdit }
{}

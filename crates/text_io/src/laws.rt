//! Why written lines can be read again.
ghost use Rattle.std.specs.Prelude.{List};
ghost use Rattle.std.specs.List.{flat_map, AllByRecursion, AllZip};
ghost use Rattle.text_io.specs.Text.{kept_lines};
ghost use Rattle.text_io.specs.WordLists.{Word, Matches, lines_of, line_text, IsWritableLine};

/// Lines of words, written with one blank between words and a line feed after every line, are read as these lines.
pub fn written_lines_are_read()
    ensures { (ls : List (List Word))
        → AllByRecursion IsWritableLine ls
        → AllZip Matches (lines_of (kept_lines (flat_map line_text ls))) ls }
{}

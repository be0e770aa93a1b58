//! Laws of all texts and of the scripts that they write, each the contract of a function.
ghost use Rattle.wasmi_grammar.specs.Meanings.{FirstBadLinesAreOne, TextsWriteOneScript, WrittenTextsHaveNoBadLine};

/// Two scripts that one text writes say the same. A list counts by its items, however it is held.
pub fn texts_write_one_script()
    ensures { TextsWriteOneScript }
{}

/// The first bad line of a text is one number.
pub fn first_bad_lines_are_one()
    ensures { FirstBadLinesAreOne }
{}

/// A text that writes a script has no bad line.
pub fn written_texts_have_no_bad_line()
    ensures { WrittenTextsHaveNoBadLine }
{}

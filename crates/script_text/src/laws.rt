//! Laws that pin the definitions of the grammar; no code keeps them.
ghost use Rattle.script_text.specs.Laws.{DoneEndsTheText, PrefixIsRead, SkippedLineMoves, LinesAreTested, WrittenScriptIsRead};

/// What follows the line feed of the `done` line is not looked at.
pub fn done_ends_the_text()
    ensures { DoneEndsTheText }
{}

/// The prefix that a script takes is a script by itself, is read alike, and has as many lines as the answer says; where it ends in a line
/// feed, it is read alike whatever follows it.
pub fn prefix_is_read()
    ensures { PrefixIsRead }
{}

/// A line that is skipped changes only the numbers of lines and bytes.
pub fn skipped_line_moves()
    ensures { SkippedLineMoves }
{}

/// A line that is not skipped does what its list of tests says, in the order of that list.
pub fn lines_are_tested()
    ensures { LinesAreTested }
{}

/// A script that is written out is read as its commands, whatever follows it.
pub fn written_script_is_read()
    ensures { WrittenScriptIsRead }
{}

//! Laws: what bytes spell is one, a run has a text, and which processes have started.

ghost use Rattle.journal_text.specs.Journals.{HasOneFirstBadLine, SpellsOnlyOne, SpellsOrIsBad};
ghost use Rattle.journal_text.specs.RunTexts.{PrintedHasNames, RunHasLines, RunIsReadAgain};
ghost use Rattle.journal_text.specs.Starts.{StartsWhereSpawned, TextSpawns, UnstartedIsNotStarted};

/// In the names of a script, bytes spell one list of commits at most, or else one line is their first bad
/// one: so each answer of `read_journal` but for want of memory is the only one.
pub fn journal_text_laws()
    ensures one { SpellsOnlyOne }
    ensures apart { SpellsOrIsBad }
    ensures first { HasOneFirstBadLine }
{}

/// The commits of a run of a script that was read have lines: their threads and channels are declared, and
/// their numbers are in range. So the text of its journal is read as that journal again. And what its
/// processes print is named by the script.
pub fn run_text_law()
    ensures lines { RunHasLines }
    ensures again { RunIsReadAgain }
    ensures printed { PrintedHasNames }
{}

/// A process of a script has started where no text spawns it, and else where one that has started spawned it:
/// what a process spawns its text spawns, and no other text does. It is told of as unstarted exactly where it has
/// not started.
pub fn start_law()
    ensures text { TextSpawns }
    ensures starts { StartsWhereSpawned }
    ensures told { UnstartedIsNotStarted }
{}

//! The texts, one for each fault, and which topics there are. An example's file stands by two spaces to the right.

pub(crate) const CONTENTS: &str = "\
pcml explain N, or a word of these, tells more:
  1              memory ran out
  2              a step of a schedule is not allowed
  3              a number of rows that is not 1 to 1024
  4, 5           told no more
  6              a thread could not be started
  7              the seasons do not suffice
  8              a number of seasons that is not 1 to 65535
  11             a token of a script is none, or stands where it may not
  12             a name of a script stands for nothing
  13             a name of a script stands for something already
  14             a script has more than its limits allow
  15             a loop of a script does not begin with a sync
  16             a script is too long
  21             a line of a journal is not of the form
  22             a line of a schedule is not of the form
  23             a journal or a schedule is too long
  31             a file cannot be read
  32             an output cannot be written
  unset          a process read a variable before it was set
  kind           a process had a value of another kind
  range          a process came to a number out of range, or to a nack too many
  shape          a process got a message of another size
  waiting        a process stands in a sync that nobody takes
  spent          a process made as many syncs as it may
  unstarted      a process was not spawned
  stranded       a process can never move any more
  left           a process can never end any more
  faulted        a process stopped at a fault of its own
  printed        a process prints a value in some run
  deadlock       processes wait for one another
  nack           what tells others that a sync took something else
  journal        what a run's lines say
  stamp          the number that a line begins with
  tail           the commits of a run that its workers left
  lawful         a journal is a run of the script
  maximal        no commit may come next
  outcome        how all processes end, and what they print
  configuration  how far the processes have come
";

pub(crate) const MEMORY: &str = "\
fault 1: memory ran out
comes about: the system, or a limit set on the process, gave the program no more memory.
what to do: run it where there is more, or ask for less, by a smaller file, --rows or --limit.
";

pub(crate) const NOT_ALLOWED: &str = "\
fault 2 step K: step K of the schedule, from 1, is not allowed
example: pcml play FILE tells step 1, since a row is claimed only once it is open, where FILE is
  world 1 1 1
  0 claim 0.0
what to do: make the steps that it needs before step K, or take it out.
With no step it is a number of workers that is not 1 to 16, which no command line can ask for.
";

pub(crate) const ROWS: &str = "\
fault 3: a number of rows that is not 1 to 1024
comes about: where a program calls the library so. No command line can ask for it.
what to do: ask for 1 to 1024 rows.
";

pub(crate) const LOST: &str = "\
fault 4: a process that has not ended has no machine behind a season
comes about: no more. pcml run with --seasons told it where a worker gave no machine back at a season's end; now it goes
on without that machine.
what to do: nothing. The number is kept, and no other fault has it.
";

pub(crate) const UNLAWFUL: &str = "\
fault 5: the commits of all seasons are no run of the script
comes about: no more. pcml run with --seasons told it where a replay of what the seasons left refused it; now it is proved
that they are a run.
what to do: nothing. The number is kept, and no other fault has it.
";

pub(crate) const NO_THREAD: &str = "\
fault 6: a thread could not be started
comes about: the system gave pcml run or pcml meet fewer threads than it asks for, or too little memory for their
stacks.
what to do: ask for fewer by --workers, or raise the limit on threads (ulimit -u) or on memory (ulimit -v).
";

pub(crate) const SEASONS: &str = "\
fault 7: the seasons do not suffice
comes about: where the run of pcml run with --seasons K needs a season more than K, or a process of it comes
to one sync more than K times the number of --rows.
what to do: ask for more seasons, by a greater --seasons, or for more syncs in each, by a greater --rows. A
script that never ends needs more of any number: without --seasons its run ends where the rows are spent.
";

pub(crate) const SEASON_COUNT: &str = "\
fault 8: a number of seasons that is not 1 to 65535
comes about: where a program calls the library so. No command line can ask for it.
what to do: ask for 1 to 65535 seasons.
";

pub(crate) const SYNTAX: &str = "\
fault 11 line L: a token on line L of the script is none, or the grammar does not allow it there
example: pcml check FILE tells line 2, since a `;` is missing before the `}`, where FILE is
  process a {
    print 1 }
what to do: look at line L, and at what is missing before it: a missing `;` is told of the line where the
next token stands. There are no comments, and each `if` has an `else`. docs/FORMATS.md has the grammar.
";

pub(crate) const UNKNOWN_NAME: &str = "\
fault 12 line L: a name on line L of the script stands for nothing
example: pcml check FILE tells line 1, since nothing binds x, where FILE is
  process a { print x; }
Behind `spawn` and `joined` stands the name of a process whose block has ended before: no process names
itself, or one that stands behind it.
what to do: bind the name, declare the channel or write the process before it is read, or correct how the
name is spelled.
";

pub(crate) const TWICE: &str = "\
fault 13 line L: a name on line L of the script stands for something already
example: pcml check FILE tells line 2, since c is a channel already, where FILE is
  channel c;
  channel c;
It is told of a second `spawn` of one process too, wherever in the script the first stands.
what to do: give one of the two another name, or spawn the process at one place alone.
";

pub(crate) const TOO_MANY: &str = "\
fault 14 line L: on line L of the script is more than its limits allow
example: pcml check FILE tells line 1, since a list has at most three members, where FILE is
  process a { sync always (1, 2, 3, 4); }
what to do: take something out, or split it. docs/FORMATS.md has the limits.
";

pub(crate) const LOOP_WITHOUT_SYNC: &str = "\
fault 15 line L: the loop whose word is on line L of the script does not begin with a sync
example: pcml check FILE tells line 1, where FILE is
  process a { forever { print 1; } }
what to do: begin the loop with a sync. `sync always ();` is one that waits for nobody.
";

pub(crate) const TOO_LONG: &str = "\
fault 16: the script has more than 65,536 bytes
comes about: where FILE of pcml check, run, replay, why, chart, outcomes, next or stats is so long, or never
ends, as a device.
what to do: shorten the script.
";

pub(crate) const BAD_LINE: &str = "\
fault 21 line L: line L of the journal is not of the form
example: pcml replay FILE JOURNAL tells line 1, since `( )` has a space, where FILE is
  process a { sync always (); }
and JOURNAL is
  1 a.0.0 always ( )
what to do: write the line as pcml run does, with names that the script declares. docs/FORMATS.md has the
form. Where the script and its journal are exchanged, the script is what cannot be read: fault 11.
";

pub(crate) const BAD_STEP: &str = "\
fault 22 line L: line L of the schedule is not of the form
example: pcml play FILE tells line 2, since there is no step of this word, where FILE is
  world 1 1 1
  0 jump 0.0
what to do: write the line as docs/FORMATS.md has it. Line 1 is the world, also of an empty file.
";

pub(crate) const TOO_LARGE: &str = "\
fault 23: the journal or the schedule has more than 16,777,216 bytes
comes about: where JOURNAL of pcml replay, why, chart, next or stats, or FILE of pcml play, is so long, or
never ends, as a device. pcml run with --journal keeps a longer one, and says so.
what to do: shorten it. Any beginning of a journal, in whole lines, is a journal of the same script.
";

pub(crate) const UNREAD: &str = "\
fault 31: a file cannot be read
comes about: where it is not there, is a folder, may not be read, or fails before it ends.
what to do: look at how the file is spelled, and at who may read it.
";

pub(crate) const UNWRITTEN: &str = "\
fault 32: an output cannot be written
comes about: where a disk is full, or whoever reads the output has ended: part of it may be out.
Or the file TO of --journal, and then nothing is out: TO is a folder, a device or a link that leads to none
but such, the script itself, or where the output goes; or it may not be written, or its folder is not there,
may not be written or is full.
what to do: write to where there is room, or let the reader read to the end; name another TO.
";

//! The texts, one for each word. An example's file stands by two spaces to the right.

pub(crate) const UNSET: &str = "\
unset: a process stopped at a variable that was read before anything set it
example: pcml run FILE tells a faulted unset, where FILE is
  process a { if 1 = 2 { let x = 1; } else { } print x; }
what to do: set the variable on each way that leads to where it is read. pcml why FILE JOURNAL tells the line.
";

pub(crate) const KIND: &str = "\
kind: a process stopped at a value of another kind than is wanted there
comes about: where `+`, `-` or `<` has what is no number, `send` or `recv` what is no channel, or `cancelled`
what is no nack.
example: pcml run FILE tells a faulted kind, where FILE is
  process a { let x = 7; sync send x (); }
what to do: look at what the variable holds there. pcml why FILE JOURNAL tells the line.
";

pub(crate) const RANGE: &str = "\
range: a process stopped at a number below 0 or above 4294967295, or at its 65th nack
example: pcml run FILE tells a faulted range, where FILE is
  process a { print 7 - 8; }
what to do: test with `<` before something is taken away; make fewer nacks, as by more processes.
";

pub(crate) const SHAPE: &str = "\
shape: a process stopped at a message that has more atoms than there are names for it, or fewer
comes about: where `x, y <- sync ..` or `as x, y` takes a message that has not as many atoms. A send, a nack
and an end give the empty message.
example: pcml run FILE tells a faulted shape, where FILE is
  process a { x <- sync always (); }
what to do: write as many names as the message has atoms, or none.
";

pub(crate) const WAITING: &str = "\
waiting: a process stands in a sync that nobody takes, and nothing more happens
comes about: also in a script that is as it should be, as a server that nobody asks any more.
example: pcml run FILE tells a waiting, where FILE is
  channel c; process a { sync send c (1); }
what to do: pcml why FILE JOURNAL tells where it waits, for what, and who waits for one another; pcml outcomes
FILE --need NAMES whether one of these may be stranded.
";

pub(crate) const SPENT: &str = "\
spent: a process came to one more sync than --rows allows, and does not offer it
example: pcml run FILE --rows 4 tells a spent, where FILE is
  process a { forever { sync always (); } }
what to do: allow more by --rows, at most 1024, or run it in seasons by --seasons. replay, why, chart and next have
to be told the --rows of the run. Without --rows outcomes is of runs of any length, in which none is spent.
";

pub(crate) const UNSTARTED: &str = "\
unstarted: a process that another one spawns was not spawned
comes about: where the process with the `spawn` did not come there. It printed nothing.
example: pcml run FILE tells kid unstarted, where FILE is
  channel c; process kid { print 1; } process a { sync recv c; spawn kid; }
what to do: look at where the process stands that is to spawn it.
";

pub(crate) const STRANDED: &str = "\
stranded: no way leads on to a commit of a process, nor to where it ends without a fault
comes about: where it waits for what never comes, though others may go on for ever; where it has faulted; where nobody
will spawn it. Who could move and is never chosen is not stranded, nor who can always take a time-out.
example: pcml outcomes FILE tells stranded a after 0 commits, where FILE is
  channel c; process a { sync send c (1); } process clock { forever { sync always (); } }
what to do: pcml outcomes FILE --need NAMES --journal TO tells whether one of these may be stranded, by status 3, and
keeps a run that leads there; pcml why FILE TO tells then what it waits for.
";

pub(crate) const LEFT: &str = "\
left: some run leads to where a process can never end any more, whatever follows
comes about: where it waits for what never comes, though others may go on for ever; and of each process that never
ends by itself. Who has faulted has ended, and who was never started has not.
example: pcml outcomes FILE --left a tells left a states 1, where FILE is
  channel c; process a { sync send c (1); } process clock { forever { sync always (); } }
what to do: pcml outcomes FILE --left NAMES --journal TO keeps a run that leads there; pcml why FILE TO tells then
what it waits for. Who can still move is asked by --need.
";

pub(crate) const FAULTED: &str = "\
faulted: a process stopped at a fault of its own: unset, kind, range or shape
comes about: in a run, or in an outcome. Runs that go on for ever come to no outcome: --faults looks at these too.
example: pcml outcomes FILE --faults tells fault a states 2, where FILE is
  process clock { forever { sync always (); } } process a { sync always (); let x = x; }
what to do: pcml outcomes FILE --faults --journal TO keeps a run that leads there; pcml why FILE TO tells where and
why. A read of a name that is never set, as here, says what must never be reached.
";

pub(crate) const PRINTED: &str = "\
printed: some run has a process print a value, whether the run ends or goes on for ever
comes about: outcomes has the prints of runs that end. --never NAME=VALUE looks at all runs, for each value named.
example: pcml outcomes FILE --never a=7 tells printed a 7 states 1, where FILE is
  process a { forever { sync always (); print 7; } }
what to do: where it must never be printed, pcml outcomes FILE --never NAME=VALUE --journal TO has status 3 and keeps
a run that leads there. With status 0 no run does.
";

pub(crate) const DEADLOCK: &str = "\
deadlock: processes wait for one another, and none of them goes on
comes about: where each of them stands in a sync that only another one of them could take.
example: pcml run FILE --why tells waiting for one another: a b, where FILE is
  channel c; channel d;
  process a { sync send c (1); sync recv d; }
  process b { sync send d (2); sync recv c; }
what to do: look at the lines that it tells behind that. pcml outcomes FILE --need a,b tells whether any run keeps
one of the two from its end: the status is then 3, and --journal TO keeps such a run.
";

pub(crate) const NACK: &str = "\
nack: what tells others that a sync took something else
comes about: where `nack n { .. } E` is offered, n is set to a new nack, which a process can send to others. It is
enabled once the sync takes what is not in E, and stays so: `cancelled n` may be taken then, by anybody.
example: pcml run FILE tells b ended 1, since a takes the always, where FILE is
  channel c;
  process a { sync choose [nack n { sync send c (n); } never, always ()]; }
  process b { n <- sync recv c; sync cancelled n; print 1; }
what to do: offer `cancelled n` beside the answer to a request. A process makes at most 64 nacks.
";

pub(crate) const JOURNAL: &str = "\
journal: the rendezvous of a run, a line for each, in the order of their stamps
comes about: pcml run prints it, and with --journal TO keeps it in a file. A line is one of
  1 a.0.0 -> b.0.0 c (42)        stamp 1: sync 0 of a, by its offer 0, sent 42 on c to sync 0 of b
  2 a.1.1 always ()              stamp 2: sync 1 of a took its offer 1, an always
  3 b.1.0 cancelled a.0          stamp 3: sync 1 of b took that nack 0 of a is enabled
  4 b.2.0 joined a               stamp 4: sync 2 of b took that a has ended
Any beginning of a journal is a journal: so head -n 3 JOURNAL | pcml why FILE - tells how it stood then.
what to do: pcml replay tells if it is one, why, chart, next and stats tell of it. docs/FORMATS.md has the form.
";

pub(crate) const STAMP: &str = "\
stamp: the number with which a line of a journal begins
comes about: it is one more than the greatest of the lines that had to come before: those of its processes,
of what spawned them, of what enabled its nack, and of the process whose end it takes. So lines of one stamp
may have happened side by side, and the greatest stamp is how many had to follow one another.
what to do: pcml chart draws a journal by its stamps.
";

pub(crate) const TAIL: &str = "\
tail: how many commits of a run its workers left, and were added at its end
comes about: the last line of pcml run is commits N tail M: the workers made N - M of the N commits.
what to do: nothing. The run is whole, and its journal has all N lines. In all tests M is 0.
";

pub(crate) const LAWFUL: &str = "\
lawful: the lines of a journal are a run of the script
comes about: pcml replay tells lawful N maximal or lawful N open, of N lines. Each is then a commit that may come where
those before it lead, with its stamp. Else it tells unlawful at line L: the lines before that are a run.
example: pcml replay FILE JOURNAL tells unlawful at line 2, where FILE is
  process a { sync always (); }
and JOURNAL is
  1 a.0.0 always ()
  2 a.1.0 always ()
what to do: pcml why FILE JOURNAL tells what of line L is wrong.
";

pub(crate) const MAXIMAL: &str = "\
maximal: no commit may come next
comes about: pcml replay tells lawful N maximal of a run behind which none may come, of as many syncs a process as
--rows says, and lawful N open of another. What pcml run prints is maximal.
example: pcml replay FILE JOURNAL tells lawful 1 maximal, where FILE is
  process a { sync always (); }
and JOURNAL is
  1 a.0.0 always ()
what to do: where it is open, pcml next FILE JOURNAL tells which commits may come next.
";

pub(crate) const OUTCOME: &str = "\
outcome: how each process ends and what it prints, at the end of a maximal run
comes about: where several events may be taken, a run takes one of them. So a script can have several outcomes, and
a run shows one.
example: pcml outcomes FILE tells two, where FILE is
  process a { x <- sync choose [always (1), always (2)]; print x; }
what to do: pcml outcomes FILE tells all of them and whether every run ends, with --only NAMES by these processes
alone, and with --need NAMES those alone in which one of these has not ended.
";

pub(crate) const CONFIGURATION: &str = "\
configuration: how far each process has come, by what each of its syncs was given
comes about: pcml outcomes --rows G goes from one to the next, and its last line tells how many it saw. Without --rows
those are one, a state, in which the same is left to do, and whoever is told has printed the same. Where there are more
than --limit allows, that line ends with cut.
example: pcml outcomes FILE tells states 3, where FILE is
  process a { x <- sync choose [always (1), always (2)]; print x; }
what to do: where it ends with cut, allow more by --limit, at most 4194304, or have fewer by --only or fewer messages.
";

//! The manual page, which `tools/manual --write` writes here from `docs/pcml.1`.

/// The page as text of at most 79 columns.
pub(crate) const PAGE: &str =
    "PCML(1)                         User commands                         PCML(1)

NAME
       pcml - run, check and replay scripts of Concurrent ML's first-class
       events

SYNOPSIS
       pcml run FILE [--workers N] [--rows G] [--seasons K] [--journal TO]
       [--quiet] [--why] [--need NAMES]
       pcml replay FILE JOURNAL [--rows G] [--seasons K]
       pcml why FILE JOURNAL [--rows G] [--seasons K]
       pcml why FILE [--short]
       pcml chart FILE JOURNAL [--rows G] [--seasons K] [--from S] [--to S]
       [--only NAMES] [--as FORM]
       pcml next FILE [JOURNAL] [--rows G]
       pcml outcomes FILE [--rows G] [--limit C] [--waiting] [--need NAMES]
       [--only NAMES] [--first] [--journal TO [--of K]]
       pcml outcomes FILE --left NAMES [--limit C] [--journal TO]
       pcml outcomes FILE --faults [--limit C] [--journal TO]
       pcml outcomes FILE --never NAME=VALUE [--limit C] [--journal TO]
       pcml check FILE
       pcml play FILE
       pcml stats FILE JOURNAL [--rows G] [--seasons K]
       pcml explain [N]
       pcml manual
       pcml version
       pcml meet V
       pcml help [COMMAND]

DESCRIPTION
       A script declares channels and processes. Its processes send and
       receive on the channels, offer several events at once, wait for nacks,
       start others and wait for their ends, on one worker or several. What a
       run comes to is its journal: a line for each rendezvous, with its
       stamp.

       A script may have several outcomes: of several events that may be
       taken any one is, and the next run may take another. A run shows one
       of them, outcomes all.

COMMANDS
       run    Runs the processes of a script, and prints the journal, a line
              for each process and the counts: how many commits there are,
              and behind tail how many of them the workers had not made when
              they were done. Those were added at the end, so that the run is
              whole; there were none in any run of the tests.  Standard error
              says how many processes are spent, and what went wrong in each
              that faulted, unless --why tells it.

       replay Replays a journal against its script, and prints how each
              process stands, and whether a commit may still come; or the
              first line with which the journal is no run.

       why    Tells why each process stands where a journal leads it: of one
              that waits the line of its sync, its variables and each of its
              offers, with who could meet it and who makes the same, and
              whether by the script's text nobody ever can; of one that
              faulted where and why, with the value that was there; and at
              the end which processes wait for one another, and a line for
              each two of them of which one waits for the other, with where
              that one could serve it. Of a journal that is no run it tells
              the first line with which it is none, as replay, and behind it
              which part of the rule does not hold of that line.  Without a
              journal it tells why the text is no script: its first fault
              with line and column, the line with a mark under the place,
              what helps where something is known, and what may stand there;
              of a script, that it is one. With --short it is one line.

       chart  Draws a journal against its script, as SVG: a line of life for
              each process, in the journal's order an arrow for each
              rendezvous and a dot for what was committed alone, each in a
              row of its own, a dashed line from what fired a nack, or ended,
              to its use, and how each process stands, with what it offers or
              printed. The stamp stands at the first row of each. A long text
              is cut, and whole in its title. Of a journal that is no run
              there is no chart: the line that replay prints of it goes to
              standard error, with status 1.  Of more than 1,250 commits the
              first are drawn, and the heading says so.  With --as mermaid it
              prints the same words as the text of a sequence diagram.

       next   Prints the line of each commit that may come next where a
              journal leads its script, and without a journal of those that
              may come first. A journal that is no run is answered as by
              replay.

       outcomes
              Tells all that a script can come to: for each outcome its
              number and a line for each process, then how many outcomes
              there are, how many states were seen, and whether that is all:
              whether no run, however long, comes to an end that is not told.
              A run that goes on for ever comes to none. In which order
              outcomes are told is open.

              Behind all the last line tells how runs end: every run ends
              within and how many commits the longest makes, or some runs go
              on for ever.  Where no outcome is told, and nobody is stranded,
              --journal then keeps such a run.

              A process is stranded where it has not ended without a fault,
              and no way of commits leads on to one of its own, or to such an
              end: one that waits for what never comes, has faulted, or is
              never started. Where some runs go on for ever, a line stranded
              NAME after N commits stands before the last one for each
              process that is stranded where others can still move, with the
              fewest commits that lead there. It takes a second search, in
              which all commits are followed; where there are more states
              than --limit, it tells what it found, and standard error that
              not all was looked for. Who could move and is never chosen is
              not stranded, nor who sends again for ever, or can always take
              a time-out.

              With --need it is a test that some processes never get stuck:
              the status is 0 only where none of them is ever stranded.

              A state is what each process has left to do, and what it has
              printed, of those that are told. There are many where many
              processes have little to do with one another, and more and more
              where a process counts or prints for ever. The last line has
              states followed where not all commits were followed, since one
              of them can come first whatever follows. What was printed tells
              states apart, so whoever prints for ever makes ever more of
              them, and is left out by --only.  Where there are more than
              --limit, the last line ends with cut, and standard error says
              what helps: a larger --limit; --only or fewer messages; or
              --rows.  If standard error is a terminal, a line there shows
              how many were seen and how many are open.

              With --rows it is of the runs alone in which a process makes at
              most G syncs. In place of the states configurations are
              counted: how far each process has come, by what its syncs were
              given. Where a process of some outcome is spent, the last line
              ends with all within and that number of syncs.

       check  Checks the text of a script, and prints how many processes and
              channels it has.

       play   Plays the steps of a schedule, and prints the commits of the
              world that it leads to, and how many are pending.

       meet   Sends one number from a thread to another, and prints the line
              of their rendezvous.

       stats  Prints how often each process sent, received and was committed
              alone in a journal, with the stamp of its last commit, how
              often each channel was used, and how many commits there are,
              with their greatest stamp. The two numbers of the last line are
              equal where one commit had to follow another; where there are
              twice as many commits as stamps, workers that run side by side
              could take half the time.

       explain
              Prints what fault N means, the smallest file that gives it or
              how it comes about, and what to do. N may also be one of the
              words unset, kind, range, shape, waiting, spent, unstarted,
              stranded, left, faulted, printed, deadlock, nack, journal,
              stamp, tail, lawful, maximal, outcome and configuration.
              Without N it lists them all.

       manual Prints this page.

       version
              Prints the version, and the logic and the kit with which it was
              proved. An unproved build says that it is not. So does pcml
              --version.

       help   Prints the help of the program or of a command.

OPTIONS
       --workers N
              How many workers, which are threads of the machine, run the
              processes, 1 to 16; else 4.

       --rows G
              How many syncs a process may make, 1 to 1024; else 256, and of
              outcomes any number.  replay, why, chart and stats have to be
              told what the run had, or they take a process for spent that
              was not, and the other way round.

       --seasons K
              How many tables of G rows a process a run may take, 1 to 65535.
              Where some process has made G syncs in a table and comes to a
              further one, the table is closed when no worker finds a turn to
              make any more, and the run goes on in a new one: so no process
              is spent, and a run ends for no want of syncs, or with fault 7
              where it needs more tables.  Of long runs 128 rows are a good
              number, and 64 to 256 little worse: a change of tables costs
              work and waits for the slowest process, so a few rows are slow
              with many workers, and a large table does not fit the caches.
              Without the option there is one table, in which a process may
              be spent.  replay, why, chart and stats let a process make K
              times G syncs.

       --from S, --to S
              The first and the last stamp that is drawn, from 1; else all
              are.

       --only NAMES
              Names of processes, as for --need.  Of chart only these have a
              column each in the chart; all others share one, headed others.
              Of outcomes only these are told, with those that --need names:
              how the others end, and what they print, makes no other
              outcome.

       --as FORM
              svg, as it is without the option, or mermaid: the text of a
              Mermaid sequence diagram, which GitHub and GitLab draw in a
              block of the kind mermaid.

       --journal TO
              Writes the lines of the journal to the file TO too, whole or
              not at all, before anything is printed. They are written to a
              new file in its folder, pcml.K.part, which then takes its
              place, with its mode and, where the system lets it, its owner.
              Where TO is a link, the file behind it is the one. It is fault
              32, and TO stays as it is, where that is no regular file, may
              not be written, is the script, or is where a standard stream
              goes.  A run that a signal stops, as Ctrl-C, leaves TO as it
              was or whole, and may leave pcml.K.part beside it, which can be
              removed. A journal of more than 16,777,216 bytes is kept whole;
              standard error then says that no other command reads it. If TO
              is -, the lines of the journal alone go to standard output, and
              nothing else does.  For outcomes it is a journal that leads to
              the outcome of --of, or else to the first that is told; where
              there is no such outcome, TO stays as it is. But where no
              number is named, it is then a run that leads to where a process
              is stranded, of those that are told the one with the fewest
              commits; or, where none is and some runs go on for ever, one
              that leads into a circle and goes round once: behind it each
              process has the same left to do as where the circle begins.
              Standard error tells goes on at commit and the number of the
              circle's first commit, from 1. Where a process makes more than
              256 syncs in it, replay, why and others want --rows or
              --seasons.

       --of K The number of the outcome whose journal is written, from 1.
              Where there is none of that number, the status is 1.

       --limit C
              How many states are seen, or with --rows configurations, 1 to
              4194304; else 1048576. Where there are more, the last line ends
              with cut in place of all.

       --waiting
              Tells only the outcomes in which some process that is told is
              left waiting, and of those that are stranded those that have
              started and wait. The status is 0 only where there are none,
              all was seen, and with --rows no process of any outcome is
              spent: of a process that is spent nothing is known. It cannot
              tell a server that waits for its next client from a client that
              is stuck: both wait. Where a script has servers, --need can.

       --first
              Stops at the first outcome that is told: the last line then
              ends with first, and nobody looks for who is stranded. Where
              none is told, it changes nothing.

       --quiet
              Prints no journal.

       --why  Tells behind the counts of a run why each process stands where
              it does, as why does of its journal.

       --short
              The first fault of a text is one line, FILE:LINE:COLUMN: TEXT,
              as compilers tell it and editors know it; of a script nothing
              is printed.

       --need NAMES
              Processes that have to end. NAMES are names with commas
              between, or all alone for each process; among others all is the
              process of that name, so all,all names it. A name that no
              process has is told on standard error, with status 2, and
              nothing is run.

              Of run the status is 3 where one of these has not ended.

              Of outcomes only those outcomes are told in which one of these
              has not ended, by the numbers that they have among all. Of
              those that are stranded where others can still move one is
              told, which is so by the fewest commits, of several the first:
              by a line stranded NAME states V, where the second search saw V
              states. It is made too where the first was cut and told no
              outcome. The status is 3 where an outcome leaves one of these
              waiting, has it faulted or never started, or one is told as
              stranded, though not all was seen; 0 where none ever is, by a
              search that saw all, while one that goes on for ever need not
              end; else 1. With --rows outcomes alone are judged, and it is 1
              too where one of these is spent: whether it ends is not known
              then.  Name the clients, and not a server that waits for its
              next client for ever. It does not go together with --waiting.

       --left NAMES
              Tells of outcomes nothing but who of these processes, which are
              named as for --need, is left behind: some run leads to where it
              never ends any more, whatever follows. It may be stuck there,
              or others may go on for ever without it. A process that has
              faulted has ended, and one that was never started has not. One
              that never ends by itself is always left behind, and standard
              error says so: who can still move is asked by --need.

              The line left NAME states V tells who it is, with status 3: the
              one that is left behind by the fewest commits, of several the
              first.  --journal keeps a journal that leads there.  none in
              place of the name, with all behind, and status 0: wherever a
              run leads, each of these can still end.  unknown, with cut
              behind, and status 1: there are more states than --limit, and
              nobody is known to be left behind by those that were seen.
              States are told apart by what is left to do alone, and all
              commits are followed: so there may be more than without the
              option, or fewer. It goes together with --limit and --journal
              alone.

       --faults
              Tells of outcomes nothing but which process faults: some run
              leads to where it has, whether the run ends or goes on for
              ever.

              The line fault NAME states V tells it, with status 3: by the
              fewest commits, of several there the first.  none, unknown,
              --limit and --journal are as with --left.

       --never NAME=VALUE
              Tells of outcomes nothing but whether the process of this name
              ever prints the value, which is written as print writes it:
              some run leads to where it has, whether the run ends or goes on
              for ever.

              The line printed NAME VALUE states V tells that it does, with
              status 3, by the fewest commits.  never NAME VALUE stands for
              it where it never does, with all behind, and where that is not
              known, with cut.  The option may be given again: each value has
              a line and a search of its own, in their order. The status is 3
              where one is printed, and --journal keeps a journal that leads
              to the first of them.  What was printed before tells no states
              apart.  --limit and --journal are as with --left.

       -h, --help
              Prints the help.

FILES
       The name - is the standard input, for one file of a command. Of a file
       no more than 16,777,217 bytes are read, so that a device or a pipe may
       be named too.

       Any beginning of a journal is a journal of the same script.

LANGUAGE
       A script is channels (channel c;) and processes (process p { .. }).
       Statements are let x = e;, print e;, sync E;, x, y <- sync E;, if a =
       b { .. } else { .. } (or <), loop 3 { .. }, forever { .. }, end; and
       spawn p;, which starts the process p when it is first reached. The
       name behind spawn and joined is that of a process whose block has
       ended before; of each process a script has one spawn at most, and a
       process that one names does not start by itself.  A loop begins with a
       sync, each if has an else, and there are no comments. A message is 0
       to 3 numbers, channels or nacks. The events E are

       send c (e, ..), recv c
              taken together, by two processes; a channel has no buffer

       always (e, ..), never
              taken at once, and not at all

       choose [E, ..]
              one of them is taken; which one of those that may be is open

       wrap E as x, y to (e, ..)
              sets x and y to what E gives, and gives the list

       guard { .. } E
              runs the block at each sync, before anything is offered

       nack n { .. } E
              sets n to a new nack, which is enabled once the sync takes
              something outside E, and runs the block before anything is
              offered

       cancelled n
              may be taken once the nack n is enabled

       joined p
              may be taken once the process p has started, and has ended or
              faulted

       A process ends as ended; waiting, in a sync that nobody takes; spent,
       where it came to a sync more than --rows allows; unstarted, where
       nobody spawned it; or faulted, by unset (a name is read that is not
       set), kind (a value is of the wrong kind), range (a number below 0 or
       above 4294967295, or a 65th nack) or shape (more or fewer names than
       values). LANGUAGE.md in the folder docs of the sources says it in
       full.

LIMITS
       The program needs 1 MiB of stack (ulimit -s) for the deepest scripts,
       and each worker but the first another 512 KiB. Where a limit on memory
       is near (ulimit -v), it asks for that stack before it does anything,
       and tells fault 1 where it cannot be had.

EXIT STATUS
       0      The answer is on standard output.

       1      A fault, whose line is the first on standard error, with
              nothing on standard output but after fault 32; or a journal
              that is no run, whose line is on standard output, and after
              chart on standard error; or a text that is no script, of which
              why tells that on standard output; or outcomes of which one
              leaves a process waiting or spent, or beside which one waits
              for ever, or of which not all is known, with --waiting or
              --need, or by --left, --faults or --never it is not known, or
              of which none has the number of --of.  Behind the line of a
              fault stands the system's reason why a file cannot be read, or
              what why FILE tells of a text that is no script.

       2      Words that are not understood, a name that no process has, and
              a wish for help: what is to be said of it, or the help, is on
              standard error.

       3      A process that --need names has not ended, in the run or in
              some outcome, or may be stranded, or one that --left names is
              left behind, or with --faults one faults, or what is never to
              be printed, with --never, is: all is on standard output.

       70     The script ./pcml of the sources has no program to run, and
              cannot build one or answer without: its message says why.

EXAMPLES
       pcml run ping_pong.pcml --workers 2
              Runs a script on two workers.

       pcml run s.pcml --journal s.journal --quiet --why
              Runs a script, keeps its journal, and tells why each process
              stands where it does.

       pcml run s.pcml --journal - | pcml why s.pcml -
              The same without a file.

       pcml run s.pcml --quiet --need client,server
              Tests that these two come to their end.

       head -n 3 s.journal | pcml why s.pcml -
              Tells how it stood after three commits.

       pcml chart s.pcml s.journal > s.svg
              Draws the run.

       pcml run s.pcml --quiet | grep waiting
              Lists the processes that wait in the end.

       pcml outcomes s.pcml --need client_a,client_b || exit 1
              Tests that these two never get stuck, however long a run is and
              whatever goes on beside them, for a test of one's own.

       pcml outcomes s.pcml --need all --first --journal s.journal || pcml
       why s.pcml s.journal
              Tests that no process ever gets stuck, and of the first outcome
              where one does, or where one is stranded, tells why.

       pcml outcomes s.pcml --only judge
              Tells what a process can print, and how it can end, whatever
              the others do.

       pcml next s.pcml
              Tells which commits may come first.

       while pcml next s.pcml s.journal | head -n 1 > s.step && test -s
       s.step; do cat s.step >> s.journal; done
              Goes on by one commit after another where the journal leads
              (from the beginning, where the file is empty), of those that
              may come next always with the first; in the place of head a
              user may choose.

FAULTS
       fault 1
              Memory ran out.

       fault 2 step K
              Step K of the schedule, from 1, is not allowed.

       fault 3
              A number of rows that is not 1 to 1024, where a program calls
              the library so; a command line cannot.

       fault 4
              A process that has not ended has no machine behind a season. It
              comes about no more.

       fault 5
              The commits of all seasons are no run of the script. It comes
              about no more.

       fault 6
              A thread could not be started.

       fault 7
              The seasons do not suffice.

       fault 8
              A number of seasons that is not 1 to 65535, where a program
              calls the library so; a command line cannot.

       fault 11 line L
              The grammar does not allow the token.

       fault 12 line L
              A name stands for nothing.

       fault 13 line L
              A name stands for something already.

       fault 14 line L
              More than the limits of a script allow.

       fault 15 line L
              A loop does not begin with a sync.

       fault 16
              A script of more than 65,536 bytes.

       fault 21 line L
              A line of the journal is not of the form.

       fault 22 line L
              A line of the schedule is not of the form.

       fault 23
              A journal or a schedule of more than 16,777,216 bytes.

       fault 31
              A file cannot be read.

       fault 32
              An output, or the file for the journal, cannot be written.

SEE ALSO
       The folder docs of the sources has the texts of scripts, journals and
       schedules (FORMATS.md), what is proved (PROVED.md) and the map of the
       code (ARCHITECTURE.md), what the language means (LANGUAGE.md) and the
       theorems (THEOREMS.md).

Puttolive                         2026-11-28                          PCML(1)
";

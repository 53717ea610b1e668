//! Ledgers of processes: their commits in order are a run in sequential CML. No code runs here.
#![tactic(auto)]

ghost use Rattle.journal_ledger.specs.Behind.{OfEach, OpeningsLead, RunsBehind, TellsResultsOn, TellsRowsOn, TellsRunFirst, TellsRunOn};
ghost use Rattle.journal_ledger.specs.Ledgers.{LedgerIsRun, LedgersTell, OneLedgerOrder, ScheduleHasLedger, ScheduleIsRun, TellsNacks, TellsResults, TellsStamps, TellsStarts};

/// The commits of a lawful ledger stand in this order in one way.
pub fn ledger_order_law()
    ensures { OneLedgerOrder }
{}

/// Where each row of a lawful ledger offers what its process offers after the results of the thread's earlier
/// rows, the nacks of each such event's scopes, and no others, are bound to the row, and each thread has started
/// and ended as processes do, the ledger's commits in order are a run of the processes. A thread starts at once
/// where no text spawns its process, and else where a process that has started spawns it, with that one's last
/// stamp; it has ended after results with which its process has.
pub fn ledger_run_law()
    ensures { LedgerIsRun }
{}

/// What a lawful ledger of processes tells of its end is so where its commits lead: the results of a thread's rows,
/// what became of a nack, which threads have started, and the last stamp of each of them.
pub fn ledger_tells_law()
    ensures results { LedgersTell TellsResults }
    ensures nacks { LedgersTell TellsNacks }
    ensures stamps { LedgersTell TellsStamps }
    ensures starts { LedgersTell TellsStarts }
    ensures run { LedgersTell TellsRunFirst }
{}

/// A table may go on where a run led: its threads have the run's results behind them, and its opening tells who had started,
/// with which last stamp, who had ended, and which nacks were fired. Then the run, and behind it the commits of a lawful
/// ledger of such a table, in order and numbered on, are a run; and what the ledger tells of its end is so where they lead,
/// so that a further table can go on there.
pub fn going_on_law()
    ensures opens { OpeningsLead }
    ensures run { OfEach RunsBehind }
    ensures results { OfEach TellsResultsOn }
    ensures rows { OfEach TellsRowsOn }
    ensures tells { OfEach TellsRunOn }
{}

/// However the steps of a schedule fall in which the processes that texts spawn wait at the start, each row is
/// opened as its process offers there, and each thread started and ended where its process does so, the schedule's
/// ledger is one of the processes, and its commits in order are a run of them.
pub fn schedule_laws()
    ensures ledger { ScheduleHasLedger }
    ensures run { ScheduleIsRun }
{}

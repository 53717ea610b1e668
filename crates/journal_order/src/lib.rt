//! The order of a journal: laws of runs in sequential CML. No code runs here.
#![tactic(auto)]

ghost use Rattle.journal_order.specs.Laws.{AboveStarts, EachMeets, EachStarted, HasOrder, NamedIsReceived, OneOrder, OneRowOneCommit, OneStampOneThread, OneSyncOneNack, OrderedIsRun, ReceivedIsSent, StampsRise};

/// In a run the stamps of a thread's commits rise, so two commits of one stamp share no thread.
pub fn stamp_laws()
    ensures rise { StampsRise }
    ensures one { OneStampOneThread }
{}

/// In a run the threads of each commit have started by then, and its stamp is above that of each earlier
/// commit that counts for the start of one of them.
pub fn start_law()
    ensures started { EachStarted }
    ensures above { AboveStarts }
{}

/// In a run each sync is in at most one commit.
pub fn row_law()
    ensures { OneRowOneCommit }
{}

/// Whatever results a thread has, a nack stands in the scopes of at most one of its syncs: so at most one
/// sync fires it.
pub fn nack_law()
    ensures { OneSyncOneNack }
{}

/// In a run each commit is a meeting of the syncs that it names: a pair is of two threads, of which one
/// sent the message on the channel and the other received and got it; a sync that was committed alone took
/// an always, or a nack whose own sync chose outside its scope, or waited for the end of a thread that has
/// started and ended.
pub fn meeting_law()
    ensures { EachMeets }
{}

/// The commits of a run, put in order by stamp and then by the thread named first, are a run too, and
/// lead to the same configuration. They can be put in order, and in one way.
pub fn ordering_laws()
    ensures run { OrderedIsRun }
    ensures there { HasOrder }
    ensures one { OneOrder }
{}

/// In a run the messages of one thread on a channel are received in the order in which it sent them. They
/// are those that the pairs of the thread on that channel name.
pub fn message_laws()
    ensures sent { ReceivedIsSent }
    ensures named { NamedIsReceived }
{}

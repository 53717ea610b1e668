//! The numbers of a journal, by one walk along it.

ghost use Rattle.std.specs.Prelude.{◌≡◌, ℕ, ◌<◌, List, [], ◌∷◌, ◌++◌, IfOk, length, slice_index, slice_index_or, slice_set};
ghost use Rattle.script.specs.Scripts.{script_of};
ghost use Rattle.protocol_values.specs.declared.Commit.{Commit};
ghost use Rattle.pcml_answers.specs.declared.counts.Kind.TheVariants.{Uses};
ghost use Rattle.pcml_answers.specs.Tallies.{HasRoom, IsTally, MayGrow, counted, most, nothing, with_commit};

use crate::counts::{Kind, counted, greater};
use protocol_values::Commit;
use script::Script;
use std::alloc::{AllocError, Global};

/// How often a process sent, received and was committed alone, and the stamp of its last commit.
#[derive(Clone, Copy)]
pub(crate) struct Tally {
    pub(crate) sends: usize,
    pub(crate) receives: usize,
    pub(crate) alone: usize,
    pub(crate) last: u32,
}

/// The tally of each process, how often each channel was used, and the greatest stamp of all.
#[derive(Drop)]
pub(crate) struct Tallies {
    pub(crate) processes: Vec<Tally>,
    pub(crate) uses: Vec<usize>,
    pub(crate) stamps: u32,
}

impl Tally {
    /// That of no commit.
    fn nothing() -> Tally
        ensures { result ≡ nothing }
    {
        Tally {
            sends: 0,
            receives: 0,
            alone: 0,
            last: 0,
        }
    }

    /// The tally of this process with one commit more.
    fn with(self, thread: u8, commit: &Commit) -> Tally
        requires { HasRoom self }
        ensures { result ≡ with_commit thread commit.now self }
    {
        Tally {
            sends: counted(Kind::Sends(thread), commit, self.sends),
            receives: counted(Kind::Receives(thread), commit, self.receives),
            alone: counted(Kind::Alone(thread), commit, self.alone),
            last: greater(Kind::Of(thread), commit, self.last),
        }
    }
}

/// Adds the commit to the tally of this process, where it is among them.
fn add_to(tallies: &mut [Tally], thread: u8, commit: &Commit)
    requires { HasRoom (slice_index_or tallies.old thread nothing) }
    ensures { tallies.new ≡ slice_set tallies.old thread (with_commit thread commit.now (slice_index_or tallies.old thread nothing)) }
{
    let at = usize::from(thread);
    if at < tallies.len() {
        tallies[at] = tallies[at].with(thread, commit);
    }
}

/// Adds the commit to the tallies of its processes: once where a process met itself.
fn add_processes(tallies: &mut [Tally], commit: &Commit)
    requires { (t : ℕ) → HasRoom (slice_index_or tallies.old t nothing) }
    ensures { (t : ℕ) → t < length tallies.old → slice_index_or tallies.new t nothing ≡ with_commit t commit.now (slice_index_or tallies.old t nothing) }
{
    match *commit {
        Commit::Pair {
            sender,
            receiver,
            ..
        } => {
            add_to(tallies, sender.0.thread, commit);
            if receiver.0.thread != sender.0.thread {
                add_to(tallies, receiver.0.thread, commit);
            }
        }
        Commit::Alone { at, .. } => add_to(tallies, at.0.thread, commit),
    }
}

/// Adds the commit to the uses of its channel, where that is among them.
fn add_use(uses: &mut [usize], commit: &Commit)
    requires { (c : ℕ) → slice_index uses.old c < most }
    ensures { (c : ℕ) → c < length uses.old → slice_index uses.new c ≡ counted (Uses c) commit.now (slice_index uses.old c) }
{
    if let Commit::Pair { chan, .. } = *commit {
        let at = usize::from(chan);
        if at < uses.len() {
            uses[at] += 1;
        }
    }
}

impl Tallies {
    /// Those of no commit.
    fn new(alloc: Global, processes: usize, channels: usize) -> Result<Tallies, AllocError>
        ensures { IfOk result (λ tallies. IsTally processes channels [] tallies) }
    {
        Ok(Tallies {
            processes: vec![in alloc; Tally::nothing(); processes]?,
            uses: vec![in alloc; 0_usize; channels]?,
            stamps: 0,
        })
    }

    /// Adds one commit: the numbers of those before become the numbers of those with this one.
    fn add(&mut self, commit: &Commit)
        requires { MayGrow self.old }
        ensures { (threads channels : ℕ) (seen : List Commit) → IsTally threads channels seen self.old → IsTally threads channels (seen ++ commit.now ∷ []) self.new }
    {
        add_processes(&mut self.processes, commit);
        add_use(&mut self.uses, commit);
        self.stamps = greater(Kind::All, commit, self.stamps);
    }
}

/// The numbers of a journal. A commit of a process or a channel that the script does not have counts for none.
pub(crate) fn tally_journal(
    alloc: Global,
    script: &Script,
    journal: &[Commit],
) -> Result<Tallies, AllocError>
    ensures { IfOk result (λ tallies. IsTally (length (script_of script.now).processes) (length (script_of script.now).channels) journal.now tallies) }
{
    let mut tallies = Tallies::new(alloc, script.processes().len(), script.channels())?;
    for commit in journal {
        tallies.add(commit);
    }
    Ok(tallies)
}

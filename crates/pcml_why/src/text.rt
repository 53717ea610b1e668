//! The text.

ghost use Rattle.std.specs.Prelude.{◌≡◌, ◌<◌, ◌≤◌, IfOk, OnOk, length, map, slice_get};
ghost use Rattle.std.specs.String.{string_bytes};
ghost use Rattle.script.specs.Scripts.{script_of};
ghost use Rattle.script_tree.specs.Processes.{proc_of};
ghost use Rattle.journal_replay.specs.Replays.{StandsAfter, thread_count};
ghost use Rattle.pcml_why.specs.Served.{AreAnswers};
ghost use Rattle.pcml_why_sites.specs.Writing.{seen_texts};
ghost use Rattle.pcml_why_sites.specs.Offering.{others};
ghost use Rattle.pcml_why.specs.Whys.{IsWhy, process_text, also_text, known_at, never_if, never_text, receives_words, sends_words, also_words, chance_text, end_state_text, knot_text, knot_words, last_text, listed, lone_text, nack_state_text, nobody_words, offer_line, offers_text, partners_text, same_words, site_text, spent_text, facts_of, stand_text, sync_words, unended_at, unended_text, unfired_text, why_text};
ghost use Rattle.journal_text.specs.Names.{named};
ghost use Rattle.script.specs.Appending.{Adds};

use crate::served::{Answer, answers_of, is_by_nobody};
use crate::variables::Namer;
use journal_replay::State;
use journal_text::{push_channel, push_offer, push_syncs, push_thread};
use pcml_why_sites::{Site, Stand, WaitGraph, is_open, others, process_texts, sites_at};
use protocol_values::{Base, Commit, NackName, Offer, Side};
use script::Script;
use script_token::{Placed, scan};
use script_tree::Proc;
use std::alloc::{AllocError, Global};
use thread::End;

/// What is told of a run: the names, what may come next, and where its processes stand.
#[derive(Drop)]
struct Teller<'a> {
    alloc: Global,
    script: &'a Script,
    state: &'a State,
    sites: &'a [Site<'a>],
    answers: &'a [Answer],
    ghost are_answers: { AreAnswers (script_of script.now).processes answers.now },
}

#[tactic(auto, unfolding(crate::specs::Whys::nobody_words))]
fn nobody_words() -> &'static str
    ensures { result.now ≡ nobody_words }
{
    "nobody offers"
}

#[tactic(auto, unfolding(crate::specs::Whys::same_words))]
fn same_words() -> &'static str
    ensures { result.now ≡ same_words }
{
    "the same is offered by"
}

#[tactic(auto, unfolding(crate::specs::Whys::also_words))]
fn also_words() -> &'static str
    ensures { result.now ≡ also_words }
{
    ", the same is offered by"
}

#[tactic(auto, unfolding(crate::specs::Whys::sync_words))]
fn sync_words() -> &'static str
    ensures { result.now ≡ sync_words }
{
    "the sync of "
}

/// Each name behind a space.
fn push_listed(out: &mut String, script: &Script, threads: &[u8]) -> Result<(), AllocError>
    ensures { OnOk result (Adds out.old out.new (listed (named (script_of script.now)) threads.now)) }
{
    for thread in threads {
        out.push_str(" ")?;
        push_thread(out, script, *thread)?;
    }
    Ok(())
}

/// Who makes an offer that nobody could meet.
fn push_lone(out: &mut String, script: &Script, same: &[u8]) -> Result<(), AllocError>
    ensures { OnOk result (Adds out.old out.new (lone_text (named (script_of script.now)) same.now)) }
{
    if same.len() == 0 {
        return out.push_str(nobody_words());
    }
    out.push_str(same_words())?;
    push_listed(out, script, same)
}

fn push_also(out: &mut String, script: &Script, same: &[u8]) -> Result<(), AllocError>
    ensures { OnOk result (Adds out.old out.new (also_text (named (script_of script.now)) same.now)) }
{
    if same.len() == 0 {
        return Ok(());
    }
    out.push_str(also_words())?;
    push_listed(out, script, same)
}

#[tactic(auto, unfolding(crate::specs::Whys::receives_words))]
fn receives_words() -> &'static str
    ensures { result.now ≡ receives_words }
{
    ", and no process receives on "
}

#[tactic(auto, unfolding(crate::specs::Whys::sends_words))]
fn sends_words() -> &'static str
    ensures { result.now ≡ sends_words }
{
    ", and no process sends on "
}

/// That nobody ever offers on this side of the channel.
fn push_never(out: &mut String, script: &Script, side: Side, chan: u8) -> Result<(), AllocError>
    ensures { OnOk result (Adds out.old out.new (never_text (named (script_of script.now)) side chan)) }
{
    match side {
        Side::Sends => out.push_str(sends_words())?,
        Side::Receives => out.push_str(receives_words())?,
    }
    push_channel(out, script, chan)
}

fn unfired_text(is_open: bool) -> &'static str
    ensures { result.now ≡ unfired_text is_open }
{
    if is_open { " is open" } else { " is not open" }
}

/// How a process stands that has not ended.
fn unended_text(end: End) -> &'static str
    ensures { result.now ≡ unended_text end }
{
    match end {
        End::Ended => " ended",
        End::Waiting => " waits",
        End::Spent => " is spent",
        End::Faulted(_) => " faulted",
        End::Unstarted => " has not started",
    }
}

fn unended_at(sites: &[Site<'_>], process: u8) -> &'static str
    ensures { result.now ≡ unended_at (slice_get sites.now process) }
{
    match sites.get(usize::from(process)) {
        Some(site) => unended_text(site.end),
        None => "",
    }
}

#[tactic(auto, unfolding(crate::specs::Whys::spent_text))]
fn push_spent(out: &mut String, line: usize) -> Result<(), AllocError>
    ensures { OnOk result (Adds out.old out.new (spent_text line)) }
{
    write!(out, " is spent at line {line}")
}

/// How a process stands, at a line, of at most `rows` syncs.
fn push_stand(
    out: &mut String,
    namer: &Namer<'_>,
    rows: u32,
    site: &Site<'_>,
) -> Result<(), AllocError>
    ensures { OnOk result (Adds out.old out.new (stand_text (named (script_of namer.now.script.now)) (proc_of namer.now.process.now).variables rows site.now.line site.now.end site.now.stand)) }
{
    let line = site.line;
    match site.end {
        End::Ended => out.push_str(" ended\n"),
        End::Waiting => write!(out, " waits at line {line}\n"),
        End::Spent => {
            push_spent(out, line)?;
            push_syncs(out, rows)
        }
        End::Faulted(fault) => {
            write!(out, " faulted at line {line}: ")?;
            namer.push_wrong(out, fault, &site.stand)?;
            out.push_str("\n")
        }
        End::Unstarted => out.push_str(" has not started\n"),
    }
}

/// The variables of a process that waits.
fn push_known(out: &mut String, namer: &Namer<'_>, site: &Site<'_>) -> Result<(), AllocError>
    ensures { OnOk result (Adds out.old out.new (known_at (named (script_of namer.now.script.now)) (proc_of namer.now.process.now).variables site.now)) }
{
    if !site.end.is_waiting() {
        return Ok(());
    }
    namer.push_variables(out, site.variables)
}

impl Teller<'_> {
    /// Whether the sync of a nack is open, or fired it at a stamp.
    fn push_nack_state(
        &self,
        out: &mut String,
        nack: NackName,
        fired: Option<u32>,
    ) -> Result<(), AllocError>
        ensures { OnOk result (Adds out.old out.new (nack_state_text (named (script_of self.now.script.now)) self.now.sites.now nack fired)) }
    {
        match fired {
            Some(stamp) => {
                out.push_str("enabled by ")?;
                push_thread(out, self.script, nack.thread)?;
                write!(out, " at {stamp}")
            }
            None => {
                out.push_str(sync_words())?;
                push_thread(out, self.script, nack.thread)?;
                out.push_str(unfired_text(is_open(self.sites, nack)))
            }
        }
    }

    /// Whether a process ended, by a stamp, or how it stands.
    fn push_end_state(
        &self,
        out: &mut String,
        process: u8,
        ended: Option<u32>,
    ) -> Result<(), AllocError>
        ensures { OnOk result (Adds out.old out.new (end_state_text (named (script_of self.now.script.now)) self.now.sites.now process ended)) }
    {
        match ended {
            Some(stamp) => write!(out, "ended at {stamp}"),
            None => {
                push_thread(out, self.script, process)?;
                out.push_str(unended_at(self.sites, process))
            }
        }
    }

    /// That by no text anybody ever offers on this side of the channel, where that is so.
    fn push_never_if(&self, out: &mut String, side: Side, chan: u8) -> Result<(), AllocError>
        ensures { OnOk result (Adds out.old out.new (never_if (named (script_of self.now.script.now)) (facts_of (script_of self.now.script.now).processes self.now.state.now) side chan)) }
    {
        if !is_by_nobody(self.answers, self.script.processes(), side, chan) {
            return Ok(());
        }
        push_never(out, self.script, side, chan)
    }

    /// Who could meet an offer on the other side of the channel, and who makes the same.
    fn push_partners(
        &self,
        out: &mut String,
        side: Side,
        chan: u8,
        partners: &[u8],
        same: &[u8],
    ) -> Result<(), AllocError>
        ensures { OnOk result (Adds out.old out.new (partners_text (named (script_of self.now.script.now)) (facts_of (script_of self.now.script.now).processes self.now.state.now) side chan partners.now same.now)) }
    {
        if partners.len() == 0 {
            push_lone(out, self.script, same)?;
            return self.push_never_if(out, side, chan);
        }
        out.push_str("may meet")?;
        push_listed(out, self.script, partners)?;
        push_also(out, self.script, same)
    }

    /// What would let an offer on this side of the channel meet another.
    fn push_meeting(
        &self,
        out: &mut String,
        thread: usize,
        sides: (Side, Side),
        chan: u8,
    ) -> Result<(), AllocError>
        requires { length self.now.sites.now ≤ 64 }
        ensures { OnOk result (Adds out.old out.new (partners_text (named (script_of self.now.script.now)) (facts_of (script_of self.now.script.now).processes self.now.state.now) sides.1 chan (others self.now.sites.now sides.1 chan thread) (others self.now.sites.now sides.0 chan thread))) }
    {
        let (own, other) = sides;
        let partners = others(self.alloc, self.sites, other, chan, thread)?;
        let same = others(self.alloc, self.sites, own, chan, thread)?;
        self.push_partners(out, other, chan, &partners, &same)
    }

    /// What would let the offer be taken.
    fn push_chance(&self, out: &mut String, thread: usize, base: Base) -> Result<(), AllocError>
        requires { length self.now.sites.now ≤ 64 }
        ensures { OnOk result (Adds out.old out.new (chance_text (named (script_of self.now.script.now)) (facts_of (script_of self.now.script.now).processes self.now.state.now) self.now.sites.now thread base)) }
    {
        match base {
            Base::Send(chan, _) => {
                self.push_meeting(out, thread, (Side::Sends, Side::Receives), chan)
            }
            Base::Recv(chan) => {
                self.push_meeting(out, thread, (Side::Receives, Side::Sends), chan)
            }
            Base::Always(_) => out.push_str("may be taken"),
            Base::OnNack(nack) => self.push_nack_state(out, nack, self.state.fired(nack)),
            Base::OnEnd(ended) => self.push_end_state(out, ended, self.state.ended(ended)),
            Base::Never => out.push_str("is never taken"),
        }
    }

    fn push_offer_line(
        &self,
        out: &mut String,
        thread: usize,
        offer: &Offer,
    ) -> Result<(), AllocError>
        requires { length self.now.sites.now ≤ 64 }
        ensures { OnOk result (Adds out.old out.new (offer_line (named (script_of self.now.script.now)) (facts_of (script_of self.now.script.now).processes self.now.state.now) self.now.sites.now thread offer.now)) }
    {
        out.push_str("  ")?;
        push_offer(out, self.script, offer.base)?;
        out.push_str(": ")?;
        self.push_chance(out, thread, offer.base)?;
        out.push_str("\n")
    }

    /// The offers of a process that waits, each on a line of its own.
    fn push_offers(
        &self,
        out: &mut String,
        thread: usize,
        site: &Site<'_>,
    ) -> Result<(), AllocError>
        requires { length self.now.sites.now ≤ 64 }
        ensures { OnOk result (Adds out.old out.new (offers_text (named (script_of self.now.script.now)) (facts_of (script_of self.now.script.now).processes self.now.state.now) self.now.sites.now thread site.now)) }
    {
        if !matches!(site.end, End::Waiting) {
            return Ok(());
        }
        for offer in site.offers {
            self.push_offer_line(out, thread, offer)?;
        }
        Ok(())
    }

    /// A process, which is this one of the script.
    fn push_process(
        &self,
        out: &mut String,
        rows: u32,
        thread: usize,
        process: &Proc,
        site: &Site<'_>,
    ) -> Result<(), AllocError>
        requires few { length self.now.sites.now ≤ 64 }
        requires thread { thread < 64 }
        ensures { OnOk result (Adds out.old out.new (process_text (named (script_of self.now.script.now)) (proc_of process.now).variables (facts_of (script_of self.now.script.now).processes self.now.state.now) rows self.now.sites.now thread site.now)) }
    {
        let namer = Namer {
            script: self.script,
            process,
        };
        push_thread(out, self.script, thread as u8)?;
        push_stand(out, &namer, rows, site)?;
        push_known(out, &namer, site)?;
        self.push_offers(out, thread, site)
    }

    fn push_site(
        &self,
        out: &mut String,
        rows: u32,
        thread: usize,
        site: &Site<'_>,
    ) -> Result<(), AllocError>
        requires few { length self.now.sites.now ≤ 64 }
        requires thread { thread < 64 }
        requires process { thread < length (script_of self.now.script.now).processes }
        ensures { OnOk result (Adds out.old out.new (site_text (named (script_of self.now.script.now)) (facts_of (script_of self.now.script.now).processes self.now.state.now) rows self.now.sites.now thread site.now)) }
    {
        let processes = self.script.processes();
        self.push_process(out, rows, thread, &processes[thread], site)
    }

    fn push_sites(&self, out: &mut String, rows: u32) -> Result<(), AllocError>
        requires few { length self.now.sites.now ≤ 64 }
        requires processes { length self.now.sites.now ≡ length (script_of self.now.script.now).processes }
        ensures { OnOk result (Adds out.old out.new (why_text (named (script_of self.now.script.now)) (facts_of (script_of self.now.script.now).processes self.now.state.now) rows self.now.sites.now)) }
    {
        for thread in 0..self.sites.len() {
            self.push_site(out, rows, thread, &self.sites[thread])?;
        }
        Ok(())
    }
}

#[tactic(auto, unfolding(crate::specs::Whys::knot_words))]
fn knot_words() -> &'static str
    ensures { result.now ≡ knot_words }
{
    "waiting for one another:"
}

/// Who wait for one another, where some do, and who of them for whom.
fn push_knot(out: &mut String, graph: &WaitGraph<'_>, knot: &[u8]) -> Result<(), AllocError>
    requires { length graph.now.texts.now ≡ length graph.now.sites.now }
    ensures { OnOk result (Adds out.old out.new (knot_text (named (script_of graph.now.script.now)) (seen_texts graph.now.texts.now) graph.now.sites.now knot.now)) }
{
    if knot.len() == 0 {
        return Ok(());
    }
    out.push_str(knot_words())?;
    push_listed(out, graph.script, knot)?;
    out.push_str("\n")?;
    graph.push_edges(out, knot)
}

/// Who wait for one another, where no commit may come next.
fn push_last(
    out: &mut String,
    graph: &WaitGraph<'_>,
    next: &Option<Commit>,
    knot: &[u8],
) -> Result<(), AllocError>
    requires { length graph.now.texts.now ≡ length graph.now.sites.now }
    ensures { OnOk result (Adds out.old out.new (last_text (named (script_of graph.now.script.now)) (seen_texts graph.now.texts.now) graph.now.sites.now next.now knot.now)) }
{
    match next {
        Some(_) => Ok(()),
        None => push_knot(out, graph, knot),
    }
}

/// Each process, and each of its offers, on a line of its own.
fn push_processes(
    alloc: Global,
    out: &mut String,
    script: &Script,
    state: &State,
    sites: &[Site<'_>],
    rows: u32,
) -> Result<(), AllocError>
    requires few { length sites.now ≤ 64 }
    requires processes { length sites.now ≡ length (script_of script.now).processes }
    ensures { OnOk result (Adds out.old out.new (why_text (named (script_of script.now)) (facts_of (script_of script.now).processes state.now) rows sites.now)) }
{
    let answers = answers_of(alloc, script.processes(), sites)?;
    let teller = Teller {
        alloc,
        script,
        state,
        sites,
        answers: &answers,
    };
    teller.push_sites(out, rows)
}

/// Why each process of the state, where these commits led, stands where it does, a line for each process and each of its
/// offers; and where no commit may come next, a line of those that wait for one another, and behind it a line for each
/// two of them of which the one waits for the other. The text of the script is `source`. A process waits for another by
/// what the text of that one could offer: a channel that it holds in a variable is not seen.
pub fn why_text(
    alloc: Global,
    script: &Script,
    state: &State,
    commits: &[Commit],
    source: &[u8],
    rows: u32,
) -> Result<String, AllocError>
    requires few { thread_count state.now ≤ 64 }
    requires processes { thread_count state.now ≡ length (script_of script.now).processes }
    requires stands { StandsAfter (script_of script.now).processes rows commits.now state.now }
    ensures { IfOk result (λ text. IsWhy (script_of script.now) state.now commits.now source.now rows (string_bytes text)) }
{
    let tokens = scan(alloc, source)?;
    let placed: &[Placed<'_>] = &tokens.placed;
    let told = sites_at(alloc, script, commits, state)?;
    let sites: &[Site<'_>] = &told;
    let mut out = String::new(alloc);
    push_processes(alloc, &mut out, script, state, sites, rows)?;
    let next = state.enabled(alloc)?;
    let texts = process_texts(alloc, placed, sites.len())?;
    let graph = WaitGraph {
        script,
        sites,
        texts: &texts,
    };
    let knot = graph.knot(alloc)?;
    push_last(&mut out, &graph, &next, &knot)?;
    Ok(out)
}

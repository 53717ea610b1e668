//! Scripts.

ghost use Rattle.std.specs.Prelude.{◌≤◌, length, map};
ghost use Rattle.script.specs.Spelling.{IsSpelled, IsSpelled-prop};
ghost use Rattle.script_tree.specs.Spawning.{AreSpawnedOnce, IsPlaced};
ghost use Rattle.script.specs.Spawned.{AreInOrder, AreInOrder-prop, IsPlaced-prop, AreSpawnedOnce-prop};
ghost use Rattle.script_tree.specs.Processes.{proc_of, string_texts, ShareChannels, ShareChannels-prop};

use script_tree::Proc;

/// A script: its channels and its processes, in the order in which they are declared. It is made by
/// `parse` alone, and some text spells it.
#[derive(Debug, Drop)]
pub struct Script {
    pub(crate) channels: Vec<String>,
    pub(crate) processes: Vec<Proc>,
    ghost few_channels: { length channels.items ≤ 256 },
    ghost few_processes: { length processes.items ≤ 64 },
    ghost spelled: { IsSpelled (record { channels = string_texts channels.items; processes = map proc_of processes.items }) } by { IsSpelled-prop (record { channels = string_texts channels.items; processes = map proc_of processes.items }) },
    ghost shared: { ShareChannels (length channels.items) (map proc_of processes.items) } by { ShareChannels-prop (length channels.items) (map proc_of processes.items) },
    ghost order: { AreInOrder (map proc_of processes.items) } by { AreInOrder-prop (map proc_of processes.items) },
    ghost placed: { IsPlaced (map proc_of processes.items) } by { IsPlaced-prop (map proc_of processes.items) },
    ghost once: { AreSpawnedOnce (map proc_of processes.items) } by { AreSpawnedOnce-prop (map proc_of processes.items) },
}

impl Script {
    ghost use Rattle.std.specs.Prelude.{◌≡◌, ◌<◌, Some, slice_get};
    ghost use Rattle.std.specs.Option.{option_map};
    ghost use Rattle.script.specs.Lines.{trees_of_script};
    ghost use Rattle.script.specs.Scripts.{script_of, IsScript};
    ghost use Rattle.script_tree.specs.Processes.{tree_of};

    /// The processes, in their order.
    pub fn processes(&self) -> &[Proc]
        ensures value { map proc_of result.now ≡ (script_of self.now).processes }
        ensures count { length result.now ≡ length (script_of self.now).processes }
        ensures limits { IsScript (script_of self.now) }
        ensures spelled { IsSpelled (script_of self.now) }
        ensures placed { IsPlaced (map proc_of result.now) }
        ensures trees { map tree_of result.now ≡ trees_of_script self.now }
    {
        &self.processes
    }

    /// How many channels are declared.
    #[tactic(auto, using(script_tree::proofs::Texts::length_texts))]
    pub fn channels(&self) -> usize
        ensures { result ≡ length (script_of self.now).channels }
    {
        self.channels.len()
    }

    /// The name of process t, which has to be declared.
    pub fn process_name(&self, t: usize) -> &str
        requires { t < length (script_of self.now).processes }
        ensures { Some result.now ≡ option_map (λ p. p.name) (slice_get (script_of self.now).processes t) }
    {
        self.processes[t].name()
    }

    /// The name of channel c, which has to be declared.
    #[tactic(auto, using(script_tree::proofs::Texts::get_texts, script_tree::proofs::Texts::length_texts))]
    pub fn channel_name(&self, c: usize) -> &str
        requires { c < length (script_of self.now).channels }
        ensures { Some result.now ≡ slice_get (script_of self.now).channels c }
    {
        self.channels[c].as_str()
    }
}

//! Processes.

ghost use Rattle.std.specs.Prelude.{◌≡◌, ◌<◌, ◌≤◌, length};
ghost use Rattle.script_tree.specs.Trees.{block_of};
ghost use Rattle.script_tree.specs.Limits.{BlockIsIn, BlockIsIn-prop, block_depth};

use crate::tree::Block;
use std::sync::Arc;

/// A process: its name, its statements, the names of its variables by their numbers, how many channels
/// its script declares, and how many processes stand before it there. Each process keeps the limits.
#[derive(Debug, Drop)]
pub struct Proc {
    name: String,
    body: Arc<Block>,
    variables: Vec<String>,
    channels: usize,
    earlier: u8,
    ghost names: { BlockIsIn (record { channels = channels; variables = length variables.items; processes = earlier }) (block_of body.value) } by { BlockIsIn-prop (record { channels = channels; variables = length variables.items; processes = earlier }) (block_of body.value) },
    ghost depth: { block_depth (block_of body.value) ≤ 48 },
    ghost place: { earlier < 64 },
}

impl Proc {
    ghost use Rattle.std.specs.Prelude.{slice_get};
    ghost use Rattle.std.specs.Option.{option_map};
    ghost use Rattle.std.specs.String.{string_bytes};
    ghost use Rattle.script_tree.specs.Limits.{KeepsLimits};
    ghost use Rattle.script_tree.specs.Processes.{proc_of, IsProc, string_texts, tree_of};

    /// A process whose body keeps the limits, behind so many others: 0 to 63.
    pub fn new(
        name: String,
        body: Arc<Block>,
        variables: Vec<String>,
        channels: usize,
        earlier: u8,
    ) -> Proc
        requires limits { KeepsLimits (record { channels = channels; variables = length variables.items; processes = earlier }) (block_of body.value) }
        requires place { earlier < 64 }
        ensures value { proc_of result ≡ record { name = string_bytes name; body = block_of body.value; variables = string_texts variables.items; channels = channels; earlier = earlier } }
        ensures tree { tree_of result ≡ body.value }
    {
        Proc {
            name,
            body,
            variables,
            channels,
            earlier,
        }
    }

    pub fn name(&self) -> &str
        ensures { result.now ≡ (proc_of self.now).name }
    {
        self.name.as_str()
    }

    /// The statements of the process.
    pub fn body(&self) -> &Arc<Block>
        ensures value { block_of result.now.value ≡ (proc_of self.now).body }
        ensures tree { result.now.value ≡ tree_of self.now }
        ensures limits { IsProc (proc_of self.now) }
        ensures place { (proc_of self.now).earlier < 64 }
    {
        &self.body
    }

    /// How many processes stand before it in its script: 0 to 63. It can name just these.
    pub fn earlier(&self) -> u8
        ensures { result ≡ (proc_of self.now).earlier }
    {
        self.earlier
    }

    /// How many channels the script of the process declares.
    pub fn channels(&self) -> usize
        ensures { result ≡ (proc_of self.now).channels }
    {
        self.channels
    }

    /// How many variables the process has.
    #[tactic(auto, using(crate::proofs::Texts::length_texts))]
    pub fn variables(&self) -> usize
        ensures { result ≡ length (proc_of self.now).variables }
    {
        self.variables.len()
    }

    /// The name of a variable, if the process has it.
    #[tactic(auto, using(crate::proofs::Texts::get_texts))]
    pub fn variable_name(&self, variable: usize) -> Option<&str>
        ensures { option_map (λ name. name.now) result ≡ slice_get (proc_of self.now).variables variable }
    {
        let name = self.variables.get(variable)?;
        Some(name.as_str())
    }
}

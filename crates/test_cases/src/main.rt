//! `test_cases`: plays the case files that its words name, each a text of files, of calls of the program on
//! them, and of what each is to come to. It prints how many calls were made of each, and tells every call that
//! comes to something else, by file and line, on the error stream; then its status is 1.
#![tactic(auto)]

mod answers;
mod blocks;
mod calls;
mod player;
mod shelf;

use crate::player::Player;
use anyhow::{Result, bail};
use std::io::Write;
use std::{env, fs, io};

fn main(rt: HostRuntime) -> Result<()> {
    let errors = rt.stderr();
    let mut err = io::writer(&errors);
    let mut is_wrong = false;
    for name in env::args(&rt)?.skip(1) {
        let text = fs::read_to_string(&rt, name.as_str())?;
        let mut player = Player::new(&rt, name.as_str());
        player.play(text.as_str())?;
        println!(rt; "{name}: {} calls", player.calls)?;
        if !player.wrong.is_empty() {
            is_wrong = true;
            write!(err, "{}", player.wrong)?;
        }
    }
    if is_wrong {
        bail!("some calls came to something else");
    }
    Ok(())
}

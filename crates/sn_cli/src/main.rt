//! The program `sn`: its top call, and the real outside that `main` hands to it.
#![tactic(auto)]

mod calling;
mod ends;
mod generating;
mod help;
mod input;
mod listing;
mod opening;
mod output;
mod outside;
mod passwords;
mod program;
mod replaying;
mod sealing;
mod serving;
mod showing;
mod words;

use outside::DrawnSeed;
use program::run;
use rand_chacha::ChaCha20Rng;
use rand_core::Rng;
use sn_disk::MemShelf;
use sn_status::{Status, tell};
use sn_system::{FileShelf, Input, Output, SystemClock, TcpLink, TcpPort};
use std::fs::File;
use std::io;
use std::process::ExitCode;
use std::random::RandomSource;
use words::{arguments, status_without_words};

fn main(rt: HostRuntime) -> ExitCode {
    // A standard stream that is closed leaves its number to what is opened next, and a store must not get it: what the program
    // writes would go into the store. A folder can neither be read nor written, so such a stream stays a fault.
    let _input = File::open(&rt, "/");
    let _output = File::open(&rt, "/");
    let _error = File::open(&rt, "/");
    let status = match arguments(&rt) {
        Ok(words) => run_on_streams(&rt, &words),
        Err(error) => told(&rt, status_without_words(&error)),
    };
    ExitCode::from(status.code())
}

fn run_on_streams(rt: &HostRuntime, words: &[String]) -> Status {
    let Ok(seed) = system_seed(rt) else {
        return told(rt, Status::ReadFault);
    };
    run(
        rt.alloc(),
        words,
        &mut FileShelf::new(rt),
        &mut MemShelf::new(rt.alloc(), Vec::new(rt.alloc())),
        &mut TcpPort::new(rt),
        &mut TcpLink::new(rt),
        &mut Input::new(rt.reader()),
        &mut Output::new(rt.stdout()),
        &mut Output::new(rt.stderr()),
        &mut SystemClock::new(rt),
        &mut DrawnSeed::new(seed),
    )
}

// The status, once its line is written.
fn told(rt: &HostRuntime, status: Status) -> Status {
    tell(rt.alloc(), &mut Output::new(rt.stderr()), status)
}

fn system_seed(rt: &impl RandomSource) -> io::Result<[u8; 32]> {
    let mut generator: ChaCha20Rng = rand::make_rng(rt)?;
    let mut seed = [0u8; 32];
    generator.fill_bytes(&mut seed);
    Ok(seed)
}

// The program mlkem: the library's calls on files. The first argument names the call; where it is one on keys the
// second names the parameter set. The others are files and numbers.
#![tactic(auto)]

use cli_commands::commands::{Call, Command, Stream, print_form, print_usage};
use cli_commands::{hashes, keys, stream_sampling};
use cli_support::arguments::{Word, count};
use cli_support::desk::Desk;
use cli_support::messages::{Told, unknown};
use cli_support::sets::{Sizes, sizes_at};

// The one place that goes by the call: a table of functions would say it no plainer.
fn run_call(desk: &impl Desk, call: Call, set: Sizes) -> Result<(), Told> {
    match call {
        Call::KeyGen => keys::keygen(desk, set),
        Call::Encaps => keys::encaps(desk, set),
        Call::Import => cli_splitting::import(desk, set),
        Call::Refresh => cli_splitting::refresh(desk, set),
        Call::Decaps => cli_decapsulating::decaps(desk, set),
        Call::Trace => cli_decapsulating::trace(desk, set),
        Call::Demo => cli_demo::demo(desk, set),
    }
}

// For the parameter set that argument 2 names.
fn run_named(desk: &impl Desk, call: Call) -> Result<(), Told> {
    let Some(set) = sizes_at(desk, 2) else {
        return Err(print_form(desk, Command::Calling(call)));
    };
    run_call(desk, call, set)
}

// The one place that goes by the command.
fn run(desk: &impl Desk, command: Command) -> Result<(), Told> {
    match command {
        Command::Help => {
            print_usage(desk, Stream::Output);
            Ok(())
        }
        Command::Hashing(hash) => hashes::run(desk, hash),
        Command::Sampling => stream_sampling::sample(desk),
        Command::Calling(call) => run_named(desk, call),
    }
}

fn run_line(desk: &impl Desk) -> Result<(), Told> {
    let words = count(desk);
    if words < 2 {
        print_usage(desk, Stream::Error);
        return Err(Told);
    }
    let word = Word::<4096>::at(desk, 1);
    let Some(command) = Command::named(word.bytes()) else {
        return Err(unknown(desk, word.bytes()));
    };
    if words != command.word_count() {
        return Err(print_form(desk, command));
    }
    run(desk, command)
}

// The exit status is 0 whatever is told.
fn main(rt: HostRuntime) {
    let _ = run_line(&rt);
}

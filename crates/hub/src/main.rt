// Shows what a layout table says, or numbers its features: the built-in one, or one of a font file.
#![tactic(auto)]

mod features;
mod fields;
mod scripts;
mod show;
mod troubles;
mod variations;
mod work;

use console::{Command, Request, SetWords, read_request};
use show::Show;
use source::Kind;
use std::env;
use std::fmt::Display;
use std::process::ExitCode;
use troubles::{Fault, Halt, Trouble};
use work::{Task, work_builtin, work_file};

const USAGE: &str = "hub                  show the built-in font's table
hub show GSUB FILE   show the GSUB table of a file
hub show GPOS FILE   show the GPOS table of a file
hub help             print this

FILE is a font file (OpenType, .ttf or .otf), or a bare table of at most 65535 bytes.";

const NUMBER_USAGE: &str = "hub number           number the features of the built-in font's table
hub number GSUB FILE LOOKUPS FEATURES SCRIPTS
                     number the kept features of a file's table (or GPOS)

LOOKUPS and FEATURES are the indices that are kept, with commas, as 0,1,4-9; SCRIPTS are script tags, as latn,DFLT.
Each may be 'all' or 'none'. At most 1024 lookups, 512 features and 64 script tags are kept.";

// The program ends with status 1.
#[derive(Debug, Drop)]
struct Failed;

fn main(rt: HostRuntime) -> ExitCode {
    match start(&rt) {
        Ok(()) => ExitCode::SUCCESS,
        Err(_) => ExitCode::FAILURE,
    }
}

// Each program says in words of its own what is wrong, so one function for all of them would be no plainer.
fn start(rt: &HostRuntime) -> Result<(), Failed> {
    match env::args(rt) {
        Ok(args) => match args.skip(1).collect::<Vec<String>>(rt.alloc()) {
            Ok(words) => run(rt, words.as_slice()),
            Err(_) => fail(rt, Halt::Memory),
        },
        Err(_) => fail(
            rt,
            "the words after the program's name are not text; write them in UTF-8",
        ),
    }
}

fn fail<T: Display + Drop>(rt: &HostRuntime, why: T) -> Result<(), Failed> {
    let _ = eprintln!(rt; "hub: {why}");
    Err(Failed)
}

fn run(rt: &HostRuntime, words: &[String]) -> Result<(), Failed> {
    match read_request(words) {
        Ok(request) => obey(rt, request),
        Err(misuse) => fail(rt, misuse),
    }
}

fn obey(rt: &HostRuntime, request: Request<'_>) -> Result<(), Failed> {
    match request {
        Request::Plain(command) => obey_command(rt, command),
        Request::NumberBuiltin => on_builtin(
            rt,
            SetWords {
                lookups: "0,1",
                features: "all",
                scripts: "latn",
            },
        ),
        Request::Number { kind, path, sets } => on_file(rt, kind, path, sets),
    }
}

fn obey_command(rt: &HostRuntime, command: Command<'_>) -> Result<(), Failed> {
    match command {
        Command::Help => print_usage(rt),
        Command::Builtin => on_builtin(rt, Show),
        Command::Show { kind, path } => on_file(rt, kind, path, Show),
    }
}

fn print_usage(rt: &HostRuntime) -> Result<(), Failed> {
    match println!(rt; "{USAGE}\n\n{NUMBER_USAGE}") {
        Ok(()) => Ok(()),
        Err(_) => fail(rt, Halt::Output),
    }
}

fn on_builtin<'a, T: Task<'a>>(rt: &HostRuntime, task: T) -> Result<(), Failed> {
    settle(rt, Kind::Gsub, "built in", work_builtin(rt, task))
}

// Kind and path are the words of one request, which end here and in what is told of a fault.
fn on_file<'a, T: Task<'a>>(
    rt: &HostRuntime,
    kind: Kind,
    path: &'a str,
    task: T,
) -> Result<(), Failed> {
    settle(rt, kind, path, work_file(rt, kind, path, task))
}

fn settle<'a>(
    rt: &HostRuntime,
    kind: Kind,
    path: &'a str,
    done: Result<(), Fault<'a>>,
) -> Result<(), Failed> {
    match done {
        Ok(()) => Ok(()),
        Err(fault) => fail(rt, Trouble { path, kind, fault }),
    }
}

//! The program `cache DIR WORD..`: it runs the store in the directory DIR on the script of its standard input, says the
//! replies on its standard output, and ends with the status of the run.
#![tactic(auto)]

mod directory_settings;
mod folder_host;
mod foreign;
mod handles;
mod laws;
mod pump;
mod run;
mod saying;
mod serve;
mod settings_file;
mod stdin_source;
mod words;

use cache_model::Status;
use folder_host::FolderHost;
use std::env;
use std::fs::{File, Files};
use std::io::ErrorKind;
use std::os::fd::AsRawFd;
use std::process::ExitCode;
use stdin_source::StdinSource;

fn main(rt: HostRuntime) -> ExitCode {
    let _places = [stand_in(&rt), stand_in(&rt), stand_in(&rt)];
    let status = match env::args(&rt) {
        Ok(args) => serve_args(rt, args),
        Err(error) if error.kind() == ErrorKind::OutOfMemory => Status::NoMemory,
        Err(_) => Status::Usage,
    };
    ExitCode::from(status as u8)
}

// The first argument is the program's name, the second the directory, and the others are the words of the run.
fn serve_args(rt: HostRuntime, mut args: env::Args) -> Status {
    args.next();
    let Some(directory) = args.next() else {
        return Status::Usage;
    };
    let Ok(words) = args.collect::<Vec<String>>(rt.alloc()) else {
        return Status::NoMemory;
    };
    let mut source = StdinSource::new(&rt);
    let alloc = rt.alloc();
    let Ok(mut host) = FolderHost::new(rt, alloc, directory) else {
        return Status::NoMemory;
    };
    serve::serve(alloc, &words, &mut host, &mut source)
}

// A file in the place of a standard stream that was closed before the program began, None where there is no such place.
// Without it a file of the store would be opened there, and what is said would be written into it. It can neither be read
// nor written, as a closed stream.
fn stand_in<R: Files<File = File>>(rt: &R) -> Option<File> {
    // The platform gives the least number that is free.
    let file = File::open(rt, "/").ok()?;
    if file.as_raw_fd() <= 2 {
        Some(file)
    } else {
        None
    }
}

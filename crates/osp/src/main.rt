//! The program `osp`: the commands over standard input, output and error.
#![tactic(auto)]

use byte_ports::{StdErr, StdIn, StdOut};
use plan_command::{OpenGate, Status, run, status_code};
use std::env;
use std::io::ErrorKind;
use std::process::ExitCode;

fn main(rt: HostRuntime) -> ExitCode {
    let no_memory = ExitCode::from(status_code(Status::NoMemory));
    let mut words = Vec::new(rt.alloc());
    match env::args(&rt) {
        Ok(args) => {
            // The first word is the program's name.
            for word in args.skip(1) {
                if words.push(word).is_err() {
                    return no_memory;
                }
            }
        }
        Err(refused) => {
            if refused.kind() == ErrorKind::OutOfMemory {
                return no_memory;
            }
            // Words that aren't text spell no request, as no words do: the run says so.
        }
    }
    let mut source = StdIn::new(rt.stdin());
    let mut out = StdOut::new(rt.stdout());
    let mut err = StdErr::new(rt.stderr());
    let status = run(&rt, &words, &mut source, &mut out, &mut err, &OpenGate);
    ExitCode::from(status_code(status))
}

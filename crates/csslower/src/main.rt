//! Rewrites a stylesheet for older browsers, so that every element keeps its winning declarations.
//!
//! `run` is the whole program over files and outputs that are given to it; `main` hands in the real ones, and the arguments.
#![tactic(auto)]

mod args;
mod exceed;
mod judge;
mod laws;
mod load;
mod one_file;
mod put_text;
mod read_text;
mod refuse;
mod run;
mod say;
mod status;
mod target_law;
#[cfg(test)]
mod tests;
mod text_fault;
mod words;

use crate::args::{exit_code, run_args};
use css_outside::{FolderFiles, FolderOutbox};
use std::env;
use std::process::ExitCode;

fn main(rt: HostRuntime) -> ExitCode {
    let mut files = FolderFiles::new(rt);
    let mut out = FolderOutbox::new(rt, rt.alloc());
    exit_code(run_args(rt.alloc(), env::args(&rt), &mut files, &mut out))
}

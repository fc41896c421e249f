//! Runs the whole program and its recheck over memory, and tells of each case whether it wrote what it must. The standard input has the
//! cases of the program, by lines:
//!
//! - `folder`: a folder without modules, which stays for the cases behind it; `file PATH`, a module more; `|TEXT`, a line of its text, with
//!   an LF before it where it is not the first; `+TEXT` and `times N TEXT`, more of the line.
//! - `case NAME` begins a case, with the word `d`; `words WORDS` gives it other words; `>TEXT` is a line of its script, `bytes N BYTE` so
//!   many bytes more of it, and `<TEXT` a line that it must write.
//! - `goes OBJECT fails N` or `goes OBJECT refuses N`: the call of this number fails, or memory is refused to it; without N each call in turn.
//!   The object is `folder`, `source` or `sink`. `step N`: at most so many bytes are read or written at a call, and the
//!   source and the sink don't fail.
//! - `waits sources N`, `waits poll N` and `waits flags N`: who waits for whom (`meeting::Rule`). `kept VERSION PINS/SEEN ..`: what must be
//!   kept, with each lane.
//! - `status N` ends a case, with the status that it must have.
//! - `test NAME` ends a case in place of `status`: it runs a test of calls below the program, which must tell the lines that are wanted.
//!
//! What must be written was made from the language's description by hand; the types at places, by a search through the definition.
#![tactic(auto)]

mod calls;
mod cases;
mod ends;
mod meeting;
mod outside;
mod values;

use cases::CaseReader;
use flow_base::NoMemory;
use std::io;

fn main(rt: HostRuntime) -> io::Result<()> {
    let mut reader = CaseReader::new(rt.alloc());
    for line in rt.lines(rt.alloc()) {
        let line = line?;
        match reader.answer(&rt, line.as_str()) {
            Ok(Some(told)) => println!(rt; "{told}")?,
            Ok(None) => {}
            Err(NoMemory) => println!(rt; "wrong: {line}: no memory")?,
        }
    }
    Ok(())
}

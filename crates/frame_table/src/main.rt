//! Framed scripts in pieces, as a table.
//!
//! `frame_table` answers each line of standard input, a name and the bytes of a script in hexadecimal: whole, and byte
//! by byte, with the frames that `Frames` gives of the pieces and the replies of `play --frames`, in hexadecimal too.
//! Its stored run is the test that pieces tell nothing.
#![tactic(auto)]

mod pieces;
mod table;

use std::io;
use std::io::{Read, Write};

fn main(rt: HostRuntime) -> io::Result<()> {
    let alloc = rt.alloc();
    let text = io::read_to_string(alloc, rt.stdin())?;
    let mut out = Vec::new(alloc);
    table::answer_all(alloc, &mut out, text.as_str())?;
    rt.stdout().write_all(out.as_slice())
}

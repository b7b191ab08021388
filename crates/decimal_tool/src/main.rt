//! Answers lines of operations on decimals, for comparison with `java.math.BigDecimal`.
#![tactic(auto)]

mod answers;
mod operations;

use std::io;
use std::io::{BufRead, BufReader, BufWriter, Write};

/// Each line of the input is answered by a line of the output.
fn main(rt: HostRuntime) -> io::Result<()> {
    let mut out = BufWriter::new(rt.alloc(), io::writer(&rt))?;
    for line in BufReader::new(rt.alloc(), rt.reader())?.lines(rt.alloc()) {
        let line = line?;
        match answers::work_out(line.as_str()) {
            Some(answer) => writeln!(out, "{answer}")?,
            None => writeln!(out, "none")?,
        }
    }
    out.flush()
}

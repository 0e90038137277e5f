//! A run over a script when memory runs out: it ends with that, or a line says that its call was refused; and what was written up to there
//! is what would have been written.
//!
//! `checks/memory` runs this with each allocation refused in turn.
use log::Log;
use looptrace::streams::Streams;
use looptrace::trace::trace;
use std::alloc::Global;
use std::io;
use std::sync::Wait;

const SCRIPT: &[u8] =
    b"ping a\ntimer b 5\nping c\nring c\nring a\nanswer 0 r\ndispatch 0\ndispatch 10\n";

const SAID: &[u8] =
    b"insert a 0 0\ninsert b 1 0\ninsert c 2 0\nwait 0\ncall a\ncall c\nwait 5\ncall b 5\n";

const REFUSED: &[u8] = b"refused OutOfMemory\n";

#[test]
fn a_run_that_wants_memory_has_written_a_beginning(rt: HostRuntime) {
    // Without room for what is written there is nothing to run.
    if let Ok(output) = Vec::with_capacity(rt.alloc(), 400) {
        assert!(rt; begins(&rt, rt.alloc(), output));
    }
}

fn begins<Q: Wait + Log + Clone + Drop>(rt: &Q, alloc: Global, output: Vec<u8>) -> bool {
    let mut streams = Streams::new(SCRIPT, output, Vec::new(alloc));
    let answer = trace(rt, alloc, &mut streams);
    let said = streams.output.as_slice();
    match answer {
        // The name of a source that was refused may be known to no later line.
        Ok(status) => status == 0 && said == SAID || is_refused(said),
        Err(cause) => cause.kind() == io::ErrorKind::OutOfMemory && SAID.starts_with(said),
    }
}

// Whether a line says that memory runs out, behind what would have been said.
fn is_refused(said: &[u8]) -> bool {
    for place in 0..said.len() {
        if said[place..].starts_with(REFUSED) {
            return SAID.starts_with(&said[..place]);
        }
    }
    false
}

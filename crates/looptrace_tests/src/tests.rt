ghost use Rattle.std.specs.Prelude.{◌≡◌, Some, None, nat_eq, codes, if◌then◌else◌};
ghost use Rattle.std.specs.Cmp.Lexicographic.{pointwise};
ghost use Rattle.looptrace.specs.Texts.{call_text, next_number};

use crate::scripts::wrong_scripts_are_ruled_out;
use calloop::Error;
use log::sink::Memory;
use log::{Level, Log, Logged};
use looptrace::command::{Command, parse};
use looptrace::driver::{Runner, drive};
use looptrace::lines::{read_line, without_feed};
use looptrace::name::SourceName;
use looptrace::streams::Streams;
use looptrace::text::{append_alarm, append_call, append_insert, append_refused, append_wait};
use looptrace::trace::trace;
use looptrace::warnings::log_warnings;
use std::alloc::{AllocError, Global};
use std::io;
use std::io::{BufRead, Read, Write};
use std::sync::Wait;
use std::test::Fail;

mod memory;

#[test]
fn the_law_of_timers_rules_some_scripts_out(_rt: HostRuntime) {
    wrong_scripts_are_ruled_out::<HostRuntime>();
}

#[test]
fn a_line_that_is_no_command_is_not_read(rt: HostRuntime) {
    let lines: [&[u8]; 75] = [
        b"ping",
        b"ping ",
        b"ping  a",
        b"ping a ",
        b"ping a\r",
        b" ping a",
        b"ping A",
        b"ping a_b",
        b"ping \xff",
        b"\xc3\x28",
        b"Ping a",
        b"ping a b",
        b"ping abcdefghijklmnopqrstuvwxyz0123456",
        b"ring",
        b"ring ",
        b"ring `",
        b"ring {",
        b"ring /",
        b"ring :",
        b"dispatch",
        b"dispatch ",
        b"dispatch -1",
        b"dispatch --",
        b"dispatch +1",
        b"dispatch 01",
        b"dispatch 00",
        b"dispatch 1 ",
        b"dispatch 1\r",
        b"dispatch 1a",
        b"dispatch 18446744073709551616",
        b"dispatch 100000000000000000000",
        b"timer",
        b"timer ",
        b"timer a",
        b"timer a ",
        b"timer 5",
        b"timer a 05",
        b"timer a 18446744073709551616",
        b"timer  a 5",
        b"timer a  5",
        b"timer a 5 ",
        b"timer A 5",
        b"timer a -",
        b"remove",
        b"remove ",
        b"remove 0",
        b"remove 0 ",
        b"remove 0 00",
        b"remove  0 0",
        b"remove 0 0 ",
        b"remove a 0",
        b"remove 18446744073709551616 0",
        b"remove 0 18446744073709551616",
        b"answer",
        b"answer ",
        b"answer 0",
        b"answer 0 ",
        b"answer 0 e",
        b"answer 0 wr",
        b"answer 0 r ",
        b"answer  0 r",
        b"answer 00 r",
        b"answer 18446744073709551616 r",
        b"clock",
        b"clock ",
        b"clock 01",
        b"clock -",
        b"fault x",
        b"fault ",
        b"close",
        b"close ",
        b"close A",
        b"close  a",
        b"close a b",
        b" ",
    ];
    for line in lines {
        assert!(rt; is_no_command(rt.alloc(), line), "{line:?}");
    }
    assert!(rt; is_no_command(rt.alloc(), b"\r"));
}

#[test]
fn a_name_of_1_to_32_letters_and_digits_is_read(rt: HostRuntime) {
    let names: [&[u8]; 4] = [b"a", b"0", b"z9", b"abcdefghijklmnopqrstuvwxyz012345"];
    for name in names {
        assert!(rt; is_named(rt.alloc(), b"ping ", name), "{name:?}");
        assert!(rt; is_named(rt.alloc(), b"ring ", name), "{name:?}");
        assert!(rt; is_named(rt.alloc(), b"close ", name), "{name:?}");
    }
}

#[test]
fn a_name_keeps_its_bytes(rt: HostRuntime) -> Result<(), Fail> {
    assert_eq!(rt;
        SourceName::new(rt.alloc(), b"z9")?.as_slice(),
        b"z9".as_slice()
    );
    Ok(())
}

#[test]
fn a_timeout_is_read_up_to_the_last_number(rt: HostRuntime) {
    let table: [(&[u8], Option<u64>); 4] = [
        (b"dispatch -", None),
        (b"dispatch 0", Some(0)),
        (b"dispatch 10", Some(10)),
        (b"dispatch 18446744073709551615", Some(u64::MAX)),
    ];
    for (line, timeout) in table {
        assert!(rt; timeout_of(rt.alloc(), line) == Some(timeout), "{line:?}");
    }
}

#[test]
fn an_empty_line_is_a_command_that_does_nothing(rt: HostRuntime) {
    assert!(rt; matches!(parse(rt.alloc(), b""), Ok(Some(Command::Nothing))));
}

#[test]
fn each_thing_that_a_run_says_has_its_text(rt: HostRuntime) {
    let mut out = Vec::new(rt.alloc());
    assert!(rt; said_all(&mut out).is_ok());
    assert_eq!(rt;
        out.as_slice(),
        b"insert a0 0 0\ninsert b 16777215 16777215\nwait -\nwait 18446744073709551615\ncall a0\ncall t 18446744073709551615\nrefused InvalidToken\n".as_slice()
    );
}

#[test]
fn lines_end_at_each_feed_and_at_the_end(rt: HostRuntime) {
    let mut input = b"a\n\nb".as_slice();
    let mut line = Vec::new(rt.alloc());
    let wanted: [&[u8]; 3] = [b"a", b"", b"b"];
    for want in wanted {
        assert!(rt; matches!(read_line(&mut input, &mut line), Ok(true)));
        assert_eq!(rt; without_feed(&line), want);
    }
    assert!(rt; matches!(read_line(&mut input, &mut line), Ok(false)));
}

// The line has 65 bytes, one more than a line that can be a command.
#[test]
fn no_more_is_read_of_a_line_than_can_be_a_command(rt: HostRuntime) {
    let mut input =
        b"12345678901234567890123456789012345678901234567890123456789012345\n".as_slice();
    let mut line = Vec::new(rt.alloc());
    assert!(rt; matches!(read_line(&mut input, &mut line), Ok(true)));
    assert_eq!(rt;
        line.as_slice(),
        b"12345678901234567890123456789012345678901234567890123456789012345".as_slice()
    );
    assert_eq!(rt; input, b"\n".as_slice());
}

#[test]
fn a_line_of_as_many_bytes_as_a_command_may_have_is_read_whole(rt: HostRuntime) {
    let mut input =
        b"1234567890123456789012345678901234567890123456789012345678901234\na".as_slice();
    let mut line = Vec::new(rt.alloc());
    assert!(rt; matches!(read_line(&mut input, &mut line), Ok(true)));
    assert_eq!(rt;
        without_feed(&line),
        b"1234567890123456789012345678901234567890123456789012345678901234".as_slice()
    );
    assert_eq!(rt; input, b"a".as_slice());
}

#[test]
fn the_longest_command_is_carried_out(rt: HostRuntime) {
    let script = b"timer abcdefghijklmnopqrstuvwxyz012345 18446744073709551615\n";
    let out = b"insert abcdefghijklmnopqrstuvwxyz012345 0 0\n";
    assert!(rt; runs(&rt, rt.alloc(), script, 0, out, b""));
}

#[test]
fn a_line_of_a_million_bytes_is_refused_at_its_beginning(rt: HostRuntime) -> Result<(), Fail> {
    let long = vec![in rt.alloc(); b'1'; 1_000_000]?;
    assert!(rt; is_refused_after(&rt, rt.alloc(), &long, 65, b"", b"error line 1\n"));
    let mut script = Vec::new(rt.alloc());
    script.extend_from_slice(b"ping a\n\n")?;
    script.extend_from_slice(&long)?;
    script.extend_from_slice(b"\nping b\n")?;
    assert!(rt;
        is_refused_after(
            &rt,
            rt.alloc(),
            &script,
            73,
            b"insert a 0 0\n",
            b"error line 3\n"
        )
    );
    Ok(())
}

#[test]
fn a_runner_is_driven_to_the_first_line_that_it_does_not_read(rt: HostRuntime) {
    let table: [(&[u8], (u8, u64), &[u8], &[u8]); 4] = [
        (b"up\nup", (0, 2), b"call up\ncall up\n", b""),
        (b"up\ndown\nup\n", (2, 1), b"call up\n", b"error line 2\n"),
        (b"", (0, 0), b"", b""),
        (
            b"up\n12345678901234567890123456789012345678901234567890123456789012345\nup\n",
            (2, 1),
            b"call up\n",
            b"error line 2\n",
        ),
    ];
    for (script, ends, out, err) in table {
        assert!(rt;
            counts(&rt, rt.alloc(), script, ends, out, err),
            "{script:?}"
        );
    }
}

#[test]
fn rings_and_deadlines_are_called_at_the_next_dispatch(rt: HostRuntime) {
    let table: [(&[u8], &[u8]); 11] = [
        (b"", b""),
        (
            b"ping a\nring a\ndispatch 0\n",
            b"insert a 0 0\nwait 0\ncall a\n",
        ),
        (
            b"ping a\nring a\ndispatch 0",
            b"insert a 0 0\nwait 0\ncall a\n",
        ),
        (b"clock 18446744073709551615\ndispatch 5\n", b"wait 5\n"),
        (
            b"ping a\nring a\nfault\ndispatch 5\ndispatch 5\n",
            b"insert a 0 0\nwait 0\nrefused IoError\nwait 0\ncall a\n",
        ),
        (
            b"timer t 5\nfault\nfault\ndispatch 5\ndispatch 5\n",
            b"insert t 0 0\nwait 5\nrefused IoError\nwait 5\ncall t 5\n",
        ),
        (
            b"timer a 5\ntimer b 5\nclock 10\ndispatch 0\n",
            b"insert a 0 0\ninsert b 1 0\nwait 0\ncall a 5\ncall b 5\n",
        ),
        (
            b"timer t 500\ndispatch 250\ndispatch 510\ndispatch 10\n",
            b"insert t 0 0\nwait 250\nwait 250\ncall t 500\nwait 10\n",
        ),
        (
            b"timer c 30\ntimer a 10\ntimer b 20\nclock 50\ndispatch 0\n",
            b"insert c 0 0\ninsert a 1 0\ninsert b 2 0\nwait 0\ncall a 10\ncall b 20\ncall c 30\n",
        ),
        (
            b"timer t 5\nping p\nring p\nclock 5\ndispatch 0\n",
            b"insert t 0 0\ninsert p 1 0\nwait 0\ncall p\ncall t 5\n",
        ),
        (
            b"timer a 0\ndispatch 0\nping b\n",
            b"insert a 0 0\nwait 0\ncall a 0\ninsert b 0 1\n",
        ),
    ];
    for (script, out) in table {
        assert!(rt; runs(&rt, rt.alloc(), script, 0, out, b""), "{script:?}");
    }
}

#[test]
fn a_second_line_that_cannot_be_carried_out_ends_the_run(rt: HostRuntime) {
    let table: [(&[u8], &[u8]); 30] = [
        (b"ping a\n", b"ping a"),
        (b"ping a\n", b"timer a 5"),
        (b"ping a\n", b"ring b"),
        (b"ping a\n", b"ping "),
        (b"ping a\n", b"ping abcdefghijklmnopqrstuvwxyz0123456"),
        (b"ping a\n", b"ping A"),
        (b"ping a\n", b"ping \xff"),
        (b"ping a\n", b"ping  b"),
        (b"ping a\n", b"dispatch 00"),
        (b"ping a\n", b"dispatch 01"),
        (b"ping a\n", b"dispatch +1"),
        (b"ping a\n", b"dispatch 18446744073709551616"),
        (b"ping a\n", b"dispatch 0\r"),
        (b"ping a\n", b"close b"),
        (b"timer a 5\n", b"timer a 5"),
        (b"timer a 5\n", b"ping a"),
        (b"timer a 5\n", b"ring a"),
        (b"timer a 5\n", b"close a"),
        (b"timer a 5\n", b"timer b"),
        (b"timer a 5\n", b"timer b 05"),
        (b"timer a 5\n", b"timer b 18446744073709551616"),
        (b"timer a 5\n", b"timer  b 5"),
        (b"timer a 5\n", b"clock"),
        (b"timer a 5\n", b"clock 01"),
        (b"timer a 5\n", b"clock -"),
        (b"timer a 5\n", b"fault x"),
        (b"ping a\n", b"timer abcdefghijklmnopqrstuvwxyz0123456 5"),
        (b"ping a\n", b"timer b 184467440737095516150"),
        (
            b"ping a\n",
            b"ping b 890123456789012345678901234567890123456789012345678901234",
        ),
        (
            b"ping a\n",
            b"ping b 8901234567890123456789012345678901234567890123456789012345",
        ),
    ];
    for (first, second) in table {
        assert!(rt;
            ends_at_second(&rt, rt.alloc(), first, second),
            "{second:?}"
        );
    }
}

#[test]
fn what_is_removed_is_not_called(rt: HostRuntime) {
    let table: [(&[u8], u8, &[u8], &[u8]); 5] = [
        (
            b"ping a\nremove 0 0\nping b\nring a\nring b\ndispatch 7\nremove 0 0\n",
            0,
            b"insert a 0 0\ninsert b 0 1\nwait 0\ncall b\nrefused InvalidToken\n",
            b"",
        ),
        (
            b"timer a 5\ntimer b 9\nremove 0 0\ndispatch 20\ndispatch 20\nremove 1 0\n",
            0,
            b"insert a 0 0\ninsert b 1 0\nwait 9\ncall b 9\nwait 20\nrefused InvalidToken\n",
            b"",
        ),
        (
            b"remove 3 0\nfault\ndispatch -\njump\n",
            2,
            b"refused InvalidToken\nwait -\nrefused IoError\n",
            b"error line 4\n",
        ),
        (
            b"remove 16777216 0\nremove 0 65536\nremove 4294967296 0\n",
            0,
            b"refused InvalidToken\nrefused InvalidToken\nrefused InvalidToken\n",
            b"",
        ),
        (
            b"ping a\nremove 0 16777216\nremove 0 0\nping b\n",
            0,
            b"insert a 0 0\nrefused InvalidToken\ninsert b 0 1\n",
            b"",
        ),
    ];
    for (script, status, out, err) in table {
        assert!(rt;
            runs(&rt, rt.alloc(), script, status, out, err),
            "{script:?}"
        );
    }
}

#[test]
fn a_ping_that_is_closed_leaves_after_its_last_call(rt: HostRuntime) {
    let table: [(&[u8], u8, &[u8], &[u8]); 3] = [
        (
            b"ping a\nring a\nclose a\ndispatch 7\ndispatch 9\nping b\nclose b\nring b\n",
            2,
            b"insert a 0 0\nwait 0\ncall a\nwait 9\ninsert b 0 1\n",
            b"error line 8\n",
        ),
        (
            b"ping a\nclose a\ndispatch 7\nremove 0 0\nclose a\n",
            2,
            b"insert a 0 0\nwait 0\nrefused InvalidToken\n",
            b"error line 5\n",
        ),
        (
            b"ping a\nremove 0 0\nring a\nclose a\ndispatch 5\n",
            0,
            b"insert a 0 0\nwait 5\n",
            b"",
        ),
    ];
    for (script, status, out, err) in table {
        assert!(rt;
            runs(&rt, rt.alloc(), script, status, out, err),
            "{script:?}"
        );
    }
}

// In the last, faults only delay the pending answer, which moves the clock back to its last line.
#[test]
fn an_answer_gives_its_events_in_its_order(rt: HostRuntime) {
    let table: [(&[u8], &[u8]); 3] = [
        (
            b"ping a\nremove 0 0\nping b\nanswer 0 r\nring b\ndispatch 7\n",
            b"insert a 0 0\ninsert b 0 1\nwait 0\ncall b\n",
        ),
        (
            b"timer a 5\ntimer b 5\nclock 10\nanswer 1099511627776 r\ndispatch 0\n",
            b"insert a 0 0\ninsert b 1 0\nwait 0\ncall b 5\ncall a 5\n",
        ),
        (
            b"timer a 9\nclock 4\nanswer 18446744073709551615 rw\nfault\nclock 6\nanswer 7 w\nclock 8\ndispatch 3\ndispatch 3\ndispatch -\n",
            b"insert a 0 0\nwait 1\nrefused IoError\nwait 1\nwait 3\ncall a 9\n",
        ),
    ];
    for (script, out) in table {
        assert!(rt; runs(&rt, rt.alloc(), script, 0, out, b""), "{script:?}");
    }
}

#[test]
fn an_answer_of_more_than_1024_events_is_refused(rt: HostRuntime) -> Result<(), Fail> {
    let mut script = Vec::new(rt.alloc());
    for _ in 0..1025 {
        script.extend_from_slice(b"answer 1 r\n")?;
    }
    assert!(rt; runs(&rt, rt.alloc(), &script, 2, b"", b"error line 1025\n"));
    Ok(())
}

#[test]
fn what_the_loop_warns_of_is_logged_in_its_order(rt: HostRuntime) {
    let log = Logged::new((), Level::Warn, Memory::new(rt.alloc()));
    let warnings = [Error::OwnTurn, Error::InvalidToken, Error::TooManyTimers];
    log_warnings(&log, &warnings, 1);
    let (_, memory) = log.into_parts();
    let lines = memory.into_lines();
    assert_eq!(rt; lines.len(), 2);
    assert!(rt;
        ends_with(
            lines.as_slice().first(),
            "invalid token provided to internal function"
        )
    );
    assert!(rt; ends_with(lines.as_slice().last(), "too many timers"));
}

#[test]
fn a_run_ends_where_its_output_is_full(rt: HostRuntime) {
    for fault in 0..27 {
        assert!(rt; is_cut_at(&rt, rt.alloc(), fault), "at {fault}");
    }
    let mut streams = Streams::new(RING, make_full(rt.alloc(), 27), Vec::new(rt.alloc()));
    assert!(rt; matches!(trace(&rt, rt.alloc(), &mut streams), Ok(0)));
    assert_eq!(rt; streams.output.taken.as_slice(), SAID);
}

#[test]
fn a_run_ends_where_its_errors_are_full(rt: HostRuntime) {
    for fault in 0..13 {
        assert!(rt; is_error_cut_at(&rt, rt.alloc(), fault), "at {fault}");
    }
    let mut streams = Streams::new(BAD, Vec::new(rt.alloc()), make_full(rt.alloc(), 13));
    assert!(rt; matches!(trace(&rt, rt.alloc(), &mut streams), Ok(2)));
    assert_eq!(rt; streams.errors.taken.as_slice(), REFUSAL);
}

#[test]
fn a_run_ends_where_its_reader_is_broken(rt: HostRuntime) {
    for fault in 0..26 {
        assert!(rt; is_broken_at(&rt, rt.alloc(), fault), "at {fault}");
    }
    let mut streams = Streams::new(
        make_broken(RING, 26),
        Vec::new(rt.alloc()),
        Vec::new(rt.alloc()),
    );
    assert!(rt; matches!(trace(&rt, rt.alloc(), &mut streams), Ok(0)));
    assert_eq!(rt; streams.output.as_slice(), SAID);
}

#[test]
fn a_read_that_is_interrupted_is_tried_again(rt: HostRuntime) {
    for fault in 0..26 {
        let input = Broken {
            script: RING,
            calls: 0,
            fault,
            times: 9,
            kind: io::ErrorKind::Interrupted,
        };
        let mut streams = Streams::new(input, Vec::new(rt.alloc()), Vec::new(rt.alloc()));
        assert!(rt;
            matches!(trace(&rt, rt.alloc(), &mut streams), Ok(0)),
            "at {fault}"
        );
        assert_eq!(rt; streams.output.as_slice(), SAID);
    }
}

// A script of 25 bytes, and the 27 bytes that it has a run say.
const RING: &[u8] = b"ping a\nring a\ndispatch 0\n";

const SAID: &[u8] = b"insert a 0 0\nwait 0\ncall a\n";

// A script whose second line can't be carried out, and the 13 bytes of its error.
const BAD: &[u8] = b"ping a\nring b\nping c\n";

const REFUSAL: &[u8] = b"error line 2\n";

fn ends_with(line: Option<&String>, end: &str) -> bool {
    match line {
        Some(line) => line.as_bytes().ends_with(end.as_bytes()),
        None => false,
    }
}

fn is_no_command(alloc: Global, line: &[u8]) -> bool {
    matches!(parse(alloc, line), Ok(None))
}

// Whether the word with the name is the command of that word and name.
fn is_named(alloc: Global, word: &[u8], name: &[u8]) -> bool {
    let mut line = Vec::new(alloc);
    if line.extend_from_slice(word).is_err() || line.extend_from_slice(name).is_err() {
        return false;
    }
    match parse(alloc, &line) {
        Ok(Some(Command::Ping(read))) => word == b"ping ".as_slice() && read.as_slice() == name,
        Ok(Some(Command::Ring(read))) => word == b"ring ".as_slice() && read.as_slice() == name,
        Ok(Some(Command::Close(read))) => word == b"close ".as_slice() && read.as_slice() == name,
        _ => false,
    }
}

// The timeout of a line that dispatches.
fn timeout_of(alloc: Global, line: &[u8]) -> Option<Option<u64>> {
    match parse(alloc, line) {
        Ok(Some(Command::Dispatch(timeout))) => Some(timeout),
        _ => None,
    }
}

// Appends one of each thing that a run can say, with the least and the greatest numbers.
fn said_all(out: &mut Vec<u8>) -> Result<(), AllocError> {
    append_insert(out, b"a0", 0, 0)?;
    append_insert(out, b"b", 16_777_215, 16_777_215)?;
    append_wait(out, None)?;
    append_wait(out, Some(u64::MAX))?;
    append_call(out, b"a0")?;
    append_alarm(out, b"t", u64::MAX)?;
    append_refused(out, "InvalidToken")
}

// Counts the lines `up`, and reads no other.
#[derive(Drop)]
struct Counter {
    count: u64,
}

impl Runner for Counter {
    ghost use Rattle.std.specs.Prelude.{refl};
    ghost use Rattle.looptrace.specs.LongLines.{no_longer_word};

    ghost step = { λ counter line done. done ≡ (if pointwise nat_eq line (codes "up") then Some (record { count = next_number counter.count }, call_text line) else None) };

    ghost refuses = { λ counter line long. no_longer_word line (codes "up") _ refl long };

    fn line<Q: Wait + Log>(
        &mut self,
        _rt: &Q,
        line: &[u8],
        text: &mut Vec<u8>,
    ) -> io::Result<bool> {
        if line != b"up".as_slice() {
            return Ok(false);
        }
        append_call(text, line)?;
        self.count = self.count.saturating_add(1);
        Ok(true)
    }
}

// Whether the script ends with this status and count, after this was written to the two outputs.
fn counts<Q: Wait + Log>(
    rt: &Q,
    alloc: Global,
    script: &[u8],
    ends: (u8, u64),
    out: &[u8],
    err: &[u8],
) -> bool {
    let mut counter = Counter { count: 0 };
    let mut streams = Streams::new(script, Vec::new(alloc), Vec::new(alloc));
    let status = drive(rt, alloc, &mut counter, &mut streams);
    matches!(status, Ok(status) if status == ends.0)
        && counter.count == ends.1
        && streams.output.as_slice() == out
        && streams.errors.as_slice() == err
}

// Whether a whole run over the script ends with this status, after this was written to the two outputs.
fn runs<Q: Wait + Log + Clone + Drop>(
    rt: &Q,
    alloc: Global,
    script: &[u8],
    status: u8,
    out: &[u8],
    err: &[u8],
) -> bool {
    let mut streams = Streams::new(script, Vec::new(alloc), Vec::new(alloc));
    let ended = trace(rt, alloc, &mut streams);
    matches!(ended, Ok(found) if found == status)
        && streams.output.as_slice() == out
        && streams.errors.as_slice() == err
}

// Whether the first line is carried out, and the second can't be.
fn ends_at_second<Q: Wait + Log + Clone + Drop>(
    rt: &Q,
    alloc: Global,
    first: &[u8],
    second: &[u8],
) -> bool {
    let mut script = Vec::new(alloc);
    let made = script.extend_from_slice(first).is_ok()
        && script.extend_from_slice(second).is_ok()
        && script.extend_from_slice(b"\nping c\n").is_ok();
    made && runs(rt, alloc, &script, 2, b"insert a 0 0\n", REFUSAL)
}

// Takes a byte at each call, but fails at one call.
#[derive(Drop)]
struct Full {
    calls: usize,
    fault: usize,
    taken: Vec<u8>,
}

impl Write for Full {
    fn write(&mut self, buf: &[u8]) -> io::Result<usize> {
        let call = self.calls;
        self.calls = call.saturating_add(1);
        if call == self.fault {
            return Err(io::Error::from(io::ErrorKind::StorageFull));
        }
        let count = buf.len().min(1);
        self.taken.extend_from_slice(&buf[..count])?;
        Ok(count)
    }

    fn flush(&mut self) -> io::Result<()> {
        Ok(())
    }
}

fn make_full(alloc: Global, fault: usize) -> Full {
    Full {
        calls: 0,
        fault,
        taken: Vec::new(alloc),
    }
}

// Gives a byte of the script at each call, but fails so many times from one call on.
#[derive(Drop)]
struct Broken<'a> {
    script: &'a [u8],
    calls: u64,
    fault: u64,
    times: u64,
    kind: io::ErrorKind,
}

fn make_broken(script: &[u8], fault: u64) -> Broken<'_> {
    Broken {
        script,
        calls: 0,
        fault,
        times: 1,
        kind: io::ErrorKind::BrokenPipe,
    }
}

impl Read for Broken<'_> {
    fn read(&mut self, buf: &mut [u8]) -> io::Result<usize> {
        let call = self.calls;
        self.calls = call.saturating_add(1);
        if call >= self.fault && call - self.fault < self.times {
            return Err(io::Error::from(self.kind));
        }
        let most = buf.len().min(1);
        self.script.read(&mut buf[..most])
    }
}

// Nobody asks for these: looptrace reads a byte at a time.
impl BufRead for Broken<'_> {
    fn fill_buf(&mut self) -> io::Result<&[u8]> {
        Ok(self.script)
    }

    fn consume(&mut self, amount: usize) {
        self.script = &self.script[amount.min(self.script.len())..];
    }
}

fn is_fault(answer: io::Result<u8>, kind: io::ErrorKind) -> bool {
    match answer {
        Ok(_) => false,
        Err(error) => error.kind() == kind,
    }
}

// Whether a run fails whose output does at this call, and the output took the bytes before.
fn is_cut_at<Q: Wait + Log + Clone + Drop>(rt: &Q, alloc: Global, fault: usize) -> bool {
    let mut streams = Streams::new(RING, make_full(alloc, fault), Vec::new(alloc));
    let answer = trace(rt, alloc, &mut streams);
    is_fault(answer, io::ErrorKind::StorageFull)
        && SAID.get(..fault) == Some(streams.output.taken.as_slice())
        && streams.errors.is_empty()
}

// The same of the errors, of a run that ends with one.
fn is_error_cut_at<Q: Wait + Log + Clone + Drop>(rt: &Q, alloc: Global, fault: usize) -> bool {
    let mut streams = Streams::new(BAD, Vec::new(alloc), make_full(alloc, fault));
    let answer = trace(rt, alloc, &mut streams);
    is_fault(answer, io::ErrorKind::StorageFull)
        && REFUSAL.get(..fault) == Some(streams.errors.taken.as_slice())
        && streams.output.as_slice() == b"insert a 0 0\n".as_slice()
}

// What a run says before its reader fails at this call: what follows from whole lines.
fn said_before(fault: u64) -> &'static [u8] {
    match fault {
        0..7 => b"",
        7..25 => b"insert a 0 0\n",
        _ => SAID,
    }
}

// Whether a run fails whose reader does at this call, after it said that.
fn is_broken_at<Q: Wait + Log + Clone + Drop>(rt: &Q, alloc: Global, fault: u64) -> bool {
    let mut streams = Streams::new(make_broken(RING, fault), Vec::new(alloc), Vec::new(alloc));
    let answer = trace(rt, alloc, &mut streams);
    is_fault(answer, io::ErrorKind::BrokenPipe)
        && streams.output.as_slice() == said_before(fault)
        && streams.errors.is_empty()
}

// Whether a run ends with status 2 after this many bytes of the script were read, and this was written to the two outputs.
fn is_refused_after<Q: Wait + Log + Clone + Drop>(
    rt: &Q,
    alloc: Global,
    script: &[u8],
    count: u64,
    out: &[u8],
    err: &[u8],
) -> bool {
    let input = make_broken(script, u64::MAX);
    let mut streams = Streams::new(input, Vec::new(alloc), Vec::new(alloc));
    let answer = trace(rt, alloc, &mut streams);
    matches!(answer, Ok(2))
        && streams.input.calls == count
        && streams.output.as_slice() == out
        && streams.errors.as_slice() == err
}

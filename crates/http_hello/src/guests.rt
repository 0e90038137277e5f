//! The program's own clients, which show what the server does.
use std::alloc::Global;
use std::io::{self, BufRead, BufReader, Read, Write};
use std::net::TcpStream;

/// A client that reads one answer after another.
#[derive(Drop)]
struct Guest {
    reader: BufReader<TcpStream>,
    alloc: Global,
}

impl Guest {
    fn new(alloc: Global, stream: TcpStream) -> io::Result<Guest> {
        let reader = BufReader::new(alloc, stream)?;
        Ok(Guest { reader, alloc })
    }

    // Sends `text`, and notes the status of each of so many answers behind a title.
    fn ask(
        &mut self,
        title: &str,
        text: &[u8],
        answers: usize,
        noted: &mut String,
    ) -> io::Result<()> {
        noted.push_str(title)?;
        self.reader.get_mut().write_all(text)?;
        for _ in 0..answers {
            self.hear(noted)?;
        }
        Ok(())
    }

    // Notes the status of an answer, and reads it to its end.
    fn hear(&mut self, noted: &mut String) -> io::Result<()> {
        let mut length = 0u64;
        for line in self.reader.by_ref().lines(self.alloc) {
            let line = line?;
            if let Some(status) = line.strip_prefix("HTTP/1.1 ") {
                noted.push_str(", ")?;
                noted.push_str(status)?;
            } else if let Some(number) = line.strip_prefix("Content-Length: ") {
                length = number.parse().unwrap_or(0);
            } else if line.is_empty() {
                break;
            }
        }
        io::copy(&mut self.reader.by_ref().take(length), &mut io::sink())?;
        Ok(())
    }

    // Notes whether the server closes now, or sends more.
    fn wait_for_the_end(&mut self, noted: &mut String) -> io::Result<()> {
        let mut bytes = [0u8; 1];
        let read = self.reader.read(&mut bytes)?;
        noted.push_str(if read == 0 { ", closed\n" } else { ", more\n" })?;
        Ok(())
    }
}

/// Has four clients, which came in this order, speak to a server that serves three at once, and notes what each got. All stay until
/// the first one was silent for too long.
pub fn visit(alloc: Global, streams: [TcpStream; 4]) -> io::Result<String> {
    let [first, second, third, fourth] = streams;
    let mut first = Guest::new(alloc, first)?;
    let mut second = Guest::new(alloc, second)?;
    let mut third = Guest::new(alloc, third)?;
    let mut fourth = Guest::new(alloc, fourth)?;
    let mut noted = String::new(alloc);
    first.ask("one after the other", PAGE, 1, &mut noted)?;
    first.ask("", b"POST / HTTP/1.1\r\nHost: here\r\n\r\n", 1, &mut noted)?;
    second.ask("\npipelined", PIPELINED, 3, &mut noted)?;
    second.wait_for_the_end(&mut noted)?;
    third.ask("no request", b"\x00\r\n\r\n", 1, &mut noted)?;
    third.wait_for_the_end(&mut noted)?;
    fourth.ask("one too many", b"", 1, &mut noted)?;
    fourth.wait_for_the_end(&mut noted)?;
    first.ask("the first one, silent", b"", 0, &mut noted)?;
    first.wait_for_the_end(&mut noted)?;
    Ok(noted)
}

/// A request of the page.
const PAGE: &[u8] = b"GET / HTTP/1.1\r\nHost: here\r\n\r\n";

/// Three requests, of which the last one closes.
const PIPELINED: &[u8] =
    b"GET / HTTP/1.1\r\nHost: here\r\n\r\nGET /none HTTP/1.1\r\nHost: here\r\n\r\nGET / HTTP/1.1\r\nHost: here\r\nConnection: close\r\n\r\n";

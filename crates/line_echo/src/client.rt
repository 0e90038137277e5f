//! Clients of the server, each in a thread of its own.
use std::io;
use std::io::{Read, Write};
use std::net::TcpStream;

/// Sends three lines in two parts: whether they come back.
pub fn hears_back(mut stream: TcpStream) -> io::Result<bool> {
    stream.write_all(b"one\ntw")?;
    stream.write_all(b"o\nthree\n")?;
    let mut bytes = [0u8; 14];
    stream.read_exact(&mut bytes)?;
    Ok(bytes.as_slice() == b"one\ntwo\nthree\n".as_slice())
}

/// Sends nothing: whether the server ends the connection.
pub fn is_dropped(mut stream: TcpStream) -> io::Result<bool> {
    let mut bytes = [0u8; 1];
    Ok(stream.read(&mut bytes)? == 0)
}

//! Polls of an `Async` that move whole vectors and lines.
ghost use Rattle.std.specs.Prelude.{◌≡◌, ◌≢◌, ◌≤◌, ◌<◌, ◌+◌, ◌++◌, ◌∷◌, [], OnOk, IfOk, IfErr, IfSome, IfNone, IsSomeAnd, vec_len, length, slice_index, take, drop, All};
ghost use Rattle.std.specs.Io.{StartsWith};
ghost use Rattle.std.specs.IoError.{error_kind};
ghost use Rattle.std.specs.declared.io.ErrorKind.TheVariants.{OutOfMemory};
ghost use Rattle.calloop_ends.specs.futures.Polled.{IfReady, OnPending};
ghost use Rattle.calloop_io.specs.AsyncPolls.{to_write};
ghost use Rattle.calloop_io.specs.WholePolls.{HasMoreNotes, moved, last_since, count_of, WriteFailsSo, ReadsMore, TakesLine, WaitsForLine, LineFailsSo};
ghost use Rattle.calloop_io.specs.declared.notes.PollNote.TheVariants.{Waits};

use super::Async;
use calloop_ends::futures::{Context, Poll};
use std::io::{Read, Write};
use std::os::fd::AsRawFd;
use std::sync::Wait;
use std::{io, mem};

// The most bytes of one read.
const CHUNK: usize = 1024;

// The most reads of one poll for a line.
const READS: u32 = 64;

impl<F: AsRawFd + Drop, R: Wait + Clone + Drop> Async<F, R> {
    /// Writes all of `left`. What was written is taken out of `left`, so the next poll goes on from there; after an error `left`
    /// has what wasn't written. If the socket takes no more, it waits until the socket can be written. A write that takes
    /// nothing is an error of kind `WriteZero`; it fails as `poll_write` does otherwise.
    pub fn poll_write_all(
        &mut self,
        cx: &mut Context<'_, R>,
        left: &mut Vec<u8>,
    ) -> Poll<io::Result<()>>
    where
        F: Write,
        ensures notes { HasMoreNotes self.old self.new }
        ensures left { left.new.items ≡ drop (moved self.old self.new) left.old.items }
        ensures count { vec_len left.old ≡ moved self.old self.new + vec_len left.new }
        ensures all { IfReady result (λ told. OnOk told (left.new.items ≡ [])) }
        ensures waits { OnPending result (last_since self.old self.new ≡ Some (Waits to_write)) }
        ensures err { IfReady result (λ told. IfErr told (λ cause.
            IsSomeAnd (last_since self.old self.new) (WriteFailsSo cause))) }
    {
        while !left.is_empty() {
            match self.poll_write(cx, left) {
                Poll::Ready(Ok(0)) => {
                    return Poll::Ready(Err(io::Error::from(io::ErrorKind::WriteZero)));
                }
                Poll::Ready(Ok(count)) => drop_first(left, count),
                Poll::Ready(Err(cause)) => return Poll::Ready(Err(cause)),
                Poll::Pending => return Poll::Pending,
            }
        }
        Poll::Ready(Ok(()))
    }

    /// Reads what is there, at most 1,024 bytes, to the end of `to`. It returns how many; 0 is the end of the stream. If there is
    /// no memory for so many it fails with an error of kind `OutOfMemory`, and reads nothing; it fails and waits as `poll_read`
    /// does otherwise. Unless it read something, `to` is unchanged.
    pub fn poll_read_more(
        &mut self,
        cx: &mut Context<'_, R>,
        to: &mut Vec<u8>,
    ) -> Poll<io::Result<usize>>
    where
        F: Read,
        ensures told { ReadsMore self.old result self.new }
        ensures front { StartsWith to.new.items to.old.items }
        ensures count { vec_len to.new ≡ vec_len to.old + count_of result }
        ensures few { count_of result ≤ 1024 }
    {
        let start = to.len();
        if to.resize(start + CHUNK, 0).is_err() {
            return Poll::Ready(Err(io::Error::from(io::ErrorKind::OutOfMemory)));
        }
        let read = self.poll_read(cx, &mut to[start..]);
        match read {
            Poll::Ready(Ok(count)) => to.truncate(start + count),
            _ => to.truncate(start),
        }
        read
    }

    /// Takes the first line out of `buffer`, and returns it without its line feed. While `buffer` has no line feed it reads more to
    /// its end, as `poll_read_more` does; a line may be of any length, and all of it is kept. At the end of the stream the last line
    /// is what is left in `buffer`, and `None` if nothing is. If there is no memory it fails with an error of kind `OutOfMemory`;
    /// after an error, and while it waits, `buffer` keeps all bytes. One poll reads at most 64 times; then it wakes itself.
    pub fn poll_line(
        &mut self,
        cx: &mut Context<'_, R>,
        buffer: &mut Vec<u8>,
    ) -> Poll<io::Result<Option<Vec<u8>>>>
    where
        F: Read,
        ensures notes { HasMoreNotes self.old self.new }
        ensures bytes { TakesLine self.old buffer.old.items result self.new buffer.new.items }
        ensures feedless { IfReady result (λ told. IfOk told (λ line. IfSome line (λ bytes.
            All (λ byte. byte ≢ 10) bytes.items))) }
        ensures waits { OnPending result (WaitsForLine self.old self.new buffer.new.items) }
        ensures err { IfReady result (λ told. IfErr told (λ cause.
            LineFailsSo self.old cause self.new)) }
    {
        let mut clean = 0;
        for _ in 0..READS {
            if let Some(end) = find_feed(buffer, clean) {
                return Poll::Ready(split_line(buffer, end));
            }
            clean = buffer.len();
            match self.poll_read_more(cx, buffer) {
                Poll::Ready(Ok(0)) => return Poll::Ready(Ok(last_line(buffer))),
                Poll::Ready(Ok(_)) => {}
                Poll::Ready(Err(cause)) => return Poll::Ready(Err(cause)),
                Poll::Pending => return Poll::Pending,
            }
        }
        cx.waker().wake();
        Poll::Pending
    }
}

// Takes out this many of the first.
fn drop_first(left: &mut Vec<u8>, count: usize)
    requires { count ≤ vec_len left.old }
    ensures items { left.new.items ≡ drop count left.old.items }
    ensures len { count + vec_len left.new ≡ vec_len left.old }
{
    left.drain(..count);
}

// The index of the first line feed, if there is none in the first `clean` bytes.
fn find_feed(bytes: &[u8], clean: usize) -> Option<usize>
    requires bound { clean ≤ length bytes.now }
    requires clean { All (λ byte. byte ≢ 10) (take clean bytes.now) }
    ensures some { IfSome result (λ end. (end < length bytes.now)
        × (slice_index bytes.now end ≡ 10) × All (λ byte. byte ≢ 10) (take end bytes.now)) }
    ensures none { IfNone result (All (λ byte. byte ≢ 10) bytes.now) }
{
    for at in clean..bytes.len() {
        if bytes[at] == b'\n' {
            return Some(at);
        }
    }
    None
}

// Takes out the line that ends at this line feed. If there is no memory for it, nothing changes.
fn split_line(buffer: &mut Vec<u8>, end: usize) -> io::Result<Option<Vec<u8>>>
    requires inside { end < vec_len buffer.old }
    requires feed { slice_index buffer.old.items end ≡ 10 }
    ensures line { IfOk result (λ line. IsSomeAnd line (λ bytes.
        (bytes.items ≡ take end buffer.old.items)
        × (bytes.items ++ 10 ∷ buffer.new.items ≡ buffer.old.items))) }
    ensures err { IfErr result (λ cause. (error_kind cause ≡ OutOfMemory)
        × (buffer.new.items ≡ buffer.old.items)) }
{
    let mut line = Vec::new(*buffer.allocator());
    line.extend_from_slice(&buffer[..end])?;
    buffer.drain(..=end);
    Ok(Some(line))
}

// Takes out all bytes, as the last line, if there are any.
fn last_line(buffer: &mut Vec<u8>) -> Option<Vec<u8>>
    ensures some { IfSome result (λ line. (line.items ≡ buffer.old.items) × (line.items ≢ [])) }
    ensures none { IfNone result (buffer.old.items ≡ []) }
    ensures rest { buffer.new.items ≡ [] }
{
    if buffer.is_empty() {
        return None;
    }
    let alloc = *buffer.allocator();
    Some(mem::replace(buffer, Vec::new(alloc)))
}

//! The OS sockets that a poller waits on.
ghost use Rattle.std.specs.Prelude.{◌≡◌, false, IsErrAnd};
ghost use Rattle.std.specs.Io.{ReadsAtMost, WritesAtMost};
ghost use Rattle.std.specs.Io.KnownBytes.{ReadConsumes, WriteAppends, Keeps};
ghost use Rattle.std.specs.IoError.{error_kind};
ghost use Rattle.std.specs.declared.io.ErrorKind.TheVariants.{Unsupported};

use mio::event::Source;
use mio::net::{TcpListener, TcpStream, UdpSocket, UnixListener, UnixStream};
use mio::{Interest, Registry, Token};
use std::io;
use std::io::{Read, Write};
use std::os::fd::{AsRawFd, RawFd};

/// An OS socket. It is non-blocking.
#[derive(Drop)]
pub enum MioIo {
    TcpListener(TcpListener),
    TcpStream(TcpStream),
    UdpSocket(UdpSocket),
    UnixListener(UnixListener),
    UnixStream(UnixStream),
}

impl AsRawFd for MioIo {
    fn as_raw_fd(&self) -> RawFd {
        match self {
            MioIo::TcpListener(listener) => listener.as_raw_fd(),
            MioIo::TcpStream(stream) => stream.as_raw_fd(),
            MioIo::UdpSocket(socket) => socket.as_raw_fd(),
            MioIo::UnixListener(listener) => listener.as_raw_fd(),
            MioIo::UnixStream(stream) => stream.as_raw_fd(),
        }
    }
}

impl Source for MioIo {
    ghost use Rattle.std.specs.Prelude.{◌≡◌};

    ghost keeps = { λ io after. after ≡ io };

    fn register(
        &mut self,
        registry: &Registry,
        token: Token,
        interests: Interest,
    ) -> io::Result<()> {
        match self {
            MioIo::TcpListener(listener) => listener.register(registry, token, interests),
            MioIo::TcpStream(stream) => stream.register(registry, token, interests),
            MioIo::UdpSocket(socket) => socket.register(registry, token, interests),
            MioIo::UnixListener(listener) => listener.register(registry, token, interests),
            MioIo::UnixStream(stream) => stream.register(registry, token, interests),
        }
    }

    fn reregister(
        &mut self,
        registry: &Registry,
        token: Token,
        interests: Interest,
    ) -> io::Result<()> {
        match self {
            MioIo::TcpListener(listener) => listener.reregister(registry, token, interests),
            MioIo::TcpStream(stream) => stream.reregister(registry, token, interests),
            MioIo::UdpSocket(socket) => socket.reregister(registry, token, interests),
            MioIo::UnixListener(listener) => listener.reregister(registry, token, interests),
            MioIo::UnixStream(stream) => stream.reregister(registry, token, interests),
        }
    }

    fn deregister(&mut self, registry: &Registry) -> io::Result<()> {
        match self {
            MioIo::TcpListener(listener) => listener.deregister(registry),
            MioIo::TcpStream(stream) => stream.deregister(registry),
            MioIo::UdpSocket(socket) => socket.deregister(registry),
            MioIo::UnixListener(listener) => listener.deregister(registry),
            MioIo::UnixStream(stream) => stream.deregister(registry),
        }
    }
}

fn not_a_stream() -> io::Error
    ensures { error_kind result ≡ Unsupported }
{
    io::Error::new(io::ErrorKind::Unsupported, "not a stream")
}

impl Read for MioIo {
    ghost use Rattle.calloop_mio.specs.SystemSockets.{is_stream, known_bytes};

    ghost remaining = { known_bytes };

    /// Reads from a stream, with the result of the stream: an error of kind `WouldBlock` if nothing has come. On a listener and a
    /// UDP socket fails with kind `Unsupported`, and leaves the buffer unchanged. The socket is the same after each result.
    fn read(&mut self, buf: &mut [u8]) -> io::Result<usize>
        ensures bound { ReadsAtMost result buf.new }
        ensures bytes { ReadConsumes (known_bytes self.old) (known_bytes self.new) result buf.new }
        ensures same { self.new ≡ self.old }
        ensures refused { is_stream self.old ≡ false →
            IsErrAnd result (λ cause. error_kind cause ≡ Unsupported) }
        ensures unread { is_stream self.old ≡ false → buf.new ≡ buf.old }
    {
        match self {
            MioIo::TcpStream(stream) => stream.read(buf),
            MioIo::UnixStream(stream) => stream.read(buf),
            MioIo::TcpListener(_) | MioIo::UdpSocket(_) | MioIo::UnixListener(_) => {
                Err(not_a_stream())
            }
        }
    }
}

impl Write for MioIo {
    ghost use Rattle.calloop_mio.specs.SystemSockets.{is_stream, known_bytes};

    ghost contents = { known_bytes };

    /// Writes to a stream, with the result of the stream: an error of kind `WouldBlock` if it has no room. On a listener and a
    /// UDP socket fails with kind `Unsupported`, and nothing is written. The socket is the same after each result.
    fn write(&mut self, buf: &[u8]) -> io::Result<usize>
        ensures bound { WritesAtMost result buf.now }
        ensures bytes { WriteAppends (known_bytes self.old) (known_bytes self.new) result buf.now }
        ensures same { self.new ≡ self.old }
        ensures refused { is_stream self.old ≡ false →
            IsErrAnd result (λ cause. error_kind cause ≡ Unsupported) }
    {
        match self {
            MioIo::TcpStream(stream) => stream.write(buf),
            MioIo::UnixStream(stream) => stream.write(buf),
            MioIo::TcpListener(_) | MioIo::UdpSocket(_) | MioIo::UnixListener(_) => {
                Err(not_a_stream())
            }
        }
    }

    /// Flushes a stream, with the result of the stream. On a listener and a UDP socket fails with kind `Unsupported`. The socket
    /// is the same after each result.
    fn flush(&mut self) -> io::Result<()>
        ensures bytes { Keeps (known_bytes self.old) (known_bytes self.new) }
        ensures same { self.new ≡ self.old }
        ensures refused { is_stream self.old ≡ false →
            IsErrAnd result (λ cause. error_kind cause ≡ Unsupported) }
    {
        match self {
            MioIo::TcpStream(stream) => stream.flush(),
            MioIo::UnixStream(stream) => stream.flush(),
            MioIo::TcpListener(_) | MioIo::UdpSocket(_) | MioIo::UnixListener(_) => {
                Err(not_a_stream())
            }
        }
    }
}

impl From<TcpListener> for MioIo {
    ghost use Rattle.std.specs.Prelude.{◌≡◌};
    ghost use Rattle.calloop_mio.specs.declared.sockets.MioIo.TheVariants.{TcpListener as OfTcpListener};

    ghost from_gives = { λ listener made. made ≡ OfTcpListener listener };

    fn from(listener: TcpListener) -> MioIo {
        MioIo::TcpListener(listener)
    }
}

impl From<TcpStream> for MioIo {
    ghost use Rattle.std.specs.Prelude.{◌≡◌};
    ghost use Rattle.calloop_mio.specs.declared.sockets.MioIo.TheVariants.{TcpStream as OfTcpStream};

    ghost from_gives = { λ stream made. made ≡ OfTcpStream stream };

    fn from(stream: TcpStream) -> MioIo {
        MioIo::TcpStream(stream)
    }
}

impl From<UdpSocket> for MioIo {
    ghost use Rattle.std.specs.Prelude.{◌≡◌};
    ghost use Rattle.calloop_mio.specs.declared.sockets.MioIo.TheVariants.{UdpSocket as OfUdpSocket};

    ghost from_gives = { λ socket made. made ≡ OfUdpSocket socket };

    fn from(socket: UdpSocket) -> MioIo {
        MioIo::UdpSocket(socket)
    }
}

impl From<UnixListener> for MioIo {
    ghost use Rattle.std.specs.Prelude.{◌≡◌};
    ghost use Rattle.calloop_mio.specs.declared.sockets.MioIo.TheVariants.{UnixListener as OfUnixListener};

    ghost from_gives = { λ listener made. made ≡ OfUnixListener listener };

    fn from(listener: UnixListener) -> MioIo {
        MioIo::UnixListener(listener)
    }
}

impl From<UnixStream> for MioIo {
    ghost use Rattle.std.specs.Prelude.{◌≡◌};
    ghost use Rattle.calloop_mio.specs.declared.sockets.MioIo.TheVariants.{UnixStream as OfUnixStream};

    ghost from_gives = { λ stream made. made ≡ OfUnixStream stream };

    fn from(stream: UnixStream) -> MioIo {
        MioIo::UnixStream(stream)
    }
}

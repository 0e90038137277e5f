//! Sockets that are read and written, and those that refuse it.
use calloop_mio::MioIo;
use calloop_script::ScriptIo;
use mio::net::{TcpListener, TcpStream, UdpSocket, UnixListener, UnixStream};
use std::io;
use std::io::{Read, Write};
use std::net::{Ipv4Addr, Net, SocketAddr};
use std::os::unix::net::{SocketAddr as UnixAddr, SocketAddrExt};
use std::process::Abort;

#[test]
fn what_is_written_is_read_at_the_other_end(rt: HostRuntime) {
    let (mut near, mut far) = pair(&rt);
    assert!(rt; writes(&mut near, b"there") && reads(&mut far, b"there"));
    assert!(rt; writes(&mut far, b"and back") && reads(&mut near, b"and back"));
    drop(near);
    assert!(rt; reads(&mut far, b""));
}

#[test]
fn a_stream_over_tcp_is_read_and_written(rt: HostRuntime) {
    let (mut near, mut far) = connect(&rt);
    assert!(rt; writes(&mut near, b"there") && reads(&mut far, b"there"));
    assert!(rt; writes(&mut far, b"and back") && reads(&mut near, b"and back"));
    assert_eq!(rt;
        kind_of(near.read(&mut [0u8; 1])),
        Some(io::ErrorKind::WouldBlock)
    );
}

#[test]
fn an_empty_stream_would_block(rt: HostRuntime) {
    let (mut near, mut far) = pair(&rt);
    let mut buf = [0u8; 4];
    assert_eq!(rt;
        kind_of(near.read(&mut buf)),
        Some(io::ErrorKind::WouldBlock)
    );
    assert!(rt; far.write_all(b"abcd").is_ok() && near.read_exact(&mut buf).is_ok());
    assert_eq!(rt; &buf, b"abcd");
    assert_eq!(rt;
        kind_of(near.read(&mut buf)),
        Some(io::ErrorKind::WouldBlock)
    );
}

#[test]
fn a_full_stream_would_block(rt: HostRuntime) {
    let (mut near, far) = pair(&rt);
    let mut kind = None;
    for _ in 0..10_000u32 {
        kind = kind_of(near.write(&[0u8; 4096]));
        if kind.is_some() {
            break;
        }
    }
    assert_eq!(rt; kind, Some(io::ErrorKind::WouldBlock));
    drop(far);
    assert_eq!(rt; kind_of(near.write(b"x")), Some(io::ErrorKind::BrokenPipe));
}

#[test]
fn a_listener_and_a_udp_socket_refuse_to_be_read_and_written(rt: HostRuntime) {
    let listener = TcpListener::bind(&rt, any_port()).expect(&rt, "a listener");
    let port = listener.local_addr().expect(&rt, "an address").port();
    // The port makes the name one that nobody else has.
    let name = format!(in rt.alloc(); "calloop_source_tests {port}").expect(&rt, "a name");
    let address = UnixAddr::from_abstract_name(name.as_bytes()).expect(&rt, "an address");
    let unix_listener = UnixListener::bind_addr(&rt, &address).expect(&rt, "a listener");
    let socket = UdpSocket::bind(&rt, any_port()).expect(&rt, "a socket");
    assert!(rt; refuses(&mut MioIo::from(listener)));
    assert!(rt; refuses(&mut MioIo::from(unix_listener)));
    assert!(rt; refuses(&mut MioIo::from(socket)));
}

#[test]
fn a_scripted_socket_would_block(rt: HostRuntime) {
    let mut socket = ScriptIo { number: 7 };
    let mut buf = [1u8; 2];
    assert_eq!(rt;
        kind_of(socket.read(&mut buf)),
        Some(io::ErrorKind::WouldBlock)
    );
    assert_eq!(rt;
        kind_of(socket.write(b"x")),
        Some(io::ErrorKind::WouldBlock)
    );
    assert!(rt; socket.flush().is_ok());
    assert_eq!(rt; (socket.number, buf), (7, [1, 1]));
}

fn pair<R: Net + Abort>(rt: &R) -> (MioIo, MioIo) {
    let (near, far) = UnixStream::pair(rt).expect(rt, "two streams");
    (MioIo::from(near), MioIo::from(far))
}

fn any_port() -> SocketAddr {
    SocketAddr::from((Ipv4Addr::LOCALHOST, 0))
}

// Two ends of a connection over TCP.
pub(super) fn connect<R: Net + Abort>(rt: &R) -> (MioIo, MioIo) {
    let listener = TcpListener::bind(rt, any_port()).expect(rt, "a listener");
    let address = listener.local_addr().expect(rt, "an address");
    let near = TcpStream::connect(rt, address).expect(rt, "a stream");
    for _ in 0..1000u32 {
        if let Ok((far, _)) = listener.accept() {
            return (MioIo::from(near), MioIo::from(far));
        }
    }
    panic!(rt; "nobody connected")
}

// Whether it takes these bytes at once.
fn writes<S: Write>(socket: &mut S, bytes: &[u8]) -> bool {
    matches!(socket.write(bytes), Ok(count) if count == bytes.len()) && socket.flush().is_ok()
}

// True if just these bytes come next. Tries again if nothing has come.
fn reads<S: Read>(socket: &mut S, wanted: &[u8]) -> bool {
    let mut buf = [0u8; 16];
    for _ in 0..1000u32 {
        match socket.read(&mut buf) {
            Ok(count) => return buf.get(..count) == Some(wanted),
            Err(cause) => {
                if cause.kind() != io::ErrorKind::WouldBlock {
                    return false;
                }
            }
        }
    }
    false
}

// Whether it is neither read nor written, and the buffer stays.
fn refuses<S: Read + Write>(socket: &mut S) -> bool {
    let mut buf = [1u8; 2];
    let refused = Some(io::ErrorKind::Unsupported);
    kind_of(socket.read(&mut buf)) == refused
        && buf == [1, 1]
        && kind_of(socket.write(b"x")) == refused
        && kind_of(socket.flush()) == refused
}

fn kind_of<T: Drop>(answer: io::Result<T>) -> Option<io::ErrorKind> {
    answer.err().map(|cause| cause.kind())
}

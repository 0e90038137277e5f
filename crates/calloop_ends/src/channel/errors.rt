//! Why a message was not sent or received, in the words of the standard library's channels.
use std::fmt;

/// Why a message was not sent. The message comes back.
#[derive(Drop)]
pub enum SendError<T> {
    /// The channel is gone.
    Disconnected(T),
    OutOfMemory(T),
}

/// Why a message was not sent at once. The message comes back.
#[derive(Drop)]
pub enum TrySendError<T> {
    /// The channel is full: it holds as many messages as its bound.
    Full(T),
    /// The channel is gone.
    Disconnected(T),
}

/// The last sender is gone, and every message was handed out.
#[derive(Clone, Copy, Debug, PartialEq, Eq)]
pub struct RecvError;

/// Why no message was received.
#[derive(Clone, Copy, Debug, PartialEq, Eq)]
pub enum TryRecvError {
    /// There is no message now.
    Empty,
    /// The last sender is gone, and every message was handed out.
    Disconnected,
}

impl<T> fmt::Debug for SendError<T> {
    /// Without the message, as in the standard library.
    fn fmt<W: fmt::Write>(&self, f: &mut fmt::Formatter<W>) -> fmt::Result {
        match self {
            SendError::Disconnected(_) => write!(f, "Disconnected(..)"),
            SendError::OutOfMemory(_) => write!(f, "OutOfMemory(..)"),
        }
    }
}

impl<T> fmt::Display for SendError<T> {
    fn fmt<W: fmt::Write>(&self, f: &mut fmt::Formatter<W>) -> fmt::Result {
        match self {
            SendError::Disconnected(_) => write!(f, "sending on a closed channel"),
            SendError::OutOfMemory(_) => write!(f, "out of memory"),
        }
    }
}

impl<T: Drop> std::error::Error for SendError<T> {}

impl<T> fmt::Debug for TrySendError<T> {
    /// Without the message, as in the standard library.
    fn fmt<W: fmt::Write>(&self, f: &mut fmt::Formatter<W>) -> fmt::Result {
        match self {
            TrySendError::Full(_) => write!(f, "Full(..)"),
            TrySendError::Disconnected(_) => write!(f, "Disconnected(..)"),
        }
    }
}

impl<T> fmt::Display for TrySendError<T> {
    fn fmt<W: fmt::Write>(&self, f: &mut fmt::Formatter<W>) -> fmt::Result {
        match self {
            TrySendError::Full(_) => write!(f, "sending on a full channel"),
            TrySendError::Disconnected(_) => write!(f, "sending on a closed channel"),
        }
    }
}

impl<T: Drop> std::error::Error for TrySendError<T> {}

impl fmt::Display for RecvError {
    fn fmt<W: fmt::Write>(&self, f: &mut fmt::Formatter<W>) -> fmt::Result {
        write!(f, "receiving on a closed channel")
    }
}

impl std::error::Error for RecvError {}

impl fmt::Display for TryRecvError {
    fn fmt<W: fmt::Write>(&self, f: &mut fmt::Formatter<W>) -> fmt::Result {
        match self {
            TryRecvError::Empty => write!(f, "receiving on an empty channel"),
            TryRecvError::Disconnected => write!(f, "receiving on a closed channel"),
        }
    }
}

impl std::error::Error for TryRecvError {}

//! What can happen to a session, and what it answers.

use byte_strings::Bytes;
use framing::FrameError;
use protocol::MessageError;
use thiserror::Error;

/// What can happen to a session: a call of it, with its arguments.
#[derive(Debug, Drop)]
pub enum Event {
    /// An editor connects (`Session::connect`).
    Connect,
    /// A piece of what it sends comes (`Session::recv`).
    Recv(Bytes),
    /// A request is answered, with the file that it asks for, if it asks for one (`Session::turn`).
    Turn(Option<Bytes>),
    /// The program is given time for this many moves (`Session::slice`).
    Slice(u32),
    /// The program is to stand still before its next move (`Session::hold`).
    Hold,
    /// This many of the waiting bytes were sent (`Session::sent`).
    Sent(usize),
    /// The connection ends (`Session::drop_connection`).
    DropConnection,
}

/// What an event that happened answers.
#[derive(Clone, Copy, Debug, PartialEq, Eq)]
pub enum Applied {
    /// The connection's number.
    Connect(u32),
    /// The piece was taken.
    Recv,
    /// What was done.
    Turn(Turned),
    /// What the program did with its time.
    Slice(Sliced),
    /// The program is marked, if it runs.
    Hold,
    /// The bytes wait no more.
    Sent,
    /// The connection ended.
    DropConnection,
}

/// What a turn did.
#[derive(Clone, Copy, Debug, PartialEq, Eq)]
pub enum Turned {
    /// The first request that waited was answered.
    Answered,
    /// No request waits.
    Nothing,
    /// More than 65,536 bytes wait to be sent: nothing was done.
    Full,
}

/// What a program did with the time that it was given: it made some moves, and then something ended the slice.
#[derive(Clone, Copy, Debug, PartialEq, Eq)]
pub struct Sliced {
    /// How many moves were made: how many instructions retired or, where the program goes back, were undone.
    pub moved: u32,
    /// What ended the slice.
    pub ending: SliceEnd,
}

/// What ended a slice.
#[derive(Clone, Copy, Debug, PartialEq, Eq)]
pub enum SliceEnd {
    /// As many moves were made as were asked for.
    Spent,
    /// More than 65,536 bytes wait to be sent.
    Full,
    /// There is no program that runs, or its editor has not said all yet.
    Idle,
    /// The program stopped.
    Stopped,
    /// The program ended.
    Ended,
    /// No memory was left: to tell what the program did, or for a move. What is owed will be told first by the next slice, or
    /// the next turn; a stop that no move made was not made, nor was the move that no memory was left for: one that
    /// stores into a page of zeros, or undoes such a store.
    NoMemory,
}

/// Why an event did not happen. It changed nothing.
#[derive(Clone, Copy, Debug, PartialEq, Eq, Error)]
pub enum EventError {
    /// No editor is connected.
    #[error("not connected")]
    NotConnected,
    /// An editor is connected.
    #[error("already connected")]
    AlreadyConnected,
    /// 256 requests or more wait for their answers.
    #[error("busy")]
    Busy,
    /// Fewer bytes wait.
    #[error("more sent than waits")]
    SentTooMuch,
    /// The piece has more than 65,536 bytes.
    #[error("piece too long")]
    PieceTooLong,
    /// The connection takes nothing more.
    #[error("connection is closing")]
    Closing,
    /// No memory was left.
    #[error("no memory")]
    NoMemory,
    /// 4,294,967,295 connections were made.
    #[error("no connection number is left")]
    Spent,
}

/// What closed a connection.
#[derive(Clone, Copy, Debug, PartialEq, Eq)]
pub enum LinkFault {
    /// The stream continues as no frame can (base protocol, "Header Part").
    Frame(FrameError),
    /// A body is no message (base protocol, "Content Part").
    Message(MessageError),
}

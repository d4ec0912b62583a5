//! What closed a connection, in words.
ghost use Rattle.std.specs.Prelude.{◌≡◌};
ghost use Rattle.watch_command.specs.Conversing as spec;

use framing::FrameError;
use protocol::MessageError;
use session::LinkFault;

/// What closed a connection, in words.
pub(crate) fn words_of(fault: LinkFault) -> &'static str
    ensures { result.now ≡ spec.words_of fault }
{
    match fault {
        LinkFault::Frame(fault) => frame_words(fault),
        LinkFault::Message(fault) => message_words(fault),
    }
}

fn frame_words(fault: FrameError) -> &'static str
    ensures { result.now ≡ spec.frame_words fault }
{
    match fault {
        FrameError::Header => "header line is no field",
        FrameError::NoLength => "no content length",
        FrameError::TwoLengths => "two content lengths",
        FrameError::BadLength => "bad content length",
        FrameError::TooLong => "content too long",
        FrameError::HeaderTooLong => "header too long",
        FrameError::NoMemory => "no memory",
    }
}

fn message_words(fault: MessageError) -> &'static str
    ensures { result.now ≡ spec.message_words fault }
{
    match fault {
        MessageError::NotJson => "not JSON",
        MessageError::NotAMessage => "not a message",
        MessageError::BadSeq => "bad sequence number",
        MessageError::NoMemory => "no memory",
    }
}

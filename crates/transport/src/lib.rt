//! A session over a wire, and over the wires that a door accepts; a server over a reader and a writer.
#![tactic(auto)]

pub mod drives;
mod end;
mod files;
mod inbox;
pub mod laws;
mod outbox;
mod recorder;
mod room;
mod rounds;
pub mod server;
pub mod serving;

pub use drives::{drive, drive_told};
pub use end::DriveEnd;
pub use files::{FileFault, Files, LONGEST_TEXT, file_at};
pub use recorder::{EventRef, Recorder, Unrecorded};
pub use server::{Server, ServerError};
pub use serving::{serve, serve_told};

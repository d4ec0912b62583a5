//! How a program is launched.

use crate::console::{Console, REGISTERS, Waits};
use crate::errand::Errand;
use crate::link::Link;
use crate::stops::text_of;
use assembler::{AsmErrorKind, assemble};
use protocol::{Command, InitializeArguments, LaunchArguments};
use std::alloc::AllocError;

impl Console {
    /// Launches the program of a text in a session of its own, and stops it before its first instruction.
    pub(crate) fn begin(&mut self, text: &[u8]) -> Result<(), AllocError> {
        self.renew()?;
        self.text = Vec::from_slice(self.alloc, text)?;
        self.assemble()?;
        if self.is_launched(text)? {
            self.set_again()?;
            self.start_up()?;
        }
        Ok(())
    }

    // Nothing is known of a program.
    fn renew(&mut self) -> Result<(), AllocError> {
        match Link::new(self.alloc, self.memory_size) {
            Ok(link) => self.link = link,
            Err(_) => return Err(AllocError),
        }
        self.before = [None; REGISTERS];
        self.has_changed = [false; REGISTERS];
        self.here = None;
        self.stop = None;
        self.has_ended = false;
        self.errand = Errand::Nothing;
        self.waits = Waits::Line;
        Ok(())
    }

    // Where the lines and labels are.
    fn assemble(&mut self) -> Result<(), AllocError> {
        match assemble(self.alloc, self.text.as_slice(), self.memory_size) {
            Ok(image) => {
                self.image = Some(image);
                Ok(())
            }
            Err(error) if error.kind == AsmErrorKind::NoMemory => Err(AllocError),
            Err(_) => {
                self.image = None;
                Ok(())
            }
        }
    }

    fn is_launched(&mut self, text: &[u8]) -> Result<bool, AllocError> {
        let initialize = Command::Initialize(InitializeArguments {
            lines_start_at1: true,
            columns_start_at1: true,
        });
        if !self.does(initialize)? {
            return Ok(false);
        }
        let launch = Command::Launch(LaunchArguments {
            program: text_of(self.alloc, self.path.as_str())?,
            stop_on_entry: true,
        });
        let answer = self.ask_with(launch, Some(text))?;
        self.is_done(answer)
    }

    // The program is started, and stops at its entry.
    fn start_up(&mut self) -> Result<(), AllocError> {
        if !self.does(Command::ConfigurationDone)? {
            return Ok(());
        }
        let _ = self.link.slice(1)?;
        drop(self.hear()?);
        self.stop = None;
        self.look()?;
        self.note_registers();
        self.show_place()
    }

    // The registers that the program begins with have not changed.
    fn note_registers(&mut self) {
        for number in 0..32 {
            self.before[number as usize] = self.link.mirror().register(number);
        }
    }
}

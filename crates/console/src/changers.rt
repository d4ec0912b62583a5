//! Where the value of an expression can have become another one, by what it reads.

use crate::expressions::{Token, token_in};
use prompt::Direction;
use rv32i::{Instr, destination, reg_in};

/// What an expression reads: its value is another one only where one of these is.
#[derive(Clone, Copy)]
pub(crate) struct Reads {
    registers: [bool; 32],
    memory: bool,
    pc: bool,
}

/// Where an instruction is seen to have changed something.
#[derive(Clone, Copy)]
pub(crate) enum Place {
    /// Nowhere: it does not change it.
    Nowhere,
    /// At an address.
    At(u32),
    /// Wherever it goes on.
    Anywhere,
}

impl Reads {
    /// What this expression reads, in which labels are addresses.
    pub(crate) fn of(expression: &str) -> Reads {
        let mut reads = Reads {
            registers: [false; 32],
            memory: false,
            pc: false,
        };
        let mut rest = expression.as_bytes();
        for _ in 0..expression.len() {
            let (token, after) = token_in(rest);
            match token {
                Token::Name(name) => reads.add(name),
                Token::Other(text) => reads.memory |= text == b"[".as_slice(),
                Token::Character(_) => {}
            }
            rest = after;
        }
        reads
    }

    fn add(&mut self, name: &[u8]) {
        if name == b"pc".as_slice() {
            self.pc = true;
        } else if let Some(number) = reg_in(name)
            && let Some(is_read) = self.registers.get_mut(number as usize)
        {
            *is_read = true;
        }
    }

    /// Where the instruction at an address is seen to have changed one of these: on, after it, and back, before it.
    pub(crate) fn place(&self, direction: Direction, address: u32, instr: &Instr) -> Place {
        match (direction, instr) {
            _ if self.pc => Place::Anywhere,
            _ if !self.are_changed_by(instr) => Place::Nowhere,
            (Direction::Backward, _) => Place::At(address),
            (Direction::Forward, Instr::Jal { .. } | Instr::Jalr { .. }) => Place::Anywhere,
            (Direction::Forward, _) => Place::At(address.wrapping_add(4)),
        }
    }

    fn are_changed_by(&self, instr: &Instr) -> bool {
        match instr {
            Instr::Sb { .. } | Instr::Sh { .. } | Instr::Sw { .. } => self.memory,
            _ => self.registers[destination(instr).number()],
        }
    }
}

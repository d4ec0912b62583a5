//! Plays the assembler: lines of the language, whole texts with their images, and listings. Each part's
//! file has its commands.
#![tactic(auto)]

mod lines;
mod listings;
mod texts;
mod writer;

use image::Image;
use lines::answer_line;
use listings::Listed;
use std::alloc::Global;
use std::process::ExitCode;
use testing::{Fault, Player, play};
use texts::{answer_image, assembled};

/// What is kept: the image of the last text, if it had one, and a writer.
#[derive(Drop)]
struct Assembler {
    image: Option<Image>,
    listed: Listed,
}

impl Player for Assembler {
    fn answer(&mut self, alloc: Global, arguments: &[&str]) -> Result<String, Fault> {
        match arguments {
            ["line", rest @ ..] => answer_line(alloc, rest),
            ["list", rest @ ..] => self.listed.answer(alloc, rest),
            ["assemble", size, text] => assembled(alloc, &mut self.image, size, text),
            ["image", rest @ ..] => match &self.image {
                Some(image) => answer_image(alloc, image, rest),
                None => Err(Fault::NoCommand),
            },
            _ => Err(Fault::NoCommand),
        }
    }
}

fn main(rt: HostRuntime) -> ExitCode {
    let mut assembler = Assembler {
        image: None,
        listed: Listed::new(rt.alloc()),
    };
    play(&rt, &mut assembler)
}

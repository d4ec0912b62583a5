//! A line table, and an image.
//!
//! - `row LINE ADDRESS WORDS`, `label NAME ADDRESS`: what the next table is to have; the rows have to rise.
//! - `new END`: the table of these; it is then asked as `testing::ask_lines` says.
//! - `image ENTRY BYTES`: an image with the table; then `bytes`, and `parts`, the entry and the bytes that it gives back.
use image::{Bytes, Image, LineTable};
use indexmap::IndexMap;
use std::alloc::{AllocError, Global};
use std::mem;
use testing::{Fault, ask_lines, bytes_of, hexadecimal, parsed, rise, shown};

/// A table and an image, and what the next table is to have.
#[derive(Drop)]
pub(crate) struct Tables {
    rows: Vec<(u32, u32, u32)>,
    labels: IndexMap<String, u32>,
    table: Option<LineTable>,
    image: Option<Image>,
}

impl Tables {
    /// No table.
    pub(crate) fn new(alloc: Global) -> Tables {
        Tables {
            rows: Vec::new(alloc),
            labels: IndexMap::new(alloc),
            table: None,
            image: None,
        }
    }

    /// What is answered of tables and images.
    pub(crate) fn answer(&mut self, alloc: Global, arguments: &[&str]) -> Result<String, Fault> {
        match arguments {
            ["row", line, address, count] => {
                let row = (parsed(line)?, parsed(address)?, parsed(count)?);
                self.rows.push(row).map_err(AllocError::from)?;
                shown(alloc, "ok")
            }
            ["label", name, address] => {
                self.label(alloc, name, parsed(address)?)?;
                shown(alloc, "ok")
            }
            ["new", end] => self.make(alloc, parsed(end)?),
            ["image", entry, bytes] => self.make_image(alloc, parsed(entry)?, bytes),
            ["bytes"] => self.bytes(alloc),
            ["parts"] => self.parts(alloc),
            arguments => match &self.table {
                Some(table) => ask_lines(alloc, table, arguments),
                None => Err(Fault::NoCommand),
            },
        }
    }

    fn label(&mut self, alloc: Global, name: &str, address: u32) -> Result<(), AllocError> {
        self.labels.insert(String::from_str(alloc, name)?, address)?;
        Ok(())
    }

    fn make(&mut self, alloc: Global, end: u32) -> Result<String, Fault> {
        let rows = mem::replace(&mut self.rows, Vec::new(alloc));
        let labels = mem::replace(&mut self.labels, IndexMap::new(alloc));
        if !rise(&rows, end) {
            return Err(Fault::NoCommand);
        }
        self.table = Some(LineTable::new(rows, labels, end));
        shown(alloc, "ok")
    }

    fn make_image(&mut self, alloc: Global, entry: u32, bytes: &str) -> Result<String, Fault> {
        let bytes = Bytes::from_vec(bytes_of(alloc, bytes)?);
        let Some(lines) = self.table.take() else {
            return Err(Fault::NoCommand);
        };
        self.image = Some(Image {
            bytes,
            entry,
            lines,
        });
        shown(alloc, "ok")
    }

    fn bytes(&self, alloc: Global) -> Result<String, Fault> {
        match &self.image {
            Some(image) => hexadecimal(alloc, image.bytes.as_slice()),
            None => Err(Fault::NoCommand),
        }
    }

    fn parts(&mut self, alloc: Global) -> Result<String, Fault> {
        let Some(image) = self.image.take() else {
            return Err(Fault::NoCommand);
        };
        let Image {
            bytes,
            entry,
            lines,
        } = image;
        self.table = Some(lines);
        let bytes = hexadecimal(alloc, &bytes.into_vec())?;
        Ok(format!(in alloc; "{entry} {bytes}")?)
    }
}

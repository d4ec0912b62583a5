//! The pages of memory, one after the other.
ghost use Rattle.std.specs.Prelude.{
  ◌≡◌,
  ◌+◌,
  ◌*◌,
  ◌/◌,
  ◌%◌,
  ◌<◌,
  ◌≤◌,
  ℕ,
  length,
  take,
  drop,
  IfOk,
  OnOk,
  OnErr,
};
ghost use Rattle.image.specs.Private.Pages.{
  AreBlank,
  AreMade,
  ArePages,
  HaveBytes,
  LacksOne,
  flat,
  put,
};

use crate::page::{self, PAGE};
use std::alloc::{AllocError, Global};

/// `count` pages, none of them made.
pub(crate) fn blanks(alloc: Global, count: usize) -> Result<Vec<Vec<u8>>, AllocError>
    requires { count ≤ 4096 }
    ensures { IfOk result (λ pages. AreBlank pages.items count) }
{
    let mut pages = Vec::with_capacity(alloc, count)?;
    for _ in 0..count {
        pages.push(Vec::new(alloc))?;
    }
    Ok(pages)
}

/// Pages with the same bytes. Those that were not made are not made here.
pub(crate) fn copies(alloc: Global, pages: &[Vec<u8>]) -> Result<Vec<Vec<u8>>, AllocError>
    requires { ArePages pages.now }
    ensures { IfOk result (λ copies. HaveBytes pages.now (flat pages.now) copies.items) }
{
    let mut copies = Vec::with_capacity(alloc, pages.len())?;
    for page in pages {
        copies.push(Vec::from_slice(alloc, page.as_slice())?)?;
    }
    Ok(copies)
}

/// Makes the pages from one up to another, where they were not made. The bytes stay. `Err`: no memory
/// is left for one of them.
pub(crate) fn make_each(
    alloc: Global,
    pages: &mut Vec<Vec<u8>>,
    first: usize,
    last: usize,
) -> Result<(), AllocError>
    requires each { ArePages pages.old.items }
    requires within { last ≤ length pages.old.items }
    ensures keeps { HaveBytes pages.old.items (flat pages.old.items) pages.new.items }
    ensures made { OnOk result (AreMade pages.new.items first last) }
    ensures lacks { OnErr result (LacksOne pages.new.items first last) }
{
    for index in first..last {
        page::make(alloc, &mut pages[index])?;
    }
    Ok(())
}

// How many of the bytes that are left from a place on lie in its page.
fn count_in_page(place: usize, left: usize) -> usize
    ensures few { result ≤ left }
    ensures some { 1 ≤ left → 1 ≤ result }
    ensures within { place % 4096 + result ≤ 4096 }
{
    let room = PAGE - place % PAGE;
    if left < room { left } else { room }
}

// Puts bytes into the page of a place, which was made.
fn put_in_page(pages: &mut Vec<Vec<u8>>, place: usize, bytes: &[u8])
    requires each { ArePages pages.old.items }
    requires there { place / 4096 < length pages.old.items }
    requires within { place % 4096 + length bytes.now ≤ 4096 }
    requires made { AreMade pages.old.items (place / 4096) (place / 4096 + 1) }
    ensures puts { HaveBytes pages.old.items (put (flat pages.old.items) place bytes.now)
        pages.new.items }
    ensures keeps { (first last : ℕ) → AreMade pages.old.items first last
        → AreMade pages.new.items first last }
{
    page::put_bytes(&mut pages[place / PAGE], place % PAGE, bytes);
}

/// Puts bytes into pages from a place on. The pages of these were made.
pub(crate) fn put_bytes(pages: &mut Vec<Vec<u8>>, place: usize, bytes: &[u8])
    requires each { ArePages pages.old.items }
    requires few { length pages.old.items ≤ 4096 }
    requires within { place + length bytes.now ≤ 4096 * length pages.old.items }
    requires made { AreMade pages.old.items (place / 4096)
        ((place + length bytes.now + 4095) / 4096) }
    ensures { HaveBytes pages.old.items (put (flat pages.old.items) place bytes.now)
        pages.new.items }
{
    let mut done = 0;
    while done < bytes.len() {
        let count = count_in_page(place + done, bytes.len() - done);
        put_in_page(pages, place + done, &bytes[done..done + count]);
        done += count;
    }
}

/// Copies the bytes from a place on into `into`, as many as it has room for.
pub(crate) fn read_bytes(pages: &[Vec<u8>], place: usize, into: &mut [u8])
    requires each { ArePages pages.now }
    requires few { length pages.now ≤ 4096 }
    requires within { place + length into.old ≤ 4096 * length pages.now }
    ensures { into.new ≡ take (length into.old) (drop place (flat pages.now)) }
{
    let mut done = 0;
    while done < into.len() {
        let here = place + done;
        let count = count_in_page(here, into.len() - done);
        page::read(
            &pages[here / PAGE],
            here % PAGE,
            &mut into[done..done + count],
        );
        done += count;
    }
}

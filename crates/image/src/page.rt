//! A page of memory: 4,096 bytes, or none as long as it was not made.
ghost use Rattle.std.specs.Prelude.{
  ◌≡◌,
  ◌+◌,
  ◌≤◌,
  [],
  length,
  take,
  drop,
  replicate,
  IfOk,
  OnOk,
  OnErr,
};
ghost use Rattle.image.specs.Private.Pages.{IsPage, page_bytes, put};

use std::alloc::{AllocError, Global};

/// How many bytes a page has.
pub(crate) const PAGE: usize = 4096;

// `count` zeros.
fn zeroed(alloc: Global, count: usize) -> Result<Vec<u8>, AllocError>
    ensures { IfOk result (λ bytes. bytes.items ≡ replicate count 0) }
{
    vec![in alloc; 0u8; count]
}

// Makes a page that was not made. That is rare, so a store has it out of its way.
#[cold]
#[inline(never)]
fn make_first(alloc: Global, page: &mut Vec<u8>) -> Result<(), AllocError>
    ensures ok { OnOk result (page.new.items ≡ page_bytes []) }
    ensures err { OnErr result (page.new ≡ page.old) }
{
    *page = zeroed(alloc, PAGE)?;
    Ok(())
}

/// Makes a page, unless it was made.
#[inline]
pub(crate) fn make(alloc: Global, page: &mut Vec<u8>) -> Result<(), AllocError>
    requires { IsPage page.old.items }
    ensures ok { OnOk result (page.new.items ≡ page_bytes page.old.items) }
    ensures err { OnErr result (page.new ≡ page.old) }
    ensures needs { OnErr result (page.old.items ≡ []) }
{
    if page.is_empty() {
        return make_first(alloc, page);
    }
    Ok(())
}

/// Puts bytes at an offset of a page that was made.
#[inline]
pub(crate) fn put_bytes(page: &mut [u8], offset: usize, bytes: &[u8])
    requires { offset + length bytes.now ≤ length page.old }
    ensures { page.new ≡ put page.old offset bytes.now }
{
    page[offset..offset + bytes.len()].copy_from_slice(bytes);
}

/// Puts bytes at an offset of a page, which is made first, unless it was made.
#[inline]
pub(crate) fn store(
    alloc: Global,
    page: &mut Vec<u8>,
    offset: usize,
    bytes: &[u8],
) -> Result<(), AllocError>
    requires page { IsPage page.old.items }
    requires within { offset + length bytes.now ≤ 4096 }
    ensures ok { OnOk result (page.new.items ≡ put (page_bytes page.old.items) offset bytes.now) }
    ensures err { OnErr result (page.new ≡ page.old) }
    ensures needs { OnErr result (page.old.items ≡ []) }
{
    make(alloc, page)?;
    put_bytes(page, offset, bytes);
    Ok(())
}

/// Copies the bytes from an offset of a page on into `into`, as many as it has room for.
pub(crate) fn read(page: &[u8], offset: usize, into: &mut [u8])
    requires page { IsPage page.now }
    requires within { offset + length into.old ≤ 4096 }
    ensures { into.new ≡ take (length into.old) (drop offset (page_bytes page.now)) }
{
    if page.is_empty() {
        into.fill(0);
    } else {
        into.copy_from_slice(&page[offset..offset + into.len()]);
    }
}

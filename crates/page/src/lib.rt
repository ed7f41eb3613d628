// Writers of bytes and numbers into the part of a page that is still free.
#![tactic(auto)]

ghost use Rattle.std.specs.Prelude.{◌≡◌, ◌≤◌, length, is_ok, decimal, nat_le};
ghost use Rattle.page.specs.Written.{Written, refusal_number};

use itoa::Buffer;

// The page has fewer than 16,384 bytes.
#[derive(Clone, Copy)]
pub struct SmallPage;

impl SmallPage {
    // The number of the refusal.
    pub fn number(self) -> u8
        ensures number { result ≡ refusal_number self }
    {
        22
    }
}

// Whether a page is large enough to be printed on.
pub fn check_page(page: &[u8]) -> Result<(), SmallPage>
    ensures checked { is_ok result ≡ nat_le 16384 (length page.now) }
{
    if page.len() < 16384 {
        Err(SmallPage)
    } else {
        Ok(())
    }
}

// Writes bytes at the front, as far as the part reaches, and answers how many were written.
pub fn put(part: &mut [u8], bytes: &[u8]) -> usize
    ensures written { Written bytes.now part.old part.new result }
{
    let n = bytes.len().min(part.len());
    part[..n].copy_from_slice(&bytes[..n]);
    n
}

// Writes the decimal digits of a number at the front, as far as the part reaches, and answers how many were written.
pub fn put_number(part: &mut [u8], n: usize) -> usize
    ensures written { Written (decimal n) part.old part.new result }
    ensures short { length (decimal n) ≤ 20 }
{
    put(part, Buffer::new().format(n).as_bytes())
}

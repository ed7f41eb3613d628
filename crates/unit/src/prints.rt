// What is printed on a page, added to the output.
ghost use Rattle.std.specs.Prelude.{◌≡◌, ◌≤◌, ◌++◌, length, take, IfOk, IsOkAnd, OnOk};

use page::SmallPage;
use std::alloc::AllocError;

// Adds what was printed at a page's front to the output.
pub(crate) fn add(
    printed: Result<usize, SmallPage>,
    page: &[u8],
    out: &mut Vec<u8>,
) -> Result<(), AllocError>
    requires { IsOkAnd printed (λ n. n ≤ length page.now) }
    ensures added { OnOk result (IfOk printed (λ n. out.new.items ≡ out.old.items ++ take n page.now)) }
{
    let n = printed.unwrap();
    out.extend_from_slice(&page[..n])
}

// Pieces of a list that a source gives out.
ghost use Rattle.std.specs.Prelude.{◌≡◌, ◌≤◌, ◌<◌, [], length, take, min};

// Copies the first octets of a list into a buffer, as many as fit and at most so many.
pub(crate) fn give(rest: &[u8], buf: &mut [u8], most: usize) -> usize
    requires { 1 ≤ most }
    ensures count { result ≡ min (min (length rest.now) (length buf.old)) most }
    ensures bound { result ≤ length buf.new }
    ensures few { result ≤ length rest.now }
    ensures given { take result buf.new ≡ take result rest.now }
    ensures all { result ≡ 0 → 0 < length buf.new → rest.now ≡ [] }
{
    let count = rest.len().min(buf.len()).min(most);
    buf[..count].copy_from_slice(&rest[..count]);
    count
}

//! Texts that are written into a room, behind or before what stands there.
ghost use Rattle.std.specs.Prelude.{◌≡◌, ◌++◌, ◌≤◌, ◌+◌, take, drop, length};

/// Fills a room with a text of its size, which is known when this is compiled, so that it is a few moves.
#[inline(always)]
fn fill<const N: usize>(room: &mut [u8], text: &[u8; N])
    requires { length room.old ≡ N }
    ensures { room.new ≡ text.now }
{
    let Some(room) = room.as_mut_array::<N>() else {
        unreachable!()
    };
    *room = *text;
}

/// Writes a text of a size that is known when this is compiled behind the first `end` bytes. Answers where it ends.
#[inline(always)]
pub fn array_after<const N: usize>(bytes: &mut [u8], end: usize, text: &[u8; N]) -> usize
    requires { end + N ≤ length bytes.old }
    ensures size { length bytes.new ≡ length bytes.old }
    ensures text { take result bytes.new ≡ take end bytes.old ++ text.now }
    ensures behind { drop result bytes.new ≡ drop result bytes.old }
    ensures ends { result ≡ end + N }
{
    let after = end + N;
    fill::<N>(&mut bytes[end..after], text);
    after
}

/// Writes a text of a size that is known when this is compiled so that it ends before `end`. Answers where it starts.
#[inline(always)]
pub fn array_before<const N: usize>(bytes: &mut [u8], end: usize, text: &[u8; N]) -> usize
    requires { (N ≤ end) × (end ≤ length bytes.old) }
    ensures size { length bytes.new ≡ length bytes.old }
    ensures text { drop result bytes.new ≡ text.now ++ drop end bytes.old }
    ensures front { take result bytes.new ≡ take result bytes.old }
    ensures starts { result + N ≡ end }
{
    let start = end - N;
    fill::<N>(&mut bytes[start..end], text);
    start
}

/// Writes a text behind the first `end` bytes. Answers where it ends.
#[inline(always)]
pub fn text_after(bytes: &mut [u8], end: usize, text: &[u8]) -> usize
    requires { end + length text.now ≤ length bytes.old }
    ensures size { length bytes.new ≡ length bytes.old }
    ensures text { take result bytes.new ≡ take end bytes.old ++ text.now }
    ensures ends { result ≡ end + length text.now }
{
    let after = end + text.len();
    bytes[end..after].copy_from_slice(text);
    after
}

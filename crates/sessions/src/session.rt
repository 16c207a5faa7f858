//! A counter session: a prefix of twelve bytes, and the number of the counter block that comes next. The struct stands alone in its file, since the
//! definitions of specs/ that its functions cite name it.
ghost use Rattle.std.specs.Prelude.{◌≡◌, ◌≤◌, length};
ghost use Rattle.sessions.specs.Counters.{counters};

pub mod calls;
pub mod cover;

/// How many counter blocks a prefix has, 2^32.
pub const COUNTERS: u64 = 1 << 32;

/// An open session. It is neither copied nor let go: whoever holds one has to close it, and learns the number at which the next one under the same
/// prefix has to open.
pub struct Session {
    prefix: [u8; 12],
    next: u64,
    ghost sized: { length prefix ≡ 12 },
    ghost within: { next ≤ counters },
}

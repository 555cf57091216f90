//! What is at a place of the bytes of a checkpoint.
ghost use Rattle.std.specs.Prelude.{◌≡◌, ◌+◌, ◌<◌, ◌≤◌};
ghost use Rattle.ecma_stored.specs.Stored as stored;

/// The number of 32 bits that begins at this byte.
pub(crate) fn number_at(head: &[u8; 90], at: usize) -> u32
    requires { at + 4 ≤ 90 }
    ensures { result ≡ stored.number_at head.now at }
{
    u32::from_le_bytes([head[at], head[at + 1], head[at + 2], head[at + 3]])
}

/// The number of 64 bits that begins at this byte.
pub(crate) fn count_at(head: &[u8; 90], at: usize) -> usize
    requires { at + 8 ≤ 90 }
    ensures { result ≡ stored.count_at head.now at }
{
    usize::from_le_bytes([
        head[at],
        head[at + 1],
        head[at + 2],
        head[at + 3],
        head[at + 4],
        head[at + 5],
        head[at + 6],
        head[at + 7],
    ])
}

/// The flag that this byte is.
pub(crate) fn flag_at(head: &[u8; 90], at: usize) -> bool
    requires { at < 90 }
    ensures { result ≡ stored.flag_at head.now at }
{
    head[at] != 0
}

//! Answers at the front of memory that somebody else gives.

ghost use Rattle.std.specs.Prelude.{◌≡◌, drop};
ghost use Rattle.lizhakoven.specs.Told.{IsTold};

/// Writes numbers to the front of other ones, where these have room for them. Whether they have.
pub fn write_numbers(numbers: &[u32], room: &mut [u32]) -> bool
    ensures { IsTold numbers.now room.old room.new result }
{
    let count = numbers.len();
    if room.len() < count {
        return false;
    }
    room[..count].copy_from_slice(numbers);
    true
}

/// Writes bytes to the front of other ones, where these have room for them. Whether they have.
pub fn write_bytes(bytes: &[u8], room: &mut [u8]) -> bool
    ensures { IsTold bytes.now room.old room.new result }
{
    let count = bytes.len();
    if room.len() < count {
        return false;
    }
    room[..count].copy_from_slice(bytes);
    true
}

/// The bytes from a place on; none, where there are no more bytes than that.
pub fn bytes_from(bytes: &[u8], from: usize) -> &[u8]
    ensures { result.now ≡ drop from bytes.now }
{
    let (_, behind) = bytes.split_at(from.min(bytes.len()));
    behind
}

// Edits of a file that is held in memory.
ghost use Rattle.std.specs.Prelude.{◌≡◌, ◌<◌, ◌≤◌, ◌+◌, ◌-◌, ◌^◌, min, max, length, OnOk, OnErr};
ghost use Rattle.std.specs.Vec.{vec_capacity};
ghost use Rattle.arm_edges.specs.Disk.{ReadsAt, overwritten, resized};

use std::alloc::AllocError;

// Puts these bytes at that place. Where there is room for them it takes no memory and succeeds.
pub(crate) fn overwrite(file: &mut Vec<u8>, at: usize, bytes: &[u8]) -> Result<(), AllocError>
    ensures ok { OnOk result (file.new.items ≡ overwritten at bytes.now file.old.items) }
    ensures capacity { vec_capacity file.old ≤ vec_capacity file.new }
    ensures full { OnErr result
        (vec_capacity file.old < max (length file.old.items) (at + length bytes.now)) }
{
    if bytes.is_empty() {
        return Ok(());
    }
    let Some(end) = at.checked_add(bytes.len()) else {
        return Err(AllocError);
    };
    if end <= file.len() {
        file[at..end].copy_from_slice(bytes);
        return Ok(());
    }
    file.resize(at, 0)?;
    file.extend_from_slice(bytes)
}

// Puts the bytes from that place on at the front of the buffer, at most `limit` of them, and returns how many.
pub(crate) fn read_in(file: &[u8], at: u64, limit: usize, buf: &mut [u8]) -> usize
    requires { 0 < limit }
    ensures bound { result ≤ length buf.old }
    ensures count { result ≡ min limit (min (length buf.old) (length file.now - at)) }
    ensures read { ReadsAt at result file.now buf.new }
{
    if at >= file.len() as u64 {
        return 0;
    }
    let rest = &file[at as usize..];
    let count = limit.min(buf.len()).min(rest.len());
    buf[..count].copy_from_slice(&rest[..count]);
    count
}

// Puts these bytes at that place, where room up to the reach was taken before.
pub(crate) fn write_within(file: &mut Vec<u8>, reach: u64, at: u64, bytes: &[u8])
    requires within { at + length bytes.now ≤ reach }
    requires short { length file.old.items ≤ reach }
    requires taken { reach ≤ vec_capacity file.old }
    ensures written { file.new.items ≡ overwritten at bytes.now file.old.items }
    ensures short { length file.new.items ≤ reach }
    ensures taken { reach ≤ vec_capacity file.new }
{
    match overwrite(file, at as usize, bytes) {
        Ok(()) => {}
        Err(_) => unreachable!(),
    }
}

// Cuts or fills to that length, where room up to the reach was taken before.
pub(crate) fn cut_within(file: &mut Vec<u8>, reach: u64, size: u64)
    requires within { size ≤ reach }
    requires taken { reach ≤ vec_capacity file.old }
    ensures cut { file.new.items ≡ resized size file.old.items }
    ensures short { length file.new.items ≤ reach }
    ensures taken { reach ≤ vec_capacity file.new }
{
    match file.resize(size as usize, 0) {
        Ok(()) => {}
        Err(_) => unreachable!(),
    }
}

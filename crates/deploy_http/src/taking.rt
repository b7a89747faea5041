// Bytes that are taken from a source.

ghost use Rattle.std.specs.Prelude.{◌≡◌, ◌<◌, ◌≤◌, ◌+◌, ◌++◌, [], true, false, length, max, IfOk, IfErr};
ghost use Rattle.deploy_http.specs.Answers.{Begins};
ghost use Rattle.deploy_http.specs.Faults.{IsTakingFault, ReadCause};

use crate::fault::HttpFault;
use arm_edges::Source;
use arm_value::Bytes;

// How many bytes one read takes at most.
const PIECE: usize = 4_096;

/// Adds the next bytes of the source, this many at most, and returns how many they were; 0 is the end.
pub(crate) fn take_more<S: Source>(
    source: &mut S,
    bytes: &mut Bytes,
    most: usize,
) -> Result<usize, HttpFault>
    requires { 0 < most }
    ensures moved { IfOk result (λ n. S.tells_rest ≡ true
        → bytes.old ++ S.rest source.old ≡ bytes.new ++ S.rest source.new) }
    ensures count { IfOk result (λ n. length bytes.new ≡ length bytes.old + n) }
    ensures few { IfOk result (λ n. n ≤ most) }
    ensures ends { IfOk result (λ n. n ≡ 0 → S.tells_rest ≡ true → S.rest source.new ≡ []) }
    ensures fault { IfErr result IsTakingFault }
    ensures added { Begins bytes.old bytes.new }
    ensures room { length bytes.new ≤ length bytes.old + most }
    ensures apart { S.outgoing source.new ≡ S.outgoing source.old }
    ensures cause { ReadCause (S.faults source.old) (S.faults source.new) result }
{
    let mut piece = [0u8; PIECE];
    let room = most.min(PIECE);
    take_piece(source, bytes, &mut piece[..room])
}

// Adds the next bytes of the source by way of the buffer.
fn take_piece<S: Source>(
    source: &mut S,
    bytes: &mut Bytes,
    buffer: &mut [u8],
) -> Result<usize, HttpFault>
    requires { 0 < length buffer.old }
    ensures moved { IfOk result (λ n. S.tells_rest ≡ true
        → bytes.old ++ S.rest source.old ≡ bytes.new ++ S.rest source.new) }
    ensures count { IfOk result (λ n. length bytes.new ≡ length bytes.old + n) }
    ensures few { IfOk result (λ n. n ≤ length buffer.old) }
    ensures ends { IfOk result (λ n. n ≡ 0 → S.tells_rest ≡ true → S.rest source.new ≡ []) }
    ensures fault { IfErr result IsTakingFault }
    ensures added { Begins bytes.old bytes.new }
    ensures room { length bytes.new ≤ length bytes.old + length buffer.old }
    ensures apart { S.outgoing source.new ≡ S.outgoing source.old }
    ensures cause { ReadCause (S.faults source.old) (S.faults source.new) result }
{
    match source.read(buffer) {
        Ok(count) => match bytes.extend(&buffer[..count]) {
            Ok(()) => Ok(count),
            Err(_) => Err(HttpFault::OutOfMemory),
        },
        Err(_) => Err(HttpFault::ReadFault),
    }
}

/// Adds bytes of the source until there are this many, and returns whether there are; the input has ended where there
/// are not.
pub(crate) fn fill<S: Source>(
    source: &mut S,
    bytes: &mut Bytes,
    count: usize,
) -> Result<bool, HttpFault>
    ensures moved { IfOk result (λ full. S.tells_rest ≡ true
        → bytes.old ++ S.rest source.old ≡ bytes.new ++ S.rest source.new) }
    ensures full { IfOk result (λ full. full ≡ true → count ≤ length bytes.new) }
    ensures short { IfOk result (λ full. full ≡ false → length bytes.new < count) }
    ensures ends { IfOk result (λ full. full ≡ false → S.tells_rest ≡ true → S.rest source.new ≡ []) }
    ensures fault { IfErr result IsTakingFault }
    ensures added { Begins bytes.old bytes.new }
    ensures room { length bytes.new ≤ max (length bytes.old) count }
    ensures apart { S.outgoing source.new ≡ S.outgoing source.old }
    ensures cause { ReadCause (S.faults source.old) (S.faults source.new) result }
{
    while bytes.as_slice().len() < count {
        let missing = count - bytes.as_slice().len();
        match take_more(source, bytes, missing) {
            Ok(taken) => if taken == 0 {
                return Ok(false);
            },
            Err(fault) => return Err(fault),
        }
    }
    Ok(true)
}

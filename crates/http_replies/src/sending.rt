// Bytes that are written whole.

ghost use Rattle.std.specs.Prelude.{◌≡◌};
ghost use Rattle.arm_edges.specs.Faults.{HasCause};
ghost use Rattle.http_replies.specs.Sent.{Sent};

use arm_edges::{Failed, Sink};

/// Writes all the bytes, in as many calls as the sink takes for them. Where a call fails, a beginning of them was
/// written.
#[tactic(auto, using(foundation::proofs::Lists::part_next))]
pub fn send_all<S: Sink>(sink: &mut S, bytes: &[u8]) -> Result<(), Failed>
    ensures sent { Sent S.tells_written (S.written sink.old) (S.written sink.new) bytes.now result }
    ensures apart { S.incoming sink.new ≡ S.incoming sink.old }
    ensures cause { HasCause (S.faults sink.old) (S.faults sink.new) result }
{
    let mut done = 0;
    while done < bytes.len() {
        match sink.write(&bytes[done..]) {
            Ok(count) => done += count,
            Err(failed) => return Err(failed),
        }
    }
    Ok(())
}

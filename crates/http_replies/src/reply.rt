// Replies.

ghost use Rattle.std.specs.Prelude.{◌≡◌, ◌∷◌, [], codes, chars, decimal, IfOk};
ghost use Rattle.arm_value.specs.View.{json};
ghost use Rattle.lock_rules.specs.Causes.{code_of, message_of};
ghost use Rattle.lock_rules.specs.Spaced.{spaced};
ghost use Rattle.http_replies.specs.Codes.{name_of, status_of, message_of as message_of_code};
ghost use Rattle.http_replies.specs.Replies.{Answers, error_json};
ghost use Rattle.http_replies.specs.declared.outcome.Outcome.TheVariants as outcome;

use crate::code::Code;
use crate::error::{error_body, run_out};
use crate::outcome::Outcome;
use arm_value::{OutOfMemory, Text, Value};
use lock_rules::Cause;
use std::alloc::Global;

/// The reply to a request.
#[derive(Drop)]
pub struct Reply {
    /// The HTTP status.
    pub status: u16,
    /// The body.
    pub body: Value,
    /// What became of the request.
    pub outcome: Outcome,
}

impl Reply {
    /// The reply to a request that was done. It takes no memory.
    pub fn done(status: u16, body: Value) -> Reply
        ensures { Answers result status (json body) outcome.Done }
    {
        Reply {
            status,
            body,
            outcome: Outcome::Done,
        }
    }

    /// The reply to a request that is refused.
    pub fn refused(alloc: Global, code: Code) -> Result<Reply, OutOfMemory>
        ensures { IfOk result (λ reply. Answers reply (status_of code)
            (error_json (name_of code) (message_of_code code)) (outcome.Refused code)) }
    {
        let status = code.status();
        match error_body(alloc, code.name(), code.message()) {
            Ok(body) => Ok(Reply {
                status,
                body,
                outcome: Outcome::Refused(code),
            }),
            Err(_) => run_out(code),
        }
    }

    /// The reply to the request of a deployment that has failed, by the names of the tasks that the cause is of.
    pub fn failed(alloc: Global, cause: Cause, names: &[Text]) -> Result<Reply, OutOfMemory>
        ensures { IfOk result (λ reply. Answers reply 409
            (error_json (code_of cause) (message_of (spaced names.now) cause)) (outcome.Failed cause)) }
    {
        match failure_body(alloc, &cause, names) {
            Ok(body) => Ok(Reply {
                status: 409,
                body,
                outcome: Outcome::Failed(cause),
            }),
            Err(_) => run_out(cause),
        }
    }

    /// The reply where the provider of the seat with this number failed.
    pub fn provider_fault(alloc: Global, seat: u32) -> Result<Reply, OutOfMemory>
        ensures { IfOk result (λ reply. Answers reply 502
            (error_json (codes "ProviderFault") (decimal seat)) (outcome.Provider seat)) }
    {
        let number = seat.to_string(alloc)?;
        let body = error_body(alloc, "ProviderFault", number.as_str())?;
        Ok(Reply {
            status: 502,
            body,
            outcome: Outcome::Provider(seat),
        })
    }

    /// The reply where the disk of the journal failed.
    pub fn disk_fault(alloc: Global) -> Result<Reply, OutOfMemory>
        ensures { IfOk result (λ reply. Answers reply 503
            (error_json (codes "JournalFault") []) outcome.Disk) }
    {
        Ok(Reply {
            status: 503,
            body: error_body(alloc, "JournalFault", "")?,
            outcome: Outcome::Disk,
        })
    }

    /// The reply where the journal, of this length, had no room for the next record, with which it would have had the
    /// needed length.
    pub fn full(alloc: Global, length: u64, needed: u64) -> Result<Reply, OutOfMemory>
        ensures { IfOk result (λ reply. Answers reply 507
            (error_json (codes "JournalFull") []) (outcome.Full length needed)) }
    {
        Ok(Reply {
            status: 507,
            body: error_body(alloc, "JournalFull", "")?,
            outcome: Outcome::Full { length, needed },
        })
    }

    /// The reply where memory ran out. It is made before, while there is memory.
    pub fn out_of_memory(alloc: Global) -> Result<Reply, OutOfMemory>
        ensures { IfOk result (λ reply. Answers reply 500
            (error_json (codes "OutOfMemory") []) outcome.OutOfMemory) }
    {
        Ok(Reply {
            status: 500,
            body: error_body(alloc, "OutOfMemory", "")?,
            outcome: Outcome::OutOfMemory,
        })
    }
}

// The body of a deployment that has failed.
fn failure_body(alloc: Global, cause: &Cause, names: &[Text]) -> Result<Value, OutOfMemory>
    ensures { IfOk result (λ body. json body
        ≡ error_json (code_of cause.now) (message_of (spaced names.now) cause.now)) }
{
    let message = cause.message(alloc, names)?;
    error_body(alloc, cause.code(), message.as_str())
}

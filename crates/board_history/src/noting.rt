// What happens: each event is noted at the end of the history.

ghost use Rattle.std.specs.Prelude.{◌≡◌, ◌<◌, if◌then◌else◌, is_ok, false, true};
ghost use Rattle.arm_value.specs.View.{json};
ghost use Rattle.deploy_histories.specs.Events as event;
ghost use Rattle.deploy_histories.specs.Events.{enter, begin, back, leave, crash, is_waiting, progress, IsBegun};
ghost use Rattle.board_history.specs.Past.{with_event};
ghost use Rattle.board_history.specs.Stages.{refuses};

use crate::history::{History, first_place, run_out};
use crate::stage::{Stage, close_all};
use arm_value::{OutOfMemory, Value};
use provider_trait::{Answer, Event};

// Whether the answer is a refusal.
fn is_refusal(answer: &Answer) -> bool
    ensures { result ≡ refuses answer.now }
{
    match answer {
        Answer::Stored(_) => false,
        Answer::Gone => false,
        Answer::Refused(_) => true,
    }
}

impl History {
    /// The scope of this task is entered. After `OutOfMemory` the history is unchanged.
    pub fn enter(&mut self, task: u32) -> Result<(), OutOfMemory>
        requires within { task < self.old.count }
        requires waits { (progress self.old.events).status task ≡ is_waiting }
        ensures { self.new ≡ (if is_ok result then with_event self.old (enter task) else self.old) }
    {
        self.events.reserve(self.opened + 1)?;
        self.stages[task as usize] = Stage::Done(self.events.len());
        self.events.push_reserved(Event::Enter(task));
        Ok(())
    }

    /// The scope of this task is left. After `OutOfMemory` the history is unchanged.
    pub fn leave(&mut self, task: u32) -> Result<(), OutOfMemory>
        requires within { task < self.old.count }
        requires waits { (progress self.old.events).status task ≡ is_waiting }
        ensures { self.new ≡ (if is_ok result then with_event self.old (leave task) else self.old) }
    {
        self.events.reserve(self.opened + 1)?;
        self.stages[task as usize] = Stage::Done(self.events.len());
        self.events.push_reserved(Event::Leave(task));
        Ok(())
    }

    /// The task is given to a worker with this body, which is null for a deletion. It takes the room for what ends it.
    /// After `OutOfMemory` the history is unchanged.
    pub fn begin(&mut self, task: u32, worker: u32, body: Value) -> Result<(), OutOfMemory>
        requires within { task < self.old.count }
        requires waits { (progress self.old.events).status task ≡ is_waiting }
        ensures { self.new ≡ (if is_ok result then with_event self.old (begin task worker (json body)) else self.old) }
    {
        match self.events.reserve(self.opened + 2) {
            Ok(()) => {
                self.stages[task as usize] = Stage::Begun(self.events.len());
                self.opened += 1;
                self.events.push_reserved(Event::Begin(task, worker, body));
                Ok(())
            }
            Err(_) => run_out(body),
        }
    }

    /// The task of which a Begin is open has this answer. It takes no memory.
    pub fn answer(&mut self, task: u32, answer: Answer)
        requires { IsBegun (progress self.old.events) task }
        ensures { self.new ≡ with_event self.old (event.answer task answer) }
    {
        if is_refusal(&answer) {
            self.refuse(task, answer);
        } else {
            self.finish(task, answer);
        }
    }

    // The task is done by the answer.
    fn finish(&mut self, task: u32, answer: Answer)
        requires begun { IsBegun (progress self.old.events) task }
        requires does { refuses answer ≡ false }
        ensures { self.new ≡ with_event self.old (event.answer task answer) }
    {
        self.stages[task as usize] = Stage::Done(self.events.len());
        self.opened -= 1;
        self.events.push_reserved(Event::Answer(task, answer));
    }

    // The task is refused by the answer.
    fn refuse(&mut self, task: u32, answer: Answer)
        requires begun { IsBegun (progress self.old.events) task }
        requires refuses { refuses answer ≡ true }
        ensures { self.new ≡ with_event self.old (event.answer task answer) }
    {
        self.refusal = first_place(self.refusal, self.events.len());
        self.stages[task as usize] = Stage::Waiting;
        self.opened -= 1;
        self.events.push_reserved(Event::Answer(task, answer));
    }

    /// The task of which a Begin is open has no answer. It takes no memory.
    pub fn back(&mut self, task: u32)
        requires { IsBegun (progress self.old.events) task }
        ensures { self.new ≡ with_event self.old (back task) }
    {
        self.stages[task as usize] = Stage::Waiting;
        self.opened -= 1;
        self.events.push_reserved(Event::Back(task));
    }

    /// The service has stopped and started again. After `OutOfMemory` the history is unchanged.
    pub fn crash(&mut self) -> Result<(), OutOfMemory>
        ensures { self.new ≡ (if is_ok result then with_event self.old crash else self.old) }
    {
        self.events.reserve(self.opened + 1)?;
        close_all(&mut self.stages);
        self.opened = 0;
        self.events.push_reserved(Event::Crash);
        Ok(())
    }
}

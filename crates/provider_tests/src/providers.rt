// What providers answer, call by call.
ghost use Rattle.std.specs.Prelude.{◌≡◌, IfOk};
ghost use Rattle.arm_value.specs.View.{json};
ghost use Rattle.provider_trait.specs.Act.{FitsAct};
ghost use Rattle.provider_trait.specs.declared.act.Act.TheVariants.{Delete, Put};

use crate::checks::{compare, letting_go, text_of};
use arm_value::{Fields, Text, Value};
use provider_trait::{
    Act, Answer, Catalog, Job, JobParts, Provider, ProviderFault, Script, State, StateFault, Step,
};
use std::alloc::{AllocError, Global};
use std::test::Fail;
use worker_crew::Seat;

const THING: &str = "/subscriptions/s/resourceGroups/g/providers/Demo.Lab/things/x";

const CHILD: &str = "/subscriptions/s/resourceGroups/g/providers/Demo.Lab/things/x/parts/y";

const STORAGE: &str =
    "/subscriptions/s/resourceGroups/g/providers/Microsoft.Storage/storageAccounts/acc1";

// The object of these members, or an empty one where they nest too deep.
fn body_of(members: Fields) -> Value
    ensures { FitsAct Put (json result) }
{
    if members.depth() <= 99 {
        return Value::Object(members);
    }
    Value::Object(Fields::new())
}

// The job of a put with this body, as task 1 of worker 3.
fn put_job(alloc: Global, id: &str, body: &str) -> Result<Job, Fail>
    ensures { IfOk result (λ job. job.act ≡ Put) }
{
    let members = match Value::from_json(alloc, body.as_bytes())? {
        Value::Object(members) => members,
        _ => Fields::new(),
    };
    let parts = JobParts {
        task: 1,
        worker: 3,
        act: Act::Put,
        id: Text::of(alloc, id)?,
        api: Text::of(alloc, "2023-01-01")?,
        body: body_of(members),
    };
    Ok(Job::new(alloc, parts)?)
}

// The job of a deletion, as task 2 of worker 0.
fn delete_job(alloc: Global, id: &str) -> Result<Job, Fail>
    ensures { IfOk result (λ job. job.act ≡ Delete) }
{
    let parts = JobParts {
        task: 2,
        worker: 0,
        act: Act::Delete,
        id: Text::of(alloc, id)?,
        api: Text::of(alloc, "")?,
        body: Value::Null,
    };
    Ok(Job::new(alloc, parts)?)
}

// Compares the text of the stored state, the refusal's code, or what else is answered with what is
// wanted.
fn compare_answer(
    id: &str,
    gave: &Result<Answer, ProviderFault>,
    wanted: &str,
) -> Result<(), Fail> {
    match gave {
        Ok(Answer::Stored(state)) => compare(id, text_of(state.text().as_slice()), wanted),
        Ok(Answer::Gone) => compare(id, "Gone", wanted),
        Ok(Answer::Refused(code)) => compare(id, code.as_str(), wanted),
        Err(ProviderFault::Fault) => compare(id, "Fault", wanted),
        Err(ProviderFault::OutOfMemory) => compare(id, "OutOfMemory", wanted),
    }
}

// Compares the first part of the job's record with the wanted one.
fn check_first(job: Job, wanted: &str) -> Result<(), Fail> {
    let checked = compare("first part", text_of(job.first().as_slice()), wanted);
    letting_go(checked, job)
}

const PUT_FIRST: &str = concat!(
    r#"{"api":"2023-01-01","body":{"a":1},"#,
    r#""id":"/subscriptions/s/resourceGroups/g/providers/Demo.Lab/things/x","task":1,"worker":3}"#,
);

const DELETE_FIRST: &str = concat!(
    r#"{"api":"","body":null,"#,
    r#""id":"/subscriptions/s/resourceGroups/g/providers/Demo.Lab/things/x","task":2,"worker":0}"#,
);

#[test]
fn the_first_part_of_a_record_has_task_and_worker(rt: HostRuntime) -> Result<(), Fail> {
    check_first(put_job(rt.alloc(), THING, r#"{"a":1}"#)?, PUT_FIRST)?;
    check_first(delete_job(rt.alloc(), THING)?, DELETE_FIRST)
}

fn check_put<P: Provider>(
    alloc: Global,
    provider: &mut P,
    id: &str,
    body: &str,
    wanted: &str,
) -> Result<(), Fail> {
    let job = put_job(alloc, id, body)?;
    let gave = provider.put(alloc, &job);
    letting_go(compare_answer(id, &gave, wanted), (gave, job))
}

fn check_delete<P: Provider>(
    alloc: Global,
    provider: &mut P,
    id: &str,
    wanted: &str,
) -> Result<(), Fail> {
    let job = delete_job(alloc, id)?;
    let gave = provider.delete(alloc, &job);
    letting_go(compare_answer(id, &gave, wanted), (gave, job))
}

const THING_STATE: &str = concat!(
    r#"{"a":1,"apiVersion":"2023-01-01","#,
    r#""id":"/subscriptions/s/resourceGroups/g/providers/Demo.Lab/things/x","name":"x","#,
    r#""properties":{"provisioningState":"Succeeded"},"type":"Demo.Lab/things"}"#,
);

const CHILD_STATE: &str = concat!(
    r#"{"apiVersion":"2023-01-01","#,
    r#""id":"/subscriptions/s/resourceGroups/g/providers/Demo.Lab/things/x/parts/y","name":"x/y","#,
    r#""properties":{"provisioningState":"Succeeded","z":[1]},"type":"Demo.Lab/things/parts"}"#,
);

const NAMELESS_STATE: &str = concat!(
    r#"{"apiVersion":"2023-01-01","id":"no id","name":"","#,
    r#""properties":{"provisioningState":"Succeeded"},"type":""}"#,
);

fn check_bodies(alloc: Global, catalog: &mut Catalog) -> Result<(), Fail> {
    let thing = r#"{"a":1,"id":"no"}"#;
    check_put(alloc, catalog, THING, thing, THING_STATE)?;
    let child = r#"{"properties":{"z":[1]}}"#;
    check_put(alloc, catalog, CHILD, child, CHILD_STATE)?;
    check_put(alloc, catalog, "no id", "{}", NAMELESS_STATE)
}

#[test]
fn the_catalogue_stores_the_body_with_what_the_id_says(rt: HostRuntime) -> Result<(), Fail> {
    let mut catalog = Catalog::new(rt.alloc());
    letting_go(check_bodies(rt.alloc(), &mut catalog), catalog)
}

const STORAGE_STATE: &str = concat!(
    r#"{"apiVersion":"2023-01-01","#,
    r#""id":"/subscriptions/s/resourceGroups/g/providers/Microsoft.Storage/storageAccounts/acc1","#,
    r#""location":"w","name":"acc1","properties":{"primaryEndpoints":{"#,
    r#""blob":"https://acc1.blob.core.windows.net/","file":"https://acc1.file.core.windows.net/","#,
    r#""queue":"https://acc1.queue.core.windows.net/","table":"https://acc1.table.core.windows.net/"},"#,
    r#""provisioningState":"Succeeded"},"sku":{"name":"S"},"type":"Microsoft.Storage/storageAccounts"}"#,
);

fn check_storage(alloc: Global, catalog: &mut Catalog) -> Result<(), Fail> {
    let body = r#"{"location":"w","sku":{"name":"S"}}"#;
    check_put(alloc, catalog, STORAGE, body, STORAGE_STATE)?;
    check_delete(alloc, catalog, STORAGE, "Gone")?;
    check_count("calls", catalog.calls().len() as u64, 2)
}

#[test]
fn the_catalogue_gives_storage_accounts_endpoints(rt: HostRuntime) -> Result<(), Fail> {
    let mut catalog = Catalog::new(rt.alloc());
    letting_go(check_storage(rt.alloc(), &mut catalog), catalog)
}

// A type with a name, the body of a put, and after an arrow the code of its refusal.
const REFUSALS: &str = r#"Demo.Lab/things/x {"properties":[]} -> InvalidProperties
Microsoft.Storage/storageAccounts/acc1 {"properties":1} -> InvalidProperties
Microsoft.Storage/storageAccounts/acc1 {"sku":{"name":"Standard_LRS"}} -> LocationRequired
Microsoft.Storage/storageAccounts/acc1 {"location":"westeurope"} -> SkuRequired
Microsoft.Storage/storageAccounts/acc1 {"location":"westeurope","sku":{"name":1}} -> SkuRequired
Microsoft.Storage/storageAccounts/Acc {"location":"w","sku":{"name":"S"}} -> AccountNameInvalid
microsoft.storage/STORAGEACCOUNTS/ab {"location":"w","sku":{"name":"S"}} -> AccountNameInvalid
Microsoft.Web/sites/w {"location":1} -> LocationRequired
Microsoft.Web/serverFarms/w {} -> LocationRequired
Microsoft.Network/virtualNetworks/w {} -> LocationRequired"#;

fn check_refusal(alloc: Global, catalog: &mut Catalog, line: &str) -> Result<(), Fail> {
    let (asked, wanted) = line.split_once(" -> ").unwrap_or((line, "a code"));
    let (named, body) = asked.split_once(' ').unwrap_or((asked, "{}"));
    let id = format!(in alloc; "/subscriptions/s/resourceGroups/g/providers/{named}")?;
    check_put(alloc, catalog, id.as_str(), body, wanted)
}

fn check_refusals(alloc: Global, catalog: &mut Catalog) -> Result<(), Fail> {
    for line in REFUSALS.lines() {
        check_refusal(alloc, catalog, line)?;
    }
    check_count("calls", catalog.calls().len() as u64, 10)
}

#[test]
fn the_catalogue_refuses_by_its_table(rt: HostRuntime) -> Result<(), Fail> {
    let mut catalog = Catalog::new(rt.alloc());
    letting_go(check_refusals(rt.alloc(), &mut catalog), catalog)
}

// Adds a refusal, a fault and a step that stores.
fn add_steps(alloc: Global, steps: &mut Vec<Step>) -> Result<(), Fail> {
    steps.push(Step::Refuse(Text::of(alloc, "Quota")?))?;
    steps.push(Step::Fail)?;
    Ok(steps.push(Step::Store)?)
}

fn check_steps(alloc: Global, provider: &mut Script) -> Result<(), Fail> {
    check_put(alloc, provider, THING, "{}", "Quota")?;
    check_delete(alloc, provider, THING, "Fault")?;
    check_delete(alloc, provider, THING, "Gone")?;
    check_put(
        alloc,
        provider,
        "no id",
        r#"{"properties":3}"#,
        NAMELESS_STATE,
    )
}

fn check_count(asked: &str, found: u64, wanted: u64) -> Result<(), Fail> {
    if found == wanted {
        return Ok(());
    }
    Err(Fail::new(format_args!("{asked} -> {wanted} but {found}")))
}

fn check_script(alloc: Global, script: &mut Script) -> Result<(), Fail> {
    check_steps(alloc, script)?;
    check_count("calls", script.calls().len() as u64, 4)?;
    check_count("faults", script.faults(), 1)
}

// A seat over the script of these steps, which has no job.
fn check_seat(alloc: Global, steps: Vec<Step>) -> Result<(), Fail> {
    let mut seat = Seat::new(Script::new(alloc, steps));
    let checked = match seat.job {
        None => check_script(alloc, &mut seat.provider),
        Some(_) => Err(Fail::from("a job")),
    };
    letting_go(checked, seat)
}

#[test]
fn a_script_answers_by_its_steps_and_then_stores(rt: HostRuntime) -> Result<(), Fail> {
    let mut steps = Vec::new(rt.alloc());
    add_steps(rt.alloc(), &mut steps)?;
    check_seat(rt.alloc(), steps)
}

// This many arrays, one in another.
fn nested(alloc: Global, depth: usize) -> Result<String, AllocError> {
    let mut text = String::new(alloc);
    for _ in 0..depth {
        text.push('[')?;
    }
    for _ in 0..depth {
        text.push(']')?;
    }
    Ok(text)
}

fn nested_value(alloc: Global, depth: usize) -> Result<Value, Fail> {
    let text = nested(alloc, depth)?;
    Ok(Value::from_json(alloc, text.as_bytes())?)
}

fn check_copy(alloc: Global, state: &State) -> Result<(), Fail> {
    let value = state.copy(alloc)?.into_value();
    letting_go(check_count("nesting", value.nesting() as u64, 110), value)
}

fn check_state(alloc: Global, value: Value) -> Result<(), Fail> {
    let state = State::of(alloc, value)?;
    let bytes = state.text().as_slice().len() as u64;
    letting_go(check_copy(alloc, &state), state)?;
    check_count("bytes", bytes, 220)
}

#[test]
fn a_state_nests_110_deep(rt: HostRuntime) -> Result<(), Fail> {
    let value = nested_value(rt.alloc(), 110)?;
    check_state(rt.alloc(), value)
}

#[test]
fn no_state_nests_111_deep(rt: HostRuntime) -> Result<(), Fail> {
    let deeper = State::of(rt.alloc(), nested_value(rt.alloc(), 111)?);
    let is_too_deep = matches!(deeper, Err(StateFault::TooDeep));
    letting_go(check_count("too deep", u64::from(is_too_deep), 1), deeper)
}

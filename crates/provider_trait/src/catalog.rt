// A provider that knows a small catalogue of types.

ghost use Rattle.std.specs.Prelude.{◌≡◌, ℕ, [], true, chars, IfOk, IfErr, option_map};
ghost use Rattle.arm_value.specs.View.{json};
ghost use Rattle.arm_value.specs.Json.{nesting};
ghost use Rattle.provider_trait.specs.declared.act.Act.TheVariants.{Put, Delete};
ghost use Rattle.provider_trait.specs.declared.answer.ProviderFault.TheVariants.{OutOfMemory};
ghost use Rattle.provider_trait.specs.Answer.{Suits};
ghost use Rattle.provider_trait.specs.Calls.{AddsCall, Counts};
ghost use Rattle.provider_trait.specs.Catalog.{CatalogMay, catalog_answer, refusal, is_text};
ghost use Rattle.provider_trait.specs.Catalog.{is_object_or_none, sku_name, has_wrong_properties};
ghost use Rattle.provider_trait.specs.Catalog.{lacks_location, lacks_sku, has_wrong_name};
ghost use Rattle.provider_trait.specs.CatalogCalls.{catalog_calls};

use crate::answer::{Answer, ProviderFault};
use crate::call::{Call, add_answered};
use crate::job::Job;
use crate::named::Named;
use crate::parts::letting_go;
use crate::plain::stored;
use crate::provider::Provider;
use arm_value::{OutOfMemory, Text, Value};
use std::alloc::Global;

/// A provider that knows a small catalogue of types, and stores what fits it in its plain state.
///
/// It never fails, and reports its calls.
#[derive(Drop)]
pub struct Catalog {
    calls: Vec<Call>,
}

impl Catalog {
    /// A catalogue without calls. It takes no memory.
    pub fn new(alloc: Global) -> Catalog
        ensures { catalog_calls result ≡ [] }
    {
        Catalog {
            calls: Vec::new(alloc),
        }
    }

    /// The calls so far, oldest first.
    pub fn calls(&self) -> &[Call]
        ensures { result.now ≡ catalog_calls self.now }
    {
        self.calls.as_slice()
    }
}

impl Provider for Catalog {
    ghost may = { CatalogMay };

    ghost faults = { λ _. 0 };

    ghost tells = { true };

    ghost calls = { catalog_calls };

    fn put(&mut self, alloc: Global, job: &Job) -> Result<Answer, ProviderFault>
        requires { job.now.act ≡ Put }
        ensures may { IfOk result (CatalogMay Put job.now.id job.now.api job.now.body) }
        ensures suits { IfOk result (Suits Put) }
        ensures count { Counts 0 0 result }
        ensures calls { true ≡ true
            → AddsCall (catalog_calls self.old) (catalog_calls self.new) job.now result }
        ensures faultless { IfErr result (λ f. f ≡ OutOfMemory) }
    {
        let answer = answer_to(alloc, job)?;
        match add_answered(alloc, &mut self.calls, job, &answer) {
            Ok(()) => Ok(answer),
            Err(_) => letting_go(Err(ProviderFault::OutOfMemory), answer),
        }
    }

    fn delete(&mut self, alloc: Global, job: &Job) -> Result<Answer, ProviderFault>
        requires { job.now.act ≡ Delete }
        ensures may { IfOk result (CatalogMay Delete job.now.id job.now.api job.now.body) }
        ensures suits { IfOk result (Suits Delete) }
        ensures count { Counts 0 0 result }
        ensures calls { true ≡ true
            → AddsCall (catalog_calls self.old) (catalog_calls self.new) job.now result }
        ensures faultless { IfErr result (λ f. f ≡ OutOfMemory) }
    {
        add_answered(alloc, &mut self.calls, job, &Answer::Gone)?;
        Ok(Answer::Gone)
    }
}

// The answer to a put.
fn answer_to(alloc: Global, job: &Job) -> Result<Answer, OutOfMemory>
    requires { job.now.act ≡ Put }
    ensures answer { IfOk result (λ a. a ≡ catalog_answer Put job.now.id job.now.api job.now.body) }
    ensures suits { IfOk result (Suits Put) }
{
    let named = Named::of(alloc, job.id())?;
    match refusal(&named, job.body()) {
        Some(code) => Ok(Answer::Refused(Text::of(alloc, code)?)),
        None => stored(alloc, &named, job),
    }
}

// The code by which a put is refused: the first that holds.
fn refusal(named: &Named, body: &Value) -> Option<&'static str>
    ensures { option_map (λ code. chars code.now) result
        ≡ refusal named.now.kind named.now.name (json body.now) }
{
    if has_wrong_properties(body) {
        return Some("InvalidProperties");
    }
    if lacks_location(named, body) {
        return Some("LocationRequired");
    }
    if lacks_sku(named, body) {
        return Some("SkuRequired");
    }
    if has_wrong_name(named) {
        return Some("AccountNameInvalid");
    }
    None
}

fn has_wrong_properties(body: &Value) -> bool
    ensures { result ≡ has_wrong_properties (json body.now) }
{
    !is_object_or_none(body.look("properties"))
}

fn lacks_location(named: &Named, body: &Value) -> bool
    ensures { result ≡ lacks_location named.now.kind (json body.now) }
{
    named.needs_location() && !is_text(body.look("location"))
}

fn lacks_sku(named: &Named, body: &Value) -> bool
    ensures { result ≡ lacks_sku named.now.kind (json body.now) }
{
    named.is_storage() && !is_text(sku_name(body))
}

fn has_wrong_name(named: &Named) -> bool
    ensures { result ≡ has_wrong_name named.now.kind named.now.name }
{
    named.is_storage() && !named.is_account_name()
}

fn is_object_or_none(value: Option<&Value>) -> bool
    ensures { result ≡ is_object_or_none (option_map (λ v. json v.now) value.entry) }
{
    match value {
        None => true,
        Some(Value::Object(_)) => true,
        Some(_) => false,
    }
}

fn is_text(value: Option<&Value>) -> bool
    ensures { result ≡ is_text (option_map (λ v. json v.now) value.entry) }
{
    match value {
        Some(Value::Text(_)) => true,
        _ => false,
    }
}

// The name of the body's sku.
fn sku_name(body: &Value) -> Option<&Value>
    ensures { option_map (λ v. json v.now) result ≡ sku_name (json body.now) }
{
    match body.look("sku") {
        Some(sku) => sku.look("name"),
        None => None,
    }
}

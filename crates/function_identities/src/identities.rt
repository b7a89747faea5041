// Names that are made of texts.
ghost use Rattle.std.specs.Prelude.{◌≡◌, ◌∷◌, ◌++◌, [], Some, map, take, option_map, option_and_then, encode_utf8_all};
ghost use Rattle.std.specs.Prelude.{IfOk, OnOk};
ghost use Rattle.sha2.specs.Sha256.{sha256};
ghost use Rattle.uuid.specs.Text.{hyphenated_text, lower};
ghost use Rattle.uuid.specs.Uuid.{namespace_dns};
ghost use Rattle.arm_value.specs.Json.{text};
ghost use Rattle.arm_value.specs.View.{json};
ghost use Rattle.function_numbers.specs.Kinds.{text_of};
ghost use Rattle.function_identities.specs.Base32.{base32};
ghost use Rattle.function_identities.specs.Identities as row;
ghost use Rattle.function_identities.specs.Identities.{after_zeros, seed_of, version_5};

use crate::base32::base32;
use arm_value::{OutOfMemory, Text, Value};
use function_lists::characters::text_of_characters;
use function_numbers::kinds::text_of;
use sha2::{Digest, Sha256};
use std::alloc::Global;
use uuid::Uuid;

// Puts the bytes of the text last.
fn add(seed: &mut Vec<u8>, text: &Text) -> Result<(), OutOfMemory>
    ensures { OnOk result (seed.new.items ≡ seed.old.items ++ encode_utf8_all text.now) }
{
    seed.extend_from_slice(text.as_str().as_bytes())?;
    Ok(())
}

// The bytes of the first text, and of the others after a zero byte each.
fn seed_from(alloc: Global, first: &Text, others: &[Value]) -> Result<Option<Vec<u8>>, OutOfMemory>
    ensures { IfOk result (λ seed. option_map (λ v. v.items) seed
        ≡ option_map (λ rest. encode_utf8_all first.now ++ rest)
        (after_zeros (map json others.now))) }
{
    let mut seed = Vec::new(alloc);
    add(&mut seed, first)?;
    for other in others {
        match text_of(other) {
            Some(text) => {
                seed.push(0)?;
                add(&mut seed, text)?;
            }
            None => return Ok(None),
        }
    }
    Ok(Some(seed))
}

// The bytes of the texts with a zero byte between each two.
fn seed_of(alloc: Global, args: &[Value]) -> Result<Option<Vec<u8>>, OutOfMemory>
    ensures { IfOk result (λ seed. option_map (λ v. v.items) seed ≡ seed_of (map json args.now)) }
{
    match args {
        [first, others @ ..] => match text_of(first) {
            Some(first) => seed_from(alloc, first, others),
            None => Ok(None),
        },
        [] => Ok(None),
    }
}

fn short_hash(alloc: Global, seed: &[u8]) -> Result<Text, OutOfMemory>
    ensures { IfOk result (λ t. t ≡ base32 (take 8 (sha256 seed.now))) }
{
    let digest = Sha256::digest(seed);
    let symbols = base32(alloc, &digest[..8])?;
    text_of_characters(alloc, symbols.as_slice())
}

/// `uniqueString`: 13 small letters and digits from 2 to 7, which follow from the texts: the base32
/// (RFC 4648, without padding) of the first 8 bytes of the SHA-256 of the texts with a zero byte
/// between each two. Azure does not publish how it makes its own, and
/// these are not expected to be the same.
pub fn unique_string(alloc: Global, args: &[Value]) -> Result<Option<Value>, OutOfMemory>
    ensures { IfOk result (λ value. option_map json value ≡ row.unique_string (map json args.now)) }
{
    match seed_of(alloc, args)? {
        Some(seed) => Ok(Some(Value::Text(short_hash(alloc, seed.as_slice())?))),
        None => Ok(None),
    }
}

fn named_uuid(alloc: Global, name: &[u8]) -> Result<Text, OutOfMemory>
    ensures { IfOk result (λ t. t ≡ hyphenated_text lower (version_5 namespace_dns name.now)) }
{
    let uuid = Uuid::new_v5(&Uuid::NAMESPACE_DNS, name);
    let mut buffer = Uuid::encode_buffer();
    Text::of(alloc, uuid.hyphenated().encode_lower(&mut buffer))
}

/// `guid`: the UUID of version 5 (RFC 9562) of the texts with a zero byte between each two, in the
/// name space of domain names (`6ba7b810-9dad-11d1-80b4-00c04fd430c8`), with hyphens and in small
/// letters. Azure does not publish how it makes its own, and these are not expected to be the same.
pub fn guid(alloc: Global, args: &[Value]) -> Result<Option<Value>, OutOfMemory>
    ensures { IfOk result (λ value. option_map json value ≡ row.guid (map json args.now)) }
{
    match seed_of(alloc, args)? {
        Some(seed) => Ok(Some(Value::Text(named_uuid(alloc, seed.as_slice())?))),
        None => Ok(None),
    }
}

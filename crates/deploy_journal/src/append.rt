// The device calls of an append. Nothing before the closed gate is written until the body is on the disk.
ghost use Rattle.std.specs.Prelude.{◌≡◌, ◌<◌, ◌^◌, ◌≢◌, ◌⊎◌, ◌+◌, ◌≤◌, ◌++◌, [], ◌∷◌, ℕ, List, true, length, take};
ghost use Rattle.std.specs.Prelude.{drop, OnOk};
ghost use Rattle.arm_edges.specs.Disk.{GoesOn, IsKept};
ghost use Rattle.arm_edges.specs.Faults.{HasCause};
ghost use Rattle.arm_edges.specs.declared.disk.Part.TheVariants.{A};
ghost use Rattle.deploy_journal.specs.Records.{eight, patched, body_bytes, KeepsB, KeepsFront, Holds, Record};
ghost use Rattle.deploy_journal.specs.Records.{record_of, Since, IsOneOf};

use arm_edges::{Disk, Failed, Part};

// Writes bytes after a front that stays unchanged.
#[tactic(auto, unfolding(crate::specs::Records::eight))]
fn write_past<D: Disk>(disk: &mut D, front: u64, at: u64, bytes: &[u8]) -> Result<(), Failed>
    requires fits { at + length bytes.now ≤ D.reach disk.old }
    requires past { front ≤ at }
    ensures written { OnOk result (D.tells_reads ≡ true → at ≤ length (D.reads disk.old).a
        → (D.reads disk.new).a ≡ patched at bytes.now (D.reads disk.old).a) }
    ensures part_b { D.tells_reads ≡ true → KeepsB (D.reads disk.old) (D.reads disk.new) }
    ensures images { D.tells_images ≡ true
        → GoesOn D.moment D.left (KeepsFront front) disk.old disk.new }
    ensures cause { HasCause (D.faults disk.old) (D.faults disk.new) result }
    ensures reach { D.reach disk.new ≡ D.reach disk.old }
{
    disk.write_at(Part::A, at, bytes)
}

#[tactic(auto, unfolding(crate::specs::Records::eight))]
fn header_of(kind: u8, first: usize, second: usize) -> [u8; 17]
    ensures { result ≡ kind ∷ (eight first ++ eight second) }
{
    let [a, b, c, d, e, f, g, h] = (first as u64).to_be_bytes();
    let [i, j, k, l, m, n, o, p] = (second as u64).to_be_bytes();
    [kind, a, b, c, d, e, f, g, h, i, j, k, l, m, n, o, p]
}

// Writes a record's bytes and a closed gate after them, and syncs.
fn write_body<D: Disk>(
    disk: &mut D,
    at: u64,
    kind: u8,
    first: &[u8],
    second: &[u8],
) -> Result<(), Failed>
    requires fits { at + (18 + length first.now + length second.now) ≤ D.reach disk.old }
    requires fits_64 { at + (18 + length first.now + length second.now) < 2 ^ 64 }
    ensures written { OnOk result (D.tells_reads ≡ true → at ≤ length (D.reads disk.old).a
        → (D.reads disk.new).a ≡ patched at (body_bytes kind first.now second.now (0 ∷ []))
        (D.reads disk.old).a) }
    ensures part_b { D.tells_reads ≡ true → KeepsB (D.reads disk.old) (D.reads disk.new) }
    ensures kept { OnOk result (D.tells_images ≡ true
        → IsKept A (D.reads disk.new) (D.left disk.new (D.moment disk.new))) }
    ensures images { D.tells_images ≡ true
        → GoesOn D.moment D.left (KeepsFront at) disk.old disk.new }
    ensures cause { HasCause (D.faults disk.old) (D.faults disk.new) result }
    ensures reach { D.reach disk.new ≡ D.reach disk.old }
{
    let header = header_of(kind, first.len(), second.len());
    let first_at = at + 17;
    let second_at = first_at + first.len() as u64;
    let gate_at = second_at + second.len() as u64;
    write_past(disk, at, at, &header)?;
    write_past(disk, at, first_at, first)?;
    write_past(disk, at, second_at, second)?;
    write_past(disk, at, gate_at, &[0])?;
    disk.sync(Part::A)
}

// Adds a record after the closed gate at this place, and then opens this gate. A sync comes before the gate is opened,
// and another one after.
pub(crate) fn put_record<D: Disk>(
    disk: &mut D,
    gate: u64,
    kind: u8,
    first: &[u8],
    second: &[u8],
) -> Result<(), Failed>
    requires fits { gate + 1 + (18 + length first.now + length second.now) ≤ D.reach disk.old }
    requires fits_64 { gate + 1 + (18 + length first.now + length second.now) < 2 ^ 64 }
    ensures holds { OnOk result (D.tells_reads ≡ true → (records : List Record)
        → Holds records gate (D.reads disk.old).a
        → Holds (records ++ record_of kind first.now second.now ∷ [])
        (gate + (18 + length first.now + length second.now)) (D.reads disk.new).a) }
    ensures kept { OnOk result (D.tells_images ≡ true
        → IsKept A (D.reads disk.new) (D.left disk.new (D.moment disk.new))) }
    ensures crash { D.tells_reads ≡ true → D.tells_images ≡ true
        → IsKept A (D.reads disk.old) (D.left disk.old (D.moment disk.old))
        → (records : List Record) → Holds records gate (D.reads disk.old).a
        → Since D.moment D.left disk.old disk.new
        (λ c. IsOneOf records (record_of kind first.now second.now) c.a) }
    ensures part_b { D.tells_reads ≡ true → KeepsB (D.reads disk.old) (D.reads disk.new) }
    ensures part_b_images { D.tells_images ≡ true
        → GoesOn D.moment D.left KeepsB disk.old disk.new }
    ensures cause { HasCause (D.faults disk.old) (D.faults disk.new) result }
    ensures reach { D.reach disk.new ≡ D.reach disk.old }
{
    write_body(disk, gate + 1, kind, first, second)?;
    disk.write_at(Part::A, gate, &[1])?;
    disk.sync(Part::A)
}

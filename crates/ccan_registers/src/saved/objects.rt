//! The records of a chip's objects as words, three for each.
ghost use Rattle.std.specs.Prelude.{◌≡◌, ◌≤◌, ◌<◌, ◌↔◌, List, All, IfOk, IsTrue, length};
ghost use Rattle.std.specs.List.{flat_map};
ghost use Rattle.ccan_object.specs.declared.record.Record.{Record};
ghost use Rattle.ccan_object.specs.Packing.{packed};
ghost use Rattle.ccan_object.specs.Record.{zero_record};
ghost use Rattle.ccan_registers.specs.Format.{AreRecords, AreUnused};

use crate::saved::field::Field;
use ccan_object::{MOST_OBJECTS, Profile, Record, pack, unpack};

/// The records that these words are, of all 64 objects.
fn each_in(words: &[u64]) -> Result<[Record; MOST_OBJECTS], Field>
    requires { length words.now ≡ 192 }
    ensures found { IfOk result
        (λ records. AreRecords records × (flat_map packed records ≡ words.now)) }
    ensures only { (records : List Record) → AreRecords records
        → flat_map packed records ≡ words.now → result ≡ Ok records }
{
    let mut records = [Record::zero(); MOST_OBJECTS];
    for k in 0..MOST_OBJECTS {
        let Some(found) = unpack([words[3 * k], words[3 * k + 1], words[3 * k + 2]]) else {
            return Err(Field::Object(k as u8 + 1));
        };
        records[k] = found;
    }
    Ok(records)
}

/// Whether these records are zero.
fn are_zero(records: &[Record]) -> bool
    ensures { IsTrue result ↔ All (λ r. r ≡ zero_record) records.now }
{
    let zero = Record::zero();
    for record in records {
        if !is_same(record, &zero) {
            return false;
        }
    }
    true
}

/// Whether the records of the objects that a chip does not have are zero.
fn unused_are_zero(profile: Profile, records: &[Record; MOST_OBJECTS]) -> bool
    ensures { IsTrue result ↔ AreUnused profile records.now }
{
    let all = &records[..];
    are_zero(&all[usize::from(profile.objects())..])
}

/// The records that these words are, if those past the chip's last object are zero.
pub(crate) fn records_in(profile: Profile, words: &[u64]) -> Result<[Record; MOST_OBJECTS], Field>
    requires { length words.now ≡ 192 }
    ensures found { IfOk result (λ records. AreRecords records × AreUnused profile records
        × (flat_map packed records ≡ words.now)) }
    ensures only { (records : List Record) → AreRecords records → AreUnused profile records
        → flat_map packed records ≡ words.now → result ≡ Ok records }
{
    let records = each_in(words)?;
    if unused_are_zero(profile, &records) {
        Ok(records)
    } else {
        Err(Field::Unused)
    }
}

/// Whether these are the same record: they have the same words.
pub(crate) fn is_same(first: &Record, second: &Record) -> bool
    ensures { IsTrue result ↔ (first.now ≡ second.now) }
{
    let words = pack(first);
    let others = pack(second);
    are_equal(&words, &others)
}

/// Whether these are the same words.
fn are_equal(words: &[u64; 3], others: &[u64; 3]) -> bool
    ensures { IsTrue result ↔ (words.now ≡ others.now) }
{
    words == others
}

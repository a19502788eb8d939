ghost use Rattle.std.specs.Prelude.{◌≡◌, ◌++◌, take, drop, if◌then◌else◌};
ghost use Rattle.ccan_object.specs.Group.{by_groups};
ghost use Rattle.ccan_object.specs.Transfer.{merged, cleared};

use crate::command::CommandMask;
use crate::group::Group;
use crate::record::Record;

/// One of two records.
fn chosen(is_first: bool, first: &Record, second: &Record) -> Record
    ensures { result ≡ (if is_first then first.now else second.now) }
{
    if is_first { *first } else { *second }
}

/// The first four bytes of one object and the last four of another.
fn joined(first: &[u8; 8], last: &[u8; 8]) -> [u8; 8]
    ensures { result ≡ take 4 first.now ++ drop 4 last.now }
{
    // written out: the prover then sees each byte at its place
    [
        first[0], first[1], first[2], first[3], last[4], last[5], last[6], last[7],
    ]
}

/// The fields of one record in the groups that a command selects, and those of another in the others.
pub(crate) fn by_groups(command: CommandMask, first: &Record, second: &Record) -> Record
    ensures { result ≡ by_groups command first.now second.now }
{
    let mask = chosen(command.selects(Group::Mask), first, second);
    let arb = chosen(command.selects(Group::Arb), first, second);
    let control = chosen(command.selects(Group::Control), first, second);
    let data_a = chosen(command.selects(Group::DataA), first, second);
    let data_b = chosen(command.selects(Group::DataB), first, second);
    Record {
        mask: mask.mask,
        mdir: mask.mdir,
        mxtd: mask.mxtd,
        id: arb.id,
        dir: arb.dir,
        xtd: arb.xtd,
        valid: arb.valid,
        bytes: joined(&data_a.bytes, &data_b.bytes),
        ..control
    }
}

/// The record after a masked write of the buffer. Bit 7 of the command is ignored.
pub fn merged(command: CommandMask, buffer: &Record, old: &Record) -> Record
    ensures { result ≡ merged command buffer.now old.now }
{
    let written = by_groups(command, buffer, old);
    Record {
        txrqst: command.has_txrqst_newdat() || written.txrqst,
        ..written
    }
}

/// The record after a clearing read. Bit 7 of the command is ignored.
pub fn cleared(command: CommandMask, old: &Record) -> Record
    ensures { result ≡ cleared command old.now }
{
    Record {
        intpnd: old.intpnd && !command.clears_intpnd(),
        newdat: old.newdat && !command.has_txrqst_newdat(),
        ..*old
    }
}

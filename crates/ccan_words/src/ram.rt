use crate::ending::last_records;
use crate::layout::Layout;
use crate::picture::picture;
use crate::port::Port;
use crate::steps::{end, join, part, watch};
use crate::version::{Version, found, number_of, publish};
use crate::words::{Key, Words};
use ccan_object::{ObjectNo, Profile, Record};
use ccan_ram::{
    Change, Changed, CommitError, Draft, Final, HandlerRegisters, OpenError, PortName, Refused,
    SharedRam, Tries,
};
use std::alloc::Global;

/// A memory of either layout, which its three ports use at once without a lock.
#[derive(Drop)]
pub struct Ram<L: Layout> {
    words: Words<L>,
}

impl<L: Layout> SharedRam for Ram<L> {
    type Port = Port;

    ghost memory = { λ ram. ram.words };

    ghost pass = { λ port. port };

    ghost contends = { L.contends };

    ghost MAX_QUOTA = { L.MOST };

    const MAX_QUOTA: u64 = L::MOST;

    fn open_ram(
        alloc: Global,
        profile: Profile,
        quota: u64,
    ) -> Result<(Self, Port, Port, Port), OpenError> {
        if quota == 0 || quota > L::MOST {
            return Err(OpenError::QuotaRange);
        }
        let key = Key { profile, quota };
        let Ok((words, mut seat)) = Words::open(alloc, key) else {
            return Err(OpenError::Memory);
        };
        let second = part(&words, &mut seat, PortName::If2);
        let third = part(&words, &mut seat, PortName::Bus);
        let if1 = Port::opened(seat, PortName::If1, key);
        let if2 = Port::opened(second, PortName::If2, key);
        let bus = Port::opened(third, PortName::Bus, key);
        Ok((Ram { words }, if1, if2, bus))
    }

    fn profile(&self) -> Profile {
        self.words.key().profile
    }

    #[inline(always)]
    fn look(&self, port: &mut Port, object: ObjectNo) -> Record {
        let (_number, held) = found(&self.words, &mut port.seat, port.name, number_of(object));
        held
    }

    #[inline(always)]
    fn look_all(&self, port: &mut Port) -> HandlerRegisters {
        picture(&self.words, &mut port.seat, port.name)
    }

    #[inline(always)]
    fn prepare(&self, port: &mut Port, object: ObjectNo) -> Draft {
        let (number, held) = found(&self.words, &mut port.seat, port.name, number_of(object));
        Draft::new(object, held, number)
    }

    fn commit(
        &self,
        port: &mut Port,
        draft: Draft,
        change: &Change,
    ) -> Result<Changed, CommitError> {
        let quota = self.words.key().quota;
        if port.used == quota {
            return Err(CommitError::Spent);
        }
        if !change.fits(&draft.held()) {
            return Ok(Changed::NotNow(draft.held()));
        }
        let version = Version::of(port.name, port.used, &draft, change);
        let now = publish(&self.words, &mut port.seat, &version);
        if now == version.old {
            port.used += 1;
            Ok(version.done())
        } else {
            Err(CommitError::Lost { now })
        }
    }

    fn change(
        &self,
        port: &mut Port,
        object: ObjectNo,
        change: &Change,
        tries: Tries,
    ) -> Result<Changed, Refused> {
        if port.used == self.words.key().quota {
            return Err(Refused::Spent);
        }
        let most = tries.get();
        let mut last = 0;
        for turn in 0..most {
            let draft = self.prepare(port, object);
            match self.commit(port, draft, change) {
                Ok(changed) => return Ok(changed),
                Err(CommitError::Lost { now }) => last = now,
                Err(CommitError::Spent) => return Err(Refused::Spent),
            }
        }
        Err(Refused::Busy {
            tries: most,
            now: last,
        })
    }

    fn meet(&self, first: &mut Port, second: &mut Port) {
        let theirs = part(&self.words, &mut second.seat, second.name);
        join(&self.words, &mut first.seat, theirs);
        watch(&self.words, &mut first.seat);
        second.seat = part(&self.words, &mut first.seat, second.name);
    }

    fn used(&self, port: &Port) -> u64 {
        port.used
    }

    fn close(self, if1: Port, if2: Port, bus: Port) -> Final {
        let Ram { words } = self;
        let profile = words.key().profile;
        let mut seat = if1.into_seat();
        join(&words, &mut seat, if2.into_seat());
        join(&words, &mut seat, bus.into_seat());
        let closed = end(words, seat);
        let records = last_records::<L>(&closed, profile);
        closed.free();
        Final { profile, records }
    }
}

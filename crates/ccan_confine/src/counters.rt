ghost use Rattle.std.specs.Prelude.{◌≡◌, ℕ, ◌+◌, ◌-◌, ◌<◌, ◌≤◌, Bool, true, false, nat_le, List, [], ◌∷◌, if◌then◌else◌};
ghost use Rattle.ccan_confine.specs.Counters.{NodeEvent, Bus, Groups, ClearInit, reaches, is_off, by_table, state_of};
ghost use Rattle.ccan_confine.specs.Counters.{passive_limit, rec_after_passive, groups_to_return, levels_after_all};
ghost use Rattle.ccan_confine.specs.Counters.{is_recovering_after, AreAfter, AddsEvent, new_counts, counts_after};
ghost use Rattle.ccan_confine.specs.Counters.{node_counts};
ghost use Rattle.ccan_confine.specs.Counters.{counts_cleared, faults_to_off, is_recovering, most_rec, off_limit, send_fault_step};

use crate::bus_event::BusEvent;
use crate::node_state::NodeState;
use std::marker::Model;

/// From this count of either counter on a node is error passive, and the Status register shows EPass.
pub(crate) const PASSIVE: u16 = 128;
/// From this transmit error count on a node is bus off.
const OFF: u16 = 256;
/// What an error in a node's own frame adds to its transmit error counter.
const SEND_FAULT_STEP: u16 = 8;
/// What a received frame makes of a receive error counter that is above 127.
const REC_AFTER_PASSIVE: u8 = 119;
/// This many groups of eleven recessive bits bring a node back.
const GROUPS_TO_RETURN: u32 = 128;

/// The error counters of one node, with what its way back from bus off needs.
///
/// The transmit error counter (TEC) is 0 to 263, the receive error counter (REC) 0 to 255, in units of the standard: an
/// error in a node's own frame adds 8, one in a frame of another node 1. A call takes the counters and answers those
/// after it, since they are `Copy`. Contracts see the record of the parts.
#[derive(Clone, Copy, Debug, PartialEq, Eq, Hash)]
pub struct Counters {
    pub(crate) host: bool,
    pub(crate) tec: u16,
    pub(crate) rec: u8,
    pub(crate) init_cleared: bool,
    pub(crate) groups: u8,
}

impl Model for Counters {
    ghost use Rattle.std.specs.Prelude.{◌+◌, ◌<◌};
    ghost use Rattle.ccan_confine.specs.Counters.{Counts, off_limit, send_fault_step, groups_to_return};

    ghost Value = { Counts };

    ghost view = { λ c. record {
      host = c.host;
      levels = record { tec = c.tec; rec = c.rec };
      init_cleared = c.init_cleared;
      groups = c.groups;
    } };

    ghost invariant = { λ c. (c.tec < off_limit + send_fault_step) × (c.groups < groups_to_return) };

    // The fields back from the value: a `Copy` type with a model states it.
    ghost inverse = { λ c. record {
      host = c.host;
      tec = c.levels.tec;
      rec = c.levels.rec;
      init_cleared = c.init_cleared;
      groups = c.groups;
    } };
}

impl Counters {
    /// A node as it opens: both counters 0, error active. `host` says whether it is the controller, whose host has to
    /// clear Init before it comes back from bus off.
    pub fn new(host: bool) -> Counters
        ensures opened { result ≡ new_counts host }
        ensures listed { AreAfter host [] result }
    {
        Counters {
            host,
            tec: 0,
            rec: 0,
            init_cleared: false,
            groups: 0,
        }
    }

    /// The controller once faults of its own frames alone have made it go off: TEC is 256, and Init was not cleared since.
    pub fn gone_off() -> Counters
        ensures off { is_off result.levels ≡ true }
        ensures listed { AreAfter true faults_to_off result }
    {
        Counters {
            host: true,
            tec: OFF,
            rec: 0,
            init_cleared: false,
            groups: 0,
        }
    }

    /// A node without a host, with these counters: TEC 0 to 263, REC 0 to 255, and the groups of recessive bits that count
    /// for it, 0 to 127, which are 0 unless it is bus off. None if a number is out of its range.
    pub fn of_node(tec: u16, rec: u8, groups: u8) -> Option<Counters>
        ensures { result ≡ node_counts tec rec groups }
    {
        if tec >= OFF + SEND_FAULT_STEP || groups >= 128 || (tec < OFF && groups > 0) {
            return None;
        }
        Some(Counters {
            host: false,
            tec,
            rec,
            init_cleared: false,
            groups,
        })
    }

    /// How many groups of recessive bits count so far, 0 to 127, on its way back from bus off.
    pub fn groups(self) -> u8
        ensures { result ≡ self.groups }
    {
        self.groups
    }

    /// The transmit error counter (TEC), 0 to 263; from 256 on the node is bus off.
    #[inline(always)]
    pub fn tec(self) -> u16
        ensures value { result ≡ self.levels.tec }
        ensures listed { (host : Bool) (events : List NodeEvent)
            → AreAfter host events self → result ≡ (levels_after_all host events).tec }
    {
        self.tec
    }

    /// The receive error counter (REC), 0 to 255.
    #[inline(always)]
    pub fn rec(self) -> u8
        ensures value { result ≡ self.levels.rec }
        ensures listed { (host : Bool) (events : List NodeEvent)
            → AreAfter host events self → result ≡ (levels_after_all host events).rec }
    {
        self.rec
    }

    /// The state that the counters mean: off if TEC is at least 256, else passive if a counter is at least 128,
    /// else active.
    pub fn state(self) -> NodeState
        ensures value { result ≡ state_of self.levels }
        ensures listed { (host : Bool) (events : List NodeEvent)
            → AreAfter host events self → result ≡ state_of (levels_after_all host events) }
    {
        if self.is_off() {
            NodeState::Off
        } else if self.reaches(PASSIVE) {
            NodeState::Passive
        } else {
            NodeState::Active
        }
    }

    /// Whether groups of recessive bits count now: the node is off and, if it is the controller, Init was cleared
    /// since it went off.
    pub fn recovering(self) -> bool
        ensures value { result ≡ is_recovering self }
        ensures listed { (host : Bool) (events : List NodeEvent)
            → AreAfter host events self → result ≡ is_recovering_after host events }
    {
        self.is_off() && (!self.host || self.init_cleared)
    }

    /// The counters after a bus event (`BusEvent` has the table). Those of a node that is off stay.
    #[must_use]
    pub fn after(self, event: BusEvent) -> Counters
        ensures changed { result ≡ counts_after event self }
        ensures listed { AddsEvent (Bus event) self result }
    {
        if self.is_off() {
            self
        } else {
            self.on_bus(event)
        }
    }

    /// The counters after this many groups of eleven recessive bits. Groups count only while the node is recovering; with
    /// the one that makes 128 it is back, as it opened.
    #[must_use]
    pub fn recessive_groups(self, groups: u16) -> Counters
        ensures ignored { is_recovering self ≡ false → result ≡ self }
        ensures counted { is_recovering self ≡ true → self.groups + groups < groups_to_return
            → result ≡ record self { groups = self.groups + groups } }
        ensures back { is_recovering self ≡ true → groups_to_return ≤ self.groups + groups
            → result ≡ new_counts self.host }
        ensures listed { AddsEvent (Groups groups) self result }
    {
        if !self.recovering() {
            return self;
        }
        let groups = u32::from(self.groups) + u32::from(groups);
        if groups >= GROUPS_TO_RETURN {
            Counters::new(self.host)
        } else {
            Counters {
                groups: groups as u8,
                ..self
            }
        }
    }

    /// The counters after the host cleared Init (C_CAN User's Manual 1.2, "CAN Control Register"). The first clearing
    /// since the controller went off begins the count of groups; each other one does nothing.
    #[must_use]
    pub fn clear_init(self) -> Counters
        ensures changed { result ≡ counts_cleared self }
        ensures listed { AddsEvent ClearInit self result }
    {
        if self.host && self.is_off() {
            Counters {
                init_cleared: true,
                ..self
            }
        } else {
            self
        }
    }

    // The counters of a node that is on, by the table.
    fn on_bus(self, event: BusEvent) -> Counters
        requires { is_off self.levels ≡ false }
        ensures { result ≡ record self { levels = by_table event self.levels } }
    {
        match event {
            BusEvent::Sent => Counters {
                tec: self.tec.saturating_sub(1),
                ..self
            },
            BusEvent::Received => Counters {
                rec: received(self.rec),
                ..self
            },
            BusEvent::SendFault => Counters {
                tec: self.tec + SEND_FAULT_STEP,
                ..self
            },
            BusEvent::SendNoAck if self.reaches(PASSIVE) => self,
            BusEvent::SendNoAck => Counters {
                tec: self.tec + SEND_FAULT_STEP,
                ..self
            },
            BusEvent::ReceiveFault => Counters {
                rec: self.rec.saturating_add(1),
                ..self
            },
        }
    }

    // TEC, REC and the groups that count so far, each in its range.
    #[inline(always)]
    pub(crate) fn numbers(self) -> (u64, u64, u64)
        ensures tec { (result.0 ≡ self.levels.tec) × (result.0 < off_limit + send_fault_step) }
        ensures rec { (result.1 ≡ self.levels.rec) × (result.1 ≤ most_rec) }
        ensures groups { (result.2 ≡ self.groups) × (result.2 < groups_to_return) }
    {
        (
            u64::from(self.tec),
            u64::from(self.rec),
            u64::from(self.groups),
        )
    }

    // Whether a counter is at least the limit.
    #[inline(always)]
    pub(crate) fn reaches(self, limit: u16) -> bool
        ensures { result ≡ reaches limit self.levels }
    {
        self.tec >= limit || u16::from(self.rec) >= limit
    }

    // Whether the node is bus off.
    #[inline(always)]
    pub(crate) fn is_off(self) -> bool
        ensures { result ≡ is_off self.levels }
    {
        self.tec >= OFF
    }
}

// The receive error counter after a frame was received.
fn received(rec: u8) -> u8
    ensures { result ≡ (if nat_le passive_limit rec then rec_after_passive else rec - 1) }
{
    if u16::from(rec) >= PASSIVE {
        REC_AFTER_PASSIVE
    } else {
        rec.saturating_sub(1)
    }
}

//! What the lines of a script make of a message object, by what they say in their order. No line is run: each change is taken
//! to be made, and of a frame on the bus only what is plain.

use ccan_accept::{Frame, accepts, ready, stored};
use ccan_object::{CommandMask, Group, Record, cleared, merged};
use ccan_ram::{Flag, PortName};

/// NewDat, MsgLst, IntPnd and TxRqst, as they are in Message Control (User's Manual, section 3.3.4).
pub(crate) const ALL_FLAGS: u16 = 0xe100;

/// IntPnd in Message Control.
pub(crate) const INTPND: u16 = 0x2000;

/// The bit of a flag in Message Control, 0 for MsgVal, which is elsewhere.
pub(crate) fn flag_bit(flag: Flag) -> u16 {
    match flag {
        Flag::NewDat => 0x8000,
        Flag::MsgLst => 0x4000,
        Flag::IntPnd => INTPND,
        Flag::TxRqst => 0x0100,
        Flag::MsgVal => 0,
    }
}

/// A message object as the lines so far leave it.
#[derive(Clone, Copy)]
pub(crate) struct ObjectImage {
    pub(crate) record: Record,
    /// The flags, as in Message Control, that another port set since IF1 last looked at the object, and that are still set.
    unseen_by_if1: u16,
    /// The same for IF2.
    unseen_by_if2: u16,
    /// The line that wrote Message Control or Arbitration last: its port and its index.
    pub(crate) settings_line: Option<(PortName, usize)>,
}

/// What is rarely meant in a write.
#[derive(Clone, Copy)]
pub(crate) struct WriteFinding {
    /// The flags, as in Message Control, that the write takes back though another port set them unseen.
    pub(crate) taken_back: u16,
    /// The write requests a transmission of an object that is not valid.
    pub(crate) idle_request: bool,
}

impl WriteFinding {
    /// Nothing is found.
    pub(crate) const NOTHING: WriteFinding = WriteFinding {
        taken_back: 0,
        idle_request: false,
    };
}

/// The flags of an object, as they are in Message Control.
fn flags_of(record: &Record) -> u16 {
    record.control() & ALL_FLAGS
}

impl ObjectImage {
    /// An object that no line has written.
    pub(crate) fn new() -> ObjectImage {
        ObjectImage {
            record: Record::zero(),
            unseen_by_if1: 0,
            unseen_by_if2: 0,
            settings_line: None,
        }
    }

    /// The flags that a port has not seen.
    fn unseen_by(&self, port: PortName) -> u16 {
        match port {
            PortName::If1 => self.unseen_by_if1,
            PortName::If2 => self.unseen_by_if2,
            PortName::Bus => 0,
        }
    }

    /// A port looks at these flags.
    pub(crate) fn look(&mut self, port: PortName, flags: u16) {
        match port {
            PortName::If1 => self.unseen_by_if1 &= !flags,
            PortName::If2 => self.unseen_by_if2 &= !flags,
            PortName::Bus => {}
        }
    }

    /// A port leaves the object like this. What it set is unseen by the others.
    fn leave(&mut self, port: PortName, record: Record) {
        let flags = flags_of(&record);
        let set = flags & !flags_of(&self.record);
        let by_if1 = if port == PortName::If1 { 0 } else { set };
        let by_if2 = if port == PortName::If2 { 0 } else { set };
        self.unseen_by_if1 = (self.unseen_by_if1 | by_if1) & flags;
        self.unseen_by_if2 = (self.unseen_by_if2 | by_if2) & flags;
        self.record = record;
    }

    /// A line of a host writes the object from its interface registers.
    pub(crate) fn write(
        &mut self,
        port: PortName,
        index: usize,
        command: CommandMask,
        buffer: &Record,
    ) -> WriteFinding {
        let record = merged(command, buffer, &self.record);
        let has_control = command.selects(Group::Control);
        let taken_back = if has_control {
            self.unseen_by(port) & !flags_of(&record)
        } else {
            0
        };
        if has_control || command.selects(Group::Arb) {
            self.settings_line = Some((port, index));
        }
        self.leave(port, record);
        WriteFinding {
            taken_back,
            idle_request: (has_control || command.has_txrqst_newdat())
                && record.txrqst
                && !record.valid,
        }
    }

    /// A line of a host reads the object.
    pub(crate) fn read(&mut self, port: PortName, command: CommandMask) {
        let record = cleared(command, &self.record);
        self.leave(port, record);
        self.look(port, ALL_FLAGS);
    }

    /// The bus stores a frame in the object. Its identifier stays as the hosts wrote it.
    pub(crate) fn store(&mut self, frame: &Frame) {
        let after = stored(&self.record, frame);
        let record = Record {
            newdat: after.newdat,
            msglst: after.msglst,
            intpnd: after.intpnd,
            txrqst: after.txrqst,
            ..self.record
        };
        self.leave(PortName::Bus, record);
    }

    /// The bus may have sent the object's frame, and met its request.
    pub(crate) fn meet_request(&mut self) {
        if ready(&self.record) {
            let record = Record {
                txrqst: false,
                ..self.record
            };
            self.leave(PortName::Bus, record);
        }
    }

    /// Whether the object waits for its transmission.
    pub(crate) fn is_ready(&self) -> bool {
        ready(&self.record)
    }

    /// Whether the object accepts a frame.
    pub(crate) fn accepts(&self, frame: &Frame) -> bool {
        accepts(&self.record, frame)
    }
}

/// Whether an object is valid, receives, and has the identifier and the mask of another.
fn goes_on_with(object: &Record, next: &Record) -> bool {
    let same_mask = !object.umask
        || object.mask == next.mask && object.mxtd == next.mxtd && object.mdir == next.mdir;
    next.valid
        && !next.dir
        && object.id == next.id
        && object.xtd == next.xtd
        && object.umask == next.umask
        && same_mask
}

/// Whether an object is valid without EoB, though the next one doesn't go on with its FIFO buffer (User's Manual, section
/// 3.3.4, "End of Buffer", and "Configuration of a FIFO Buffer").
pub(crate) fn lacks_end_of_buffer(object: &ObjectImage, next: Option<&ObjectImage>) -> bool {
    let goes_on = match next {
        Some(next) => !object.record.dir && goes_on_with(&object.record, &next.record),
        None => false,
    };
    object.record.valid && !object.record.eob && !goes_on
}

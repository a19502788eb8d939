/// What a frame on the bus means for the error counters of one node (CAN Specification 2.0, "Fault Confinement").
///
/// Each says what becomes of the transmit error counter (TEC) or of the receive error counter (REC) of a node that is
/// on. One that is bus off takes no part, and keeps both.
#[derive(Clone, Copy, Debug, PartialEq, Eq, Hash)]
pub enum BusEvent {
    /// It sent a frame, which another node acknowledged: TEC minus 1, if above 0.
    Sent,
    /// It received a frame: REC minus 1, if from 1 to 127; above 127 it becomes 119.
    Received,
    /// It sent, and an error was found in its frame: TEC plus 8.
    SendFault,
    /// It sent, and no node acknowledged: TEC plus 8, if it is error active; nothing if it is error passive.
    SendNoAck,
    /// It received, and an error was found: REC plus 1, up to 255.
    ReceiveFault,
}

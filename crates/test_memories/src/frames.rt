//! Worked examples of frames: acceptance, storing, and what is sent.

use crate::expect::{BYTES, empty_frame, frame, holds, registers, same, shown};
use ccan_accept::*;
use ccan_object::{Record, Reg};

/// The record that registers show: Arbitration 2 and 1, Mask 2 and 1, and Message Control; with these bytes.
fn record(arbitration: u32, masks: u32, control: u16, bytes: [u8; 8]) -> Record {
    let settings = [
        (Reg::Arb2, (arbitration >> 16) as u16),
        (Reg::Arb1, (arbitration % 0x10000) as u16),
        (Reg::Mask2, (masks >> 16) as u16),
        (Reg::Mask1, (masks % 0x10000) as u16),
        (Reg::Ctrl, control),
    ];
    Record {
        bytes,
        ..registers(&settings, &[]).buffer()
    }
}

#[test]
fn frames_have_ranges(rt: HostRuntime) {
    for (id, xtd, dlc, error) in [
        (2048, false, 16, FrameError::IdRange),
        (2047, false, 16, FrameError::DlcRange),
        (536870912, true, 0, FrameError::IdRange),
    ] {
        same(&rt, Frame::new(id, xtd, false, dlc, BYTES), Err(error));
    }
    let extended = frame(536870911, true, false, 15, BYTES);
    same(&rt, extended.id(), 536870911);
    holds(&rt, extended.xtd() && !extended.rtr());
    same(&rt, extended.dlc().get(), 15);
    same(&rt, extended.bytes(), BYTES);
    let remote = frame(2047, false, true, 4, BYTES);
    holds(&rt, remote.rtr() && !remote.xtd());
    same(&rt, remote.bytes(), [0; 8]);
    let short = frame(2047, false, false, 3, BYTES);
    same(&rt, short.bytes(), [0x11, 0x22, 0x33, 0, 0, 0, 0, 0]);
}

/// Objects, by their arbitration, masks and Message Control, and which of six frames each accepts.
const ACCEPTED: [(u32, u32, u16, [bool; 6]); 15] = [
    // a standard object and an extended one, without a mask
    (
        0x848c0000,
        0,
        0x0080,
        [true, false, false, false, false, false],
    ),
    (
        0xc48c0001,
        0,
        0x0080,
        [false, false, false, true, false, false],
    ),
    // an extended object with the whole mask, without MXtd and with it
    (
        0xc48c0001,
        0x5fffffff,
        0x1080,
        [true, false, false, true, false, false],
    ),
    (
        0xc48c0001,
        0xdfffffff,
        0x1080,
        [false, false, false, true, false, false],
    ),
    // an extended object whose mask has bit 0 only, without MXtd and with it
    (
        0xc48c0001,
        0x40000001,
        0x1080,
        [true, true, false, true, false, true],
    ),
    (
        0xc48c0001,
        0xc0000001,
        0x1080,
        [false, false, false, true, false, true],
    ),
    // a standard object with the whole mask, without MXtd
    (
        0x848c0000,
        0x5fffffff,
        0x1080,
        [true, false, false, true, true, false],
    ),
    // a mask of zeros compares nothing
    (0x848c0000, 0, 0x1080, [true, true, true, true, true, true]),
    // an object that transmits, without a mask and with one without MDir
    (
        0xa48c0000,
        0,
        0x0080,
        [false, false, true, false, false, false],
    ),
    (
        0xa48c0000,
        0x9fffffff,
        0x1080,
        [true, false, true, false, false, false],
    ),
    // new data in the last object of a buffer, no new data in another, and two locked objects
    (
        0x848c0000,
        0,
        0x8080,
        [true, false, false, false, false, false],
    ),
    (
        0x848c0000,
        0,
        0x0000,
        [true, false, false, false, false, false],
    ),
    (
        0x848c0000,
        0,
        0x8000,
        [false, false, false, false, false, false],
    ),
    (
        0xa48c0000,
        0,
        0x8000,
        [false, false, false, false, false, false],
    ),
    // an object that takes no part
    (
        0x048c0000,
        0,
        0x0080,
        [false, false, false, false, false, false],
    ),
];

#[test]
fn accepts_by_width_kind_and_mask(rt: HostRuntime) {
    let frames = [
        empty_frame(0x123),
        empty_frame(0x122),
        frame(0x123, false, true, 0, [0; 8]),
        frame(0x048c0001, true, false, 0, [0; 8]),
        frame(0x048c0000, true, false, 0, [0; 8]),
        frame(0x04880001, true, false, 0, [0; 8]),
    ];
    for (arbitration, masks, control, wanted) in ACCEPTED {
        let object = record(arbitration, masks, control, [0; 8]);
        for (sent, want) in frames.iter().zip(wanted.iter()) {
            same(
                &rt,
                (object, *sent, accepts(&object, sent)),
                (object, *sent, *want),
            );
        }
    }
}

#[test]
fn stores_data_frames(rt: HostRuntime) {
    let bytes = [1, 2, 3, 4, 5, 6, 7, 8];
    let three = [1, 2, 3, 0, 0, 0, 0, 0];
    for (object, frame, after) in [
        (
            record(0x848c0000, 0, 0x8488, [0; 8]),
            frame(0x123, false, false, 3, bytes),
            (0x848c0000, 0, 0xe483, three),
        ),
        (
            record(0xdfffffff, 0, 0x0080, BYTES),
            frame(0x1fffffff, true, false, 15, bytes),
            (0xdfffffff, 0, 0x808f, bytes),
        ),
        // the bit that the mask leaves out is the frame's
        (
            record(0x848c0000, 0xdff80000, 0x1080, [0; 8]),
            empty_frame(0x122),
            (0x84880000, 0xdff80000, 0x9080, [0; 8]),
        ),
    ] {
        holds(&rt, accepts(&object, &frame));
        let left = stored(&object, &frame);
        same(&rt, shown(&left), after);
        same(&rt, frame_of(&Record { dir: true, ..left }), frame);
    }
}

#[test]
fn sends_once(rt: HostRuntime) {
    let object = record(0xa48c0000, 0, 0x8188, BYTES);
    holds(&rt, ready(&object));
    let sent = started(&object);
    same(&rt, shown(&sent), (0xa48c0000, 0, 0x0188, BYTES));
    let message = frame(0x123, false, false, 8, BYTES);
    same(&rt, frame_of(&sent), message);
    let done = finished(&sent);
    same(&rt, shown(&done), (0xa48c0000, 0, 0x0088, BYTES));
    holds(&rt, !ready(&done));
    // a host writes new data between the start and the end
    let again = record(0xa48c0000, 0, 0x8188, [0x99; 8]);
    same(
        &rt,
        shown(&finished(&again)),
        (0xa48c0000, 0, 0x8188, [0x99; 8]),
    );
    let receiving = record(0x848c0000, 0, 0x0984, BYTES);
    let request = frame(0x123, false, true, 4, BYTES);
    same(&rt, frame_of(&receiving), request);
    same(&rt, finished(&receiving).control(), 0x2884);
}

#[test]
fn tries_once_with_dar(rt: HostRuntime) {
    // "Disabled Automatic Retransmission": TxRqst is reset at the start, NewDat once the frame was sent
    let object = record(0xa48c0000, 0, 0x8988, BYTES);
    let sent = started_once(&object);
    same(&rt, shown(&sent), (0xa48c0000, 0, 0x8888, BYTES));
    holds(&rt, !ready(&sent));
    same(&rt, frame_of(&sent), frame(0x123, false, false, 8, BYTES));
    // with TxIE it asks for an interrupt
    let done = finished_once(&sent);
    same(&rt, shown(&done), (0xa48c0000, 0, 0x2888, BYTES));
    // a host sets TxRqst again in between
    let again = record(0xa48c0000, 0, 0x8188, [0x99; 8]);
    same(
        &rt,
        shown(&finished_once(&again)),
        (0xa48c0000, 0, 0x0188, [0x99; 8]),
    );
}

#[test]
fn laws_hold(_rt: HostRuntime) {
    laws::accepted_place_by_place();
    laws::unmasked_accepts_its_own();
    laws::locked_accepts_nothing();
    laws::stored_goes_out_again();
    laws::stored_reads_back();
    laws::storing_keeps_settings();
    laws::started_once_is_not_ready();
    laws::failures_leave_new_dat();
    laws::started_once_sends_its_frame();
    laws::requests_meanwhile_stand();
}

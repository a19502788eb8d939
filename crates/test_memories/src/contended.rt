//! What only a contended memory brings about, over one whose tries are lost on purpose.
use crate::expect::{MESSAGE, RECEIVER, found, frame, holds, registers, same, shown, tries};
use ccan_handler::ScanRefused;
use ccan_object::{ObjectNo, Profile, Reg};
use ccan_ram::Refused;
use test_contended::calls::{choose, receive, receive_from};
use test_contended::{Contended, Transfer};

/// A transfer of IF1 from new registers that were set to these values.
fn transfer(request: u16, some: &[(Reg, u16)], more: &[(Reg, u16)]) -> Transfer {
    let registers = registers(some, more);
    Transfer {
        object: ObjectNo::from_request(Profile::One, request),
        command: registers.command(),
        buffer: registers.buffer(),
    }
}

#[test]
fn tries_are_lost_to_the_host(rt: HostRuntime) {
    let data = [(Reg::CMask, 0x0082)];
    let theirs = [
        transfer(3, &RECEIVER, &[(Reg::Ctrl, 0x0088)]),
        transfer(3, &data, &[]),
        transfer(3, &data, &[]),
        transfer(3, &data, &[]),
        transfer(5, &MESSAGE, &[(Reg::Ctrl, 0x0188)]),
        transfer(9, &MESSAGE, &[(Reg::Ctrl, 0x0188)]),
        transfer(5, &[(Reg::CMask, 0x00a0)], &[]),
    ];
    let mut ram = Contended::new(Profile::One, 64, &theirs);
    holds(&rt, ram.go_on());
    // The scan is busy after its two tries. When it goes on, it loses one more, and none to the write of another object.
    let bytes = [1, 0, 0, 0, 0, 0, 0, 0];
    let received = frame(0x123, false, false, 1, bytes);
    let at = ObjectNo::from_request(Profile::One, 3);
    let why = Refused::Busy { tries: 2, now: 3 };
    let busy = receive(&mut ram, &received, tries(2));
    same(&rt, busy, Err(ScanRefused { at, why }));
    let stored = found(&rt, receive_from(&mut ram, &received, 3, tries(2)));
    same(&rt, shown(&stored.after), (0x848c0000, 0, 0x8081, bytes));
    same(&rt, ram.used(), 1);
    // Object 5 is made invalid between the look and the start.
    holds(&rt, ram.go_on());
    let (chosen, started) = found(&rt, choose(&mut ram, tries(2)));
    same(&rt, (chosen.get(), started.control()), (9, 0x0188));
    holds(&rt, !ram.go_on());
}

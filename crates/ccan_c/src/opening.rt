//! How a chip is opened.
ghost use Rattle.std.specs.Prelude.{◌≡◌, ◌≢◌, ◌⊎◌, IfSome, MatchOption};
ghost use Rattle.ccan_ram.specs.declared.port.PortName.TheVariants.{Bus as BusPort, If1, If2};
ghost use Rattle.ccan_c.specs.Codes.{done, no_memory};
ghost use Rattle.ccan_c.specs.Begin.{Begins};
ghost use Rattle.ccan_c.specs.Held.{IsOpenAs};
ghost use Rattle.ccan_c.specs.Chip.{AllOpen, Opens, OpensAs, ResetsAs, are_open};
ghost use Rattle.ccan_c.specs.Opening.{after_reset_of, plain};
ghost use Rattle.ccan_c.specs.Settings.{reset_fault, settings_fault};

use crate::begin::Begin;
use crate::chip::Chip;
use crate::code::{DONE, MAP_RANGE, NO_MEMORY};
use crate::handle::Handle;
use crate::held::Held;
use crate::settings::{Settings, map_numbered};
use ccan_chip::{ChipBus, ChipPort, Map, PortSettings};
use ccan_endless::{EndlessRam, MOST, Port};
use ccan_ram::SharedRam;
use ccan_registers::{InterfaceSet, reset_of};
use ccan_station::Station;
use std::alloc::Global;
use std::sync::Arc;

/// A handle of a port, as it opens.
fn hold(alloc: Global, ram: &Arc<EndlessRam, Global>, port: Port, begin: &Begin) -> Option<Handle>
    requires belongs { port.pass.memory ≡ ram.now.value.words }
    requires profile { port.pass.memory.profile ≡ begin.now.settings.profile }
    ensures { IfSome result (λ handle. IsOpenAs (Begins port begin.now) handle.seal.value) }
{
    let Ok(ram) = Arc::try_clone(ram) else {
        return None;
    };
    port.sees_one_history();
    let settings = PortSettings {
        map: begin.map,
        tries: begin.settings.tries,
    };
    let held = Held {
        chip: ChipPort::new(ram, port, settings),
        own: begin.own,
        nodes: begin.settings.nodes,
        bus: ChipBus::new(begin.settings.profile, begin.settings.nodes),
        station: Station::new(begin.settings.profile),
    };
    match Box::new(alloc, held) {
        Ok(held) => Some(Handle::open(held)),
        Err(_) => None,
    }
}

/// The chip of a memory and its three ports, each with what its handle begins with. None if memory ran out.
pub(crate) fn chip_of(
    alloc: Global,
    ram: EndlessRam,
    if1: Port,
    if2: Port,
    bus: Port,
    first: &Begin,
    second: &Begin,
    third: &Begin,
) -> Option<Chip>
    requires if1 { if1.pass.memory ≡ ram.words }
    requires if2 { if2.pass.memory ≡ ram.words }
    requires bus { bus.pass.memory ≡ ram.words }
    requires named_if1 { if1.pass.port ≡ If1 }
    requires named_if2 { if2.pass.port ≡ If2 }
    requires named_bus { bus.pass.port ≡ BusPort }
    requires profile_if1 { ram.words.profile ≡ first.now.settings.profile }
    requires profile_if2 { ram.words.profile ≡ second.now.settings.profile }
    requires profile_bus { ram.words.profile ≡ third.now.settings.profile }
    ensures { IfSome result (λ chip. AllOpen chip (λ h k l. Begins if1 first.now h
        × Begins if2 second.now k × Begins bus third.now l)) }
{
    let Ok(ram) = Arc::new(alloc, ram) else {
        return None;
    };
    let if1 = hold(alloc, &ram, if1, first)?;
    let if2 = hold(alloc, &ram, if2, second)?;
    let bus = hold(alloc, &ram, bus, third)?;
    Some(Chip::of(if1, if2, bus))
}

/// A chip of a memory and registers that are all zero. None if memory ran out.
fn opened(alloc: Global, settings: &Settings) -> Option<Chip>
    ensures { IfSome result
        (Opens settings.now.profile (plain settings.now.nodes settings.now.tries)) }
{
    let Ok((ram, if1, if2, bus)) = EndlessRam::open_ram(alloc, settings.profile, MOST) else {
        return None;
    };
    let begin = Begin {
        settings: *settings,
        map: Map::Narrow,
        own: InterfaceSet::new(),
    };
    chip_of(alloc, ram, if1, if2, bus, &begin, &begin, &begin)
}

/// A chip as after a reset, with this layout of its registers. None if memory ran out.
fn opened_after_reset(alloc: Global, settings: &Settings, map: Map) -> Option<Chip>
    ensures { IfSome result (Opens settings.now.profile (record {
      nodes = settings.now.nodes;
      tries = settings.now.tries;
      map = map;
      opening = after_reset_of map;
    })) }
{
    let reset = reset_of(map);
    let Ok((ram, if1, if2, bus)) = EndlessRam::open_after(alloc, settings.profile, MOST, &reset)
    else {
        return None;
    };
    let begin = Begin {
        settings: *settings,
        map,
        own: InterfaceSet::reset(),
    };
    chip_of(alloc, ram, if1, if2, bus, &begin, &begin, &begin)
}

/// Opens a chip. Each port of it may make as many changes as the memory numbers. Its bus chooses what it sends at one moment, as
/// the part does. What the place held is closed if it answers 0.
#[unsafe(no_mangle)]
pub extern "C" fn ccan_open(
    alloc: Global,
    chip: &mut Chip,
    profile: u32,
    nodes: u32,
    tries: u32,
) -> u32
    ensures done { result ≡ done → OpensAs profile (plain nodes tries) chip.new }
    ensures refused { result ≢ done → chip.new ≡ chip.old }
    ensures code { MatchOption (settings_fault profile nodes tries)
        ((result ≡ done) ⊎ (result ≡ no_memory)) (λ fault. result ≡ fault) }
{
    let settings = match Settings::read(profile, nodes, tries) {
        Ok(settings) => settings,
        Err(fault) => return fault,
    };
    match opened(alloc, &settings) {
        Some(new) => {
            *chip = new;
            DONE
        }
        None => NO_MEMORY,
    }
}

/// Opens a chip as a part is after its reset, for drivers that read and write its registers by their offsets: Init is 1, and the
/// registers have their reset values. `layout` is how they lie.
#[unsafe(no_mangle)]
pub extern "C" fn ccan_open_reset(
    alloc: Global,
    chip: &mut Chip,
    profile: u32,
    nodes: u32,
    tries: u32,
    layout: u32,
) -> u32
    ensures done { result ≡ done → ResetsAs profile nodes tries layout chip.new }
    ensures refused { result ≢ done → chip.new ≡ chip.old }
    ensures code { MatchOption (reset_fault profile nodes tries layout)
        ((result ≡ done) ⊎ (result ≡ no_memory)) (λ fault. result ≡ fault) }
{
    let settings = match Settings::read(profile, nodes, tries) {
        Ok(settings) => settings,
        Err(fault) => return fault,
    };
    let Some(map) = map_numbered(layout) else {
        return MAP_RANGE;
    };
    match opened_after_reset(alloc, &settings, map) {
        Some(new) => {
            *chip = new;
            DONE
        }
        None => NO_MEMORY,
    }
}

/// Whether the chip is open: all its handles are.
#[unsafe(no_mangle)]
pub extern "C" fn ccan_is_open(chip: &Chip) -> bool
    ensures { result ≡ are_open chip.now }
{
    chip.is_open()
}

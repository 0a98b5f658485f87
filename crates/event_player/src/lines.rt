//! The lines that the program prints for an event list.

use crate::lists::EventList;
use crate::shared::Usual;
use pb_cycles::{Request, Service};
use pb_timers::{BusParams, Moment};
use pb_world::{
    Audit, Entry, Event, NewFault, Reply, TapSpec, World, WorldFault, audit_shared, run_shared,
};
use std::alloc::{AllocError, Global};

/// What is printed for an event list.
#[derive(Debug, Drop)]
pub enum Played {
    /// The lines of its events and of the bus after them.
    Run(String),
    /// The fault of a bus whose parameters or taps are refused.
    Refused(String),
}

/// A bus on which nothing has happened, or why there is none.
#[derive(Drop)]
enum NewBus {
    Made(BusParams, World),
    Refused(String),
}

/// The lines for an event list: each event with its reply or its fault, the trace, each tap's phase and the moment of
/// its next turn, and what an audit of the accepted events finds. If the bus is refused, the only line is that fault.
///
/// A refused event changes nothing, and the next one follows.
pub fn play(alloc: Global, list: &EventList) -> Result<Played, AllocError> {
    let (params, mut world) = match new_bus(alloc, list)? {
        NewBus::Made(params, world) => (params, world),
        NewBus::Refused(text) => return Ok(Played::Refused(text)),
    };
    let mut text = String::new(alloc);
    let accepted = push_events(&mut text, alloc, &mut world, &list.events)?;
    push_trace(&mut text, world.trace())?;
    push_taps(&mut text, &world, list.taps.len())?;
    push_audit(&mut text, alloc, params, &list.taps, &accepted)?;
    Ok(Played::Run(text))
}

/// The lines about holders: after each accepted event the clock, the number of entries of the trace, and the taps whose
/// stations may initiate; then the trace, and what an audit finds.
pub fn holders(alloc: Global, list: &EventList) -> Result<Played, AllocError> {
    let (params, mut world) = match new_bus(alloc, list)? {
        NewBus::Made(params, world) => (params, world),
        NewBus::Refused(text) => return Ok(Played::Refused(text)),
    };
    let mut text = String::new(alloc);
    let mut accepted = Vec::new(alloc);
    for event in &list.events {
        match world.apply(alloc, event.copy()) {
            Ok(_) => accepted.push(event)?,
            Err(WorldFault::NoMemory) => return Err(AllocError),
            Err(_) => continue,
        }
        push_holders(&mut text, &world)?;
    }
    push_trace(&mut text, world.trace())?;
    push_audit(&mut text, alloc, params, &list.taps, &accepted)?;
    Ok(Played::Run(text))
}

/// The trace of an event list that is played `times` times, each time on a new bus and to its end or the first refused
/// event.
pub fn trace(alloc: Global, list: &EventList, times: u32) -> Result<Played, AllocError> {
    let mut text = String::new(alloc);
    let usual = Usual::new(alloc)?;
    let events = usual.share(alloc, &list.events)?;
    for time in 0..times {
        let mut world = match new_bus(alloc, list)? {
            NewBus::Made(_, world) => world,
            NewBus::Refused(text) => return Ok(Played::Refused(text)),
        };
        let _ = run_shared(alloc, &mut world, &events);
        if time + 1 == times {
            push_trace(&mut text, world.trace())?;
        }
    }
    Ok(Played::Run(text))
}

/// What an audit of an event list finds, done `times` times.
pub fn audits(alloc: Global, list: &EventList, times: u32) -> Result<Played, AllocError> {
    let mut text = String::new(alloc);
    let params = match new_bus(alloc, list)? {
        NewBus::Made(params, _) => params,
        NewBus::Refused(fault) => return Ok(Played::Refused(fault)),
    };
    let usual = Usual::new(alloc)?;
    let events = usual.share(alloc, &list.events)?;
    for _ in 0..times {
        text.clear();
        match audit_shared(alloc, params, &list.taps, &events) {
            Ok(found) => push_finding(&mut text, found)?,
            Err(_) => text.push_str("no audit\n")?,
        }
    }
    Ok(Played::Run(text))
}

fn new_bus(alloc: Global, list: &EventList) -> Result<NewBus, AllocError> {
    let mut text = String::new(alloc);
    let params = match list.bus.params() {
        Ok(params) => params,
        Err(fault) => {
            writeln!(text, "param fault {} {fault}", fault.number())?;
            return Ok(NewBus::Refused(text));
        }
    };
    match World::new(alloc, params, &list.taps) {
        Ok(world) => Ok(NewBus::Made(params, world)),
        Err(NewFault::NoMemory) => Err(AllocError),
        Err(fault) => {
            writeln!(text, "world fault {} {fault}", fault.number())?;
            Ok(NewBus::Refused(text))
        }
    }
}

/// Plays the events, appends a line for each, and returns those that were accepted.
fn push_events<'a>(
    text: &mut String,
    alloc: Global,
    world: &mut World,
    events: &'a [Event],
) -> Result<Vec<&'a Event>, AllocError> {
    let mut accepted = Vec::new(alloc);
    for (place, event) in events.iter().enumerate() {
        write!(text, "{place} ")?;
        push_event(text, alloc, event)?;
        text.push_str(": ")?;
        match world.apply(alloc, event.copy()) {
            Ok(reply) => {
                push_reply(text, alloc, &reply)?;
                accepted.push(event)?;
            }
            Err(WorldFault::NoMemory) => return Err(AllocError),
            Err(fault) => writeln!(text, "fault {} {fault}", fault.number())?,
        }
    }
    Ok(accepted)
}

/// Appends the clock, the number of entries of the trace, and the taps whose stations may initiate.
fn push_holders(text: &mut String, world: &World) -> Result<(), AllocError> {
    write!(text, "{} {}", world.now().get(), world.trace().len())?;
    for tap in 0..world.taps() {
        if let Some(station) = world.station(tap)
            && station.phase().may_initiate()
        {
            write!(text, " {tap}")?;
        }
    }
    text.push('\n')
}

/// Appends an event's name and numbers.
fn push_event(text: &mut String, alloc: Global, event: &Event) -> Result<(), AllocError> {
    match event {
        Event::Turn(tap) => write!(text, "Turn {tap}"),
        Event::Pass(bits) => write!(text, "Pass {bits}"),
        Event::Damage {
            tap,
            speaker,
            place: None,
        } => write!(text, "Damage tap {tap} speaker {speaker} all"),
        Event::Damage {
            tap,
            speaker,
            place: Some(place),
        } => write!(text, "Damage tap {tap} speaker {speaker} place {place}"),
        Event::Start(tap) => write!(text, "Start {tap}"),
        Event::Stop(tap) => write!(text, "Stop {tap}"),
        Event::Noise(bits) => write!(text, "Noise {bits}"),
        Event::Unheard { tap, speaker } => write!(text, "Unheard tap {tap} speaker {speaker}"),
        Event::Queue { tap, request } => {
            write!(text, "Queue tap {tap} ")?;
            push_request(text, alloc, request)
        }
    }
}

/// Appends a request: its service, address, priority and data, with `-` for no data.
fn push_request(text: &mut String, alloc: Global, request: &Request) -> Result<(), AllocError> {
    let service = service_name(request.service());
    let priority = if request.high() { "high" } else { "low" };
    write!(text, "{service} to {} {priority} ", request.da())?;
    if request.unit().is_empty() {
        return text.push('-');
    }
    text.push_str(&hex::encode(alloc, request.unit())?)
}

/// The name of a service.
fn service_name(service: Service) -> &'static str {
    match service {
        Service::Sda => "sda",
        Service::Sdn => "sdn",
        Service::Srd => "srd",
    }
}

/// Appends the clock, and the octets if the turn sent any.
fn push_reply(text: &mut String, alloc: Global, reply: &Reply) -> Result<(), AllocError> {
    write!(text, "now {}", reply.now.get())?;
    if let Some(octets) = &reply.spoke {
        write!(text, " spoke {}", hex::encode(alloc, octets.as_slice())?)?;
    }
    text.push('\n')
}

/// Appends a line for each entry of the trace.
fn push_trace(text: &mut String, trace: &[Entry]) -> Result<(), AllocError> {
    for entry in trace {
        writeln!(text, "{entry}")?;
    }
    Ok(())
}

/// Appends a line for each tap.
fn push_taps(text: &mut String, world: &World, taps: usize) -> Result<(), AllocError> {
    for tap in 0..taps {
        if let Some(station) = world.station(tap) {
            write!(text, "tap {tap}: {}, due ", station.phase().name())?;
            push_due(text, world.due(tap))?;
        }
    }
    Ok(())
}

/// Appends the moment of a tap's next turn.
fn push_due(text: &mut String, due: Option<Moment>) -> Result<(), AllocError> {
    match due {
        Some(moment) => writeln!(text, "{}", moment.get()),
        None => writeln!(text, "none"),
    }
}

/// Appends what an audit of the accepted events finds.
fn push_audit(
    text: &mut String,
    alloc: Global,
    params: BusParams,
    taps: &[TapSpec],
    accepted: &[&Event],
) -> Result<(), AllocError> {
    // These events were accepted before, so they are accepted again: the only possible fault is refused memory.
    match audit_shared(alloc, params, taps, accepted) {
        Ok(found) => push_finding(text, found),
        Err(_) => Err(AllocError),
    }
}

/// Appends what an audit found.
fn push_finding(text: &mut String, found: Audit) -> Result<(), AllocError> {
    let Audit { premise, illegal } = found;
    match premise {
        Some((number, clock)) => writeln!(text, "premise P{number} broken at {}", clock.get())?,
        None => writeln!(text, "premises kept")?,
    }
    match illegal {
        Some(position) => writeln!(text, "record {position} illegal"),
        None => writeln!(text, "trace legal"),
    }
}

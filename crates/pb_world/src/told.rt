//! The requests that stations execute, kept at the taps that are asked for.

ghost use Rattle.std.specs.Prelude.{◌≡◌, ◌≤◌, ◌<◌, ◌==◌, ℕ, Some, OnOk, OnErr, if◌then◌else◌, length, map, slice_get};
ghost use Rattle.std.specs.Vec.{vec_capacity};
ghost use Rattle.std.specs.Option.{option_map};
ghost use Rattle.pb_station.specs.Indications.{fields_of};
ghost use Rattle.pb_world.specs.Told.{emptied, requests_in, tray_in, tray_with};

use pb_station::{Indication, MARK_LIMIT};
use pb_taps::Tap;
use pb_telegram::copy_octets;
use pb_timers::Moment;
use std::alloc::{AllocError, Global};
use std::marker::Model;

/// The first requests that a station has executed since it was asked for them, or since they were forgotten.
#[derive(Drop)]
pub(crate) struct Tray {
    /// How many are kept.
    room: usize,
    requests: Vec<Indication>,
}

impl Model for Tray {
    ghost use Rattle.std.specs.Prelude.{◌≤◌, length, map};
    ghost use Rattle.std.specs.Vec.{vec_capacity};
    ghost use Rattle.pb_station.specs.Indications.{fields_of};
    ghost use Rattle.pb_world.specs.Told.{Executed};

    ghost Value = { Executed };

    ghost view = { λ t. record { room = t.room; requests = map fields_of t.requests.items } };

    ghost invariant = { λ t. (length t.requests.items ≤ t.room) × (t.room ≤ vec_capacity t.requests) };
}

impl Tray {
    ghost use Rattle.std.specs.Prelude.{◌≡◌, [], ◌∷◌, IfOk, map};
    ghost use Rattle.pb_station.specs.Indications.{fields_of};
    ghost use Rattle.pb_world.specs.Told.{with_more, with_one};

    /// An empty tray with memory for so many requests.
    ///
    /// Fault: memory was refused.
    fn new(alloc: Global, room: usize) -> Result<Tray, AllocError>
        ensures { IfOk result (λ t. t ≡ record { room = room; requests = [] }) }
    {
        let requests = Vec::with_capacity(alloc, room)?;
        Ok(Tray { room, requests })
    }

    /// Keeps one more request, if there is room.
    fn put(&mut self, request: &Indication)
        ensures { self.new ≡ with_one self.old (fields_of request.now) }
    {
        if self.requests.len() < self.room {
            self.requests.push_reserved(Indication {
                source: request.source,
                service: request.service,
                high: request.high,
                unit: copy_octets(&request.unit),
            });
        }
    }

    /// Keeps more requests, as many as there is room for.
    fn put_all(&mut self, requests: &[Indication])
        ensures { self.new ≡ with_more (map fields_of requests.now) self.old }
    {
        for request in requests {
            self.put(request);
        }
    }
}

/// What is kept of the taps that are asked for.
#[derive(Drop)]
pub(crate) struct Told {
    /// By tap; the taps behind the last one that was asked for have no place.
    trays: Vec<Option<Tray>>,
    /// The requests of the turn that is being taken.
    news: Vec<Indication>,
}

impl Model for Told {
    ghost use Rattle.std.specs.Prelude.{◌≤◌, ◌<◌, length, map};
    ghost use Rattle.std.specs.Vec.{vec_capacity};
    ghost use Rattle.pb_station.specs.Indications.{fields_of};
    ghost use Rattle.pb_world.specs.Told.{ToldView};

    ghost Value = { ToldView };

    ghost view = { λ t. record { trays = t.trays.items; news = map fields_of t.news.items } };

    ghost invariant = { λ t. 0 < length t.trays.items → 64 ≤ vec_capacity t.news };
}

impl Told {
    ghost use Rattle.std.specs.Prelude.{◌≡◌, ◌≤◌, ◌<◌, ◌==◌, ℕ, [], OnOk, OnErr, MatchOption, if◌then◌else◌, is_some, true, None, Some, map, slice_get};
    ghost use Rattle.std.specs.Option.{option_map};
    ghost use Rattle.law_model.specs.Laws.{AllInOrder};
    ghost use Rattle.law_model.specs.World.{clock_limit};
    ghost use Rattle.pb_station.specs.Indications.{fields_of, indications_of};
    ghost use Rattle.pb_world.specs.Told.{emptied, executed_by_tap, requests_at, tray_at, tray_with};
    ghost use Rattle.pb_taps.specs.Taps.{tap_of};

    /// Nothing is asked for.
    pub(crate) fn nothing(alloc: Global) -> Told
        ensures { result ≡ record { trays = []; news = [] } }
    {
        Told {
            trays: Vec::new(alloc),
            news: Vec::new(alloc),
        }
    }

    /// Whether the requests of a tap are kept.
    #[inline(always)]
    pub(crate) fn keeps(&self, tap: usize) -> bool
        ensures { result ≡ is_some (tray_at self.now tap) }
    {
        tap < self.trays.len() && self.trays[tap].is_some()
    }

    /// Keeps the first requests of a tap from now on, as many as there is room for; what was kept of it is forgotten. The
    /// caller ensures that the tap is one of so many.
    ///
    /// Fault: memory was refused; then what is kept stays.
    pub(crate) fn keep(
        &mut self,
        alloc: Global,
        tap: usize,
        taps: usize,
        room: usize,
    ) -> Result<(), AllocError>
        requires { tap < taps }
        ensures kept { OnOk result ((k : ℕ) → tray_at self.new k
            ≡ (if k == tap then Some (record { room = room; requests = [] }) else tray_at self.old k)) }
        ensures same { OnErr result ((k : ℕ) → tray_at self.new k ≡ tray_at self.old k) }
    {
        let tray = Tray::new(alloc, room)?;
        make_ready(alloc, &mut self.news)?;
        add_places(&mut self.trays, taps)?;
        put_tray(&mut self.trays, tap, tray);
        Ok(())
    }

    /// Reads what the station at a tap executes in a turn now. The tap is asked for.
    pub(crate) fn read(&mut self, taps: &[Tap], tap: usize, now: Moment)
        requires clock { now ≤ clock_limit }
        requires order { AllInOrder now (map tap_of taps.now) }
        requires kept { is_some (tray_at self.old tap) ≡ true }
        ensures trays { self.new.trays ≡ self.old.trays }
        ensures news { self.new.news ≡ executed_by_tap (slice_get taps.now tap) }
    {
        match taps.get(tap) {
            Some(tap) => tap.would_execute(now, &mut self.news),
            None => self.news.clear(),
        }
    }

    /// Keeps what was read, as the requests of a tap.
    pub(crate) fn note(&mut self, tap: usize)
        ensures { (k : ℕ) → tray_at self.new k
            ≡ (if k == tap then tray_with self.old.news (tray_at self.old k) else tray_at self.old k) }
    {
        if tap < self.trays.len() {
            put_into(&mut self.trays[tap], &self.news);
        }
    }

    /// The requests that are kept of a tap.
    pub(crate) fn requests(&self, tap: usize) -> Option<&[Indication]>
        ensures { option_map (λ rs. map fields_of rs.now) result ≡ requests_at self.now tap }
    {
        if tap < self.trays.len() {
            return tray_requests(&self.trays[tap]);
        }
        None
    }

    /// Forgets the requests that are kept of a tap; later ones are kept.
    pub(crate) fn forget(&mut self, tap: usize)
        ensures { (k : ℕ) → tray_at self.new k
            ≡ (if k == tap then option_map emptied (tray_at self.old k) else tray_at self.old k) }
    {
        if tap < self.trays.len() {
            empty(&mut self.trays[tap]);
        }
    }
}

/// Makes room for the requests of a turn, if there is none.
///
/// Fault: memory was refused.
fn make_ready(alloc: Global, news: &mut Vec<Indication>) -> Result<(), AllocError>
    ensures ready { OnOk result (64 ≤ vec_capacity news.new) }
    ensures same { OnErr result (news.new ≡ news.old) }
{
    if news.capacity() < MARK_LIMIT {
        *news = Vec::with_capacity(alloc, MARK_LIMIT)?;
    }
    Ok(())
}

/// Puts a tray at the place of a tap.
fn put_tray(trays: &mut Vec<Option<Tray>>, tap: usize, tray: Tray)
    requires { tap < length trays.old.items }
    ensures same { (k : ℕ) → tray_in (slice_get trays.new.items k)
        ≡ (if k == tap then Some tray else tray_in (slice_get trays.old.items k)) }
    ensures size { length trays.new.items ≡ length trays.old.items }
{
    trays[tap] = Some(tray);
}

/// Adds places that keep nothing, so that there is one for each of so many taps.
///
/// Fault: memory was refused.
fn add_places(trays: &mut Vec<Option<Tray>>, taps: usize) -> Result<(), AllocError>
    ensures same { (k : ℕ) → tray_in (slice_get trays.new.items k) ≡ tray_in (slice_get trays.old.items k) }
    ensures places { OnOk result (taps ≤ length trays.new.items) }
{
    for _ in trays.len()..taps {
        trays.push(None)?;
    }
    Ok(())
}

/// Keeps requests, where they are asked for.
fn put_into(tray: &mut Option<Tray>, requests: &[Indication])
    ensures { tray.new ≡ tray_with (map fields_of requests.now) tray.old }
{
    if let Some(tray) = tray {
        tray.put_all(requests);
    }
}

/// Forgets requests.
fn empty(tray: &mut Option<Tray>)
    ensures { tray.new ≡ option_map emptied tray.old }
{
    if let Some(tray) = tray {
        tray.requests.clear();
    }
}

/// The requests in a tray.
fn tray_requests(tray: &Option<Tray>) -> Option<&[Indication]>
    ensures { option_map (λ rs. map fields_of rs.now) result ≡ requests_in tray.now }
{
    match tray {
        Some(tray) => Some(&tray.requests),
        None => None,
    }
}

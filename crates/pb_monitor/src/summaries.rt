//! The text of a summary: lines, one JSON object, or a table.

ghost use Rattle.std.specs.Prelude.{◌≡◌, ◌++◌, OnOk};
ghost use Rattle.pb_monitor.specs.SummaryTexts.{alarms_json, alarms_text};

use crate::formats::{SummaryForm, Unjudged};
use crate::spreads::Spread;
use crate::stations::Station;
use crate::statistics::Statistics;
use crate::texts::{push_counted, push_number};
use crate::traffic::Traffic;
use std::alloc::AllocError;

/// Appends a summary of a form. It says why no telegram was judged, if none was.
pub(crate) fn push_summary(
    text: &mut Vec<u8>,
    statistics: &Statistics,
    unjudged: Option<Unjudged>,
    form: Option<SummaryForm>,
) -> Result<(), AllocError> {
    match form {
        Some(SummaryForm::Json) => push_json(text, statistics, unjudged),
        Some(SummaryForm::Csv) => push_table(text, statistics),
        Some(SummaryForm::Text) | None => push_text(text, statistics, unjudged),
    }
}

// ---- lines

/// Appends a summary as lines: one for the bus, one for its active stations, one for each station.
fn push_text(
    text: &mut Vec<u8>,
    statistics: &Statistics,
    unjudged: Option<Unjudged>,
) -> Result<(), AllocError> {
    push_traffic(text, statistics.traffic(), unjudged)?;
    push_active(text, statistics)?;
    for address in 0..127u8 {
        if let Some(station) = statistics.station(address) {
            push_station(text, address, station)?;
        }
    }
    Ok(())
}

/// Appends the line of the bus.
fn push_traffic(
    text: &mut Vec<u8>,
    traffic: &Traffic,
    unjudged: Option<Unjudged>,
) -> Result<(), AllocError> {
    push_counted(text, b"bus: bursts ", traffic.bursts)?;
    if let Some(first) = traffic.first {
        push_counted(text, b", from ", first)?;
        push_counted(text, b" to ", traffic.last.unwrap_or(first))?;
        push_counted(text, b", load ", traffic.load() / 10)?;
        push_counted(text, b".", traffic.load() % 10)?;
        push_counted(text, b" %, longest silence ", traffic.longest_silence)?;
    }
    let damaged = &traffic.damaged;
    push_counted(text, b", damaged ", damaged.total())?;
    push_counted(text, b" (after a loss ", damaged.after_loss)?;
    push_counted(text, b", in place of a reply ", damaged.replying)?;
    push_counted(text, b", in the slot of a token ", damaged.taking)?;
    push_counted(text, b", other ", damaged.other)?;
    text.extend_from_slice(b"), ")?;
    push_alarms(text, unjudged, traffic.alarms)?;
    push_counted(text, b", refused ", traffic.refused)?;
    text.extend_from_slice(b"\n")
}

/// Appends how many alarms there were, or why none could be.
fn push_alarms(text: &mut Vec<u8>, unjudged: Option<Unjudged>, count: u64) -> Result<(), AllocError>
    ensures { OnOk result (text.new.items ≡ text.old.items ++ alarms_text unjudged count) }
{
    match unjudged {
        Some(why) => text.extend_from_slice(why.words().as_bytes()),
        None => push_counted(text, b"alarms ", count),
    }
}

/// Appends the line of the active stations, if they are known.
fn push_active(text: &mut Vec<u8>, statistics: &Statistics) -> Result<(), AllocError> {
    if !statistics.is_ring_known() {
        return text.extend_from_slice(b"active stations: not known\n");
    }
    text.extend_from_slice(b"active stations:")?;
    for address in 0..127u8 {
        if statistics.is_active(address) {
            push_counted(text, b" ", u64::from(address))?;
        }
    }
    text.extend_from_slice(b"\n")
}

/// Appends the line of a station, if it was heard or asked.
fn push_station(text: &mut Vec<u8>, address: u8, station: &Station) -> Result<(), AllocError> {
    if !is_known(station) {
        return Ok(());
    }
    push_counted(text, b"station ", u64::from(address))?;
    if station.telegrams == 0 {
        push_counted(text, b": never heard, polled ", station.polled)?;
        push_counted(text, b", tokens not taken ", station.tokens_not_taken)?;
        return text.extend_from_slice(b"\n");
    }
    text.extend_from_slice(b": ")?;
    text.extend_from_slice(station.role.name().as_bytes())?;
    if let Some(moment) = station.last_heard {
        push_counted(text, b", last heard ", moment)?;
    }
    push_counts(text, station)?;
    push_spread(text, b", rotation ", &station.rotation)?;
    push_spread(text, b", takes after ", &station.taking)?;
    push_spread(text, b", replies after ", &station.replying)?;
    text.extend_from_slice(b"\n")
}

/// Appends the counts of a station.
fn push_counts(text: &mut Vec<u8>, station: &Station) -> Result<(), AllocError> {
    push_counted(text, b", telegrams ", station.telegrams)?;
    push_counted(text, b", claims ", station.claims)?;
    push_counted(text, b", tokens ", station.tokens)?;
    push_counted(text, b", requests ", station.requests)?;
    push_counted(text, b" (polls ", station.polls)?;
    push_counted(text, b", unanswered ", station.unanswered)?;
    push_counted(text, b", damaged answers ", station.damaged_answers)?;
    push_counted(text, b"), repeats ", station.repeats)?;
    push_counted(text, b", polled ", station.polled)?;
    push_counted(text, b", tokens not taken ", station.tokens_not_taken)
}

/// Whether a station was heard or asked.
fn is_known(station: &Station) -> bool {
    station.telegrams > 0 || station.polled > 0 || station.tokens_not_taken > 0
}

/// Appends the least, the mean and the greatest of some durations, and how many there are, if there is any.
fn push_spread(text: &mut Vec<u8>, words: &[u8], spread: &Spread) -> Result<(), AllocError> {
    if spread.count == 0 {
        return Ok(());
    }
    push_counted(text, words, spread.least)?;
    push_counted(text, b"/", spread.mean())?;
    push_counted(text, b"/", spread.greatest)?;
    push_counted(text, b" (", spread.count)?;
    text.extend_from_slice(b")")
}

// ---- one JSON object

/// Appends a summary as one JSON object on a line.
fn push_json(
    text: &mut Vec<u8>,
    statistics: &Statistics,
    unjudged: Option<Unjudged>,
) -> Result<(), AllocError> {
    push_json_traffic(text, statistics.traffic(), unjudged)?;
    text.extend_from_slice(b",\"active\":")?;
    push_json_active(text, statistics)?;
    text.extend_from_slice(b",\"stations\":[")?;
    let mut is_behind = false;
    for address in 0..127u8 {
        if let Some(station) = statistics.station(address)
            && is_known(station)
        {
            if is_behind {
                text.extend_from_slice(b",")?;
            }
            push_json_station(text, address, station)?;
            is_behind = true;
        }
    }
    text.extend_from_slice(b"]}\n")
}

/// Appends the members of the bus.
fn push_json_traffic(
    text: &mut Vec<u8>,
    traffic: &Traffic,
    unjudged: Option<Unjudged>,
) -> Result<(), AllocError> {
    push_counted(text, b"{\"bursts\":", traffic.bursts)?;
    push_moment(text, b",\"first\":", traffic.first)?;
    push_moment(text, b",\"last\":", traffic.last)?;
    push_counted(text, b",\"load_per_mille\":", traffic.load())?;
    push_counted(text, b",\"longest_silence\":", traffic.longest_silence)?;
    push_counted(
        text,
        b",\"damaged\":{\"after_loss\":",
        traffic.damaged.after_loss,
    )?;
    push_counted(text, b",\"reply\":", traffic.damaged.replying)?;
    push_counted(text, b",\"token\":", traffic.damaged.taking)?;
    push_counted(text, b",\"other\":", traffic.damaged.other)?;
    text.extend_from_slice(b"},\"alarms\":")?;
    push_json_alarms(text, unjudged, traffic.alarms)?;
    push_counted(text, b",\"refused\":", traffic.refused)
}

/// Appends how many alarms there were, or `null` if none could be.
fn push_json_alarms(
    text: &mut Vec<u8>,
    unjudged: Option<Unjudged>,
    count: u64,
) -> Result<(), AllocError>
    ensures { OnOk result (text.new.items ≡ text.old.items ++ alarms_json unjudged count) }
{
    match unjudged {
        Some(_) => text.extend_from_slice(b"null"),
        None => push_number(text, count),
    }
}

/// Appends the addresses of the active stations, or `null` if they are not known.
fn push_json_active(text: &mut Vec<u8>, statistics: &Statistics) -> Result<(), AllocError> {
    if !statistics.is_ring_known() {
        return text.extend_from_slice(b"null");
    }
    text.extend_from_slice(b"[")?;
    let mut is_behind = false;
    for address in 0..127u8 {
        if statistics.is_active(address) {
            if is_behind {
                text.extend_from_slice(b",")?;
            }
            push_number(text, address)?;
            is_behind = true;
        }
    }
    text.extend_from_slice(b"]")
}

/// Appends the object of a station.
fn push_json_station(text: &mut Vec<u8>, address: u8, station: &Station) -> Result<(), AllocError> {
    push_counted(text, b"{\"address\":", u64::from(address))?;
    text.extend_from_slice(b",\"role\":\"")?;
    text.extend_from_slice(station.role.name().as_bytes())?;
    push_moment(text, b"\",\"last_heard\":", station.last_heard)?;
    push_counted(text, b",\"telegrams\":", station.telegrams)?;
    push_counted(text, b",\"claims\":", station.claims)?;
    push_counted(text, b",\"tokens\":", station.tokens)?;
    push_counted(text, b",\"requests\":", station.requests)?;
    push_counted(text, b",\"polls\":", station.polls)?;
    push_counted(text, b",\"unanswered\":", station.unanswered)?;
    push_counted(text, b",\"damaged_answers\":", station.damaged_answers)?;
    push_counted(text, b",\"repeats\":", station.repeats)?;
    push_counted(text, b",\"polled\":", station.polled)?;
    push_counted(text, b",\"tokens_not_taken\":", station.tokens_not_taken)?;
    push_json_spread(text, b",\"rotation\":", &station.rotation)?;
    push_json_spread(text, b",\"taking\":", &station.taking)?;
    push_json_spread(text, b",\"replying\":", &station.replying)?;
    text.extend_from_slice(b"}")
}

/// Appends a member with a moment, or `null` if there is none.
fn push_moment(text: &mut Vec<u8>, name: &[u8], moment: Option<u64>) -> Result<(), AllocError> {
    text.extend_from_slice(name)?;
    match moment {
        Some(moment) => push_number(text, moment),
        None => text.extend_from_slice(b"null"),
    }
}

/// Appends a member with the least, the mean and the greatest of some durations, or `null` if there is none.
fn push_json_spread(text: &mut Vec<u8>, name: &[u8], spread: &Spread) -> Result<(), AllocError> {
    text.extend_from_slice(name)?;
    if spread.count == 0 {
        return text.extend_from_slice(b"null");
    }
    push_counted(text, b"{\"count\":", spread.count)?;
    push_counted(text, b",\"least\":", spread.least)?;
    push_counted(text, b",\"mean\":", spread.mean())?;
    push_counted(text, b",\"greatest\":", spread.greatest)?;
    text.extend_from_slice(b"}")
}

// ---- a table

/// Appends a table of the stations: a line with the names of the columns, and a line for each station.
fn push_table(text: &mut Vec<u8>, statistics: &Statistics) -> Result<(), AllocError> {
    text.extend_from_slice(
        b"address,role,last_heard,telegrams,claims,tokens,requests,polls,unanswered,damaged_answers,repeats,polled,tokens_not_taken,",
    )?;
    text.extend_from_slice(
        b"rotation_count,rotation_least,rotation_mean,rotation_greatest,taking_count,taking_least,taking_mean,taking_greatest,",
    )?;
    text.extend_from_slice(b"replying_count,replying_least,replying_mean,replying_greatest\n")?;
    for address in 0..127u8 {
        if let Some(station) = statistics.station(address)
            && is_known(station)
        {
            push_row(text, address, station)?;
        }
    }
    Ok(())
}

/// Appends the row of a station. A value that there is not is empty.
fn push_row(text: &mut Vec<u8>, address: u8, station: &Station) -> Result<(), AllocError> {
    push_number(text, address)?;
    text.extend_from_slice(b",")?;
    text.extend_from_slice(station.role.name().as_bytes())?;
    text.extend_from_slice(b",")?;
    if let Some(moment) = station.last_heard {
        push_number(text, moment)?;
    }
    push_counted(text, b",", station.telegrams)?;
    push_counted(text, b",", station.claims)?;
    push_counted(text, b",", station.tokens)?;
    push_counted(text, b",", station.requests)?;
    push_counted(text, b",", station.polls)?;
    push_counted(text, b",", station.unanswered)?;
    push_counted(text, b",", station.damaged_answers)?;
    push_counted(text, b",", station.repeats)?;
    push_counted(text, b",", station.polled)?;
    push_counted(text, b",", station.tokens_not_taken)?;
    push_cells(text, &station.rotation)?;
    push_cells(text, &station.taking)?;
    push_cells(text, &station.replying)?;
    text.extend_from_slice(b"\n")
}

/// Appends four cells for some durations.
fn push_cells(text: &mut Vec<u8>, spread: &Spread) -> Result<(), AllocError> {
    push_counted(text, b",", spread.count)?;
    if spread.count == 0 {
        return text.extend_from_slice(b",,,");
    }
    push_counted(text, b",", spread.least)?;
    push_counted(text, b",", spread.mean())?;
    push_counted(text, b",", spread.greatest)
}

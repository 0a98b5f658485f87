//! Why nothing is damaged or lost: what the speaker has on the bus then.

ghost use Rattle.pb_stream.specs.Streams.{IsStreaming};

use crate::documents::Document;
use crate::run_hints::{name_of, tap_of};
use crate::stream_hints::MOST_INSTANTS;
use pb_scenario::{Deed, Entry, Event, Key, Scenario, Section, read_stream};
use pb_stream::{Progress, Stream};
use std::alloc::AllocError;

/// A telegram on the bus.
#[derive(Clone, Copy)]
struct OnBus {
    /// When it began, in bit times.
    begin: u64,
    /// How many octets were to be sent.
    octets: usize,
}

/// The hint for damage or a loss of which there is nothing in the air.
pub(crate) fn nothing_in_air(
    document: &Document<'_>,
    scenario: &Scenario,
    place: usize,
    at: u64,
    deed: &Deed,
) -> Result<String, AllocError> {
    let speaker = speaker_of(deed);
    let (one, two) = (name_of(scenario, speaker), name_of(scenario, tap_of(deed)));
    let spot = document.key(Section::Step(place), Key::At);
    match (deed, on_bus(document, speaker)?) {
        (
            Deed::Happens(
                Event::Damage {
                    place: Some(character),
                    ..
                },
            ),
            Some(OnBus { octets, .. }),
        ) if usize::from(*character) >= octets => beyond(document, place, at, one, octets),
        (Deed::Happens(Event::Unheard { .. }), Some(OnBus { begin, .. })) if begin < at =>
            document.at(
                spot,
                format_args!(
                    "at {at}, '{one}' is amid a telegram; 'unheard' goes only at the moment at which a telegram begins ({begin})"
                ),
            ),
        _ => document.at(
            spot,
            format_args!("at {at}, '{one}' sends nothing that could be damaged or lost at '{two}'"),
        ),
    }
}

/// The hint for damage of a character that what a speaker sends doesn't have.
fn beyond(
    document: &Document<'_>,
    place: usize,
    at: u64,
    speaker: &str,
    octets: usize,
) -> Result<String, AllocError> {
    let (last, plural) = (octets.saturating_sub(1), if octets == 1 { "" } else { "s" });
    document.at(
        document.value(Section::Step(place), Key::Place).spot,
        format_args!(
            "at {at}, what '{speaker}' sends has {octets} character{plural}; wanted: place 0 to {last}"
        ),
    )
}

/// The speaker that a step names, or else its tap.
fn speaker_of(deed: &Deed) -> usize {
    match deed {
        Deed::Happens(Event::Damage { speaker, .. } | Event::Unheard { speaker, .. }) => *speaker,
        _ => tap_of(deed),
    }
}

/// The telegram that a speaker has on the bus where the run is refused, if that is in its first instants.
fn on_bus(document: &Document<'_>, speaker: usize) -> Result<Option<OnBus>, AllocError> {
    let Ok(scenario) = read_stream(document.alloc, document.file) else {
        return Ok(None);
    };
    let delay = scenario.once().params().ttd();
    let Ok(mut stream) = Stream::new(document.alloc, &scenario, scenario.until()) else {
        return Ok(None);
    };
    for _ in 0..MOST_INSTANTS {
        match stream.play(document.alloc)? {
            Progress::Goes => stream.let_go(),
            Progress::Ended => break,
            Progress::Refused { clock, .. } => {
                let now = clock.saturating_sub(u64::from(delay));
                return Ok(first_of(stream.entries(), speaker, now));
            }
        }
    }
    Ok(None)
}

/// The first telegram of a speaker that has not ended at a moment.
fn first_of(entries: &[Entry], speaker: usize, moment: u64) -> Option<OnBus> {
    entries.iter().find_map(|entry| match entry {
        Entry::Sent(telegram) if telegram.tap == speaker && telegram.end > moment => Some(OnBus {
            begin: telegram.begin,
            octets: telegram.octets.len(),
        }),
        _ => None,
    })
}

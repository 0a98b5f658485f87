//! The words of a scenario file.

ghost use Rattle.std.specs.Prelude.{◌≡◌};
ghost use Rattle.std.specs.List.{list_all};
ghost use Rattle.std.specs.Char.{is_ascii_alphanumeric};
ghost use Rattle.pb_scenario.specs.Words.{word_of, kind_of, service_of, is_name, is_long_name, is_of_long_names};

use pb_cycles::Service;
use pb_taps::Kind;

/// What a step does, by its word.
#[derive(Clone, Copy, Debug, PartialEq, Eq)]
pub(crate) enum Word {
    Start,
    Stop,
    Queue,
    Damage,
    Noise,
    Unheard,
    Withhold,
}

/// The step that a word names.
#[tactic(auto, unfolding(crate::specs::Words::word_of))]
pub(crate) fn word_of(text: &str) -> Option<Word>
    ensures { result ≡ word_of text.now }
{
    if text == "start" {
        Some(Word::Start)
    } else if text == "stop" {
        Some(Word::Stop)
    } else if text == "queue" {
        Some(Word::Queue)
    } else if text == "damage" {
        Some(Word::Damage)
    } else if text == "noise" {
        Some(Word::Noise)
    } else if text == "unheard" {
        Some(Word::Unheard)
    } else if text == "withhold" {
        Some(Word::Withhold)
    } else {
        None
    }
}

/// The kind of tap that a word names.
#[tactic(auto, unfolding(crate::specs::Words::kind_of))]
pub(crate) fn kind_of(text: &str) -> Option<Kind>
    ensures { result ≡ kind_of text.now }
{
    if text == "master" {
        Some(Kind::Master)
    } else if text == "passive" {
        Some(Kind::Passive)
    } else {
        None
    }
}

/// The service that a word names.
#[tactic(auto, unfolding(crate::specs::Words::service_of))]
pub(crate) fn service_of(text: &str) -> Option<Service>
    ensures { result ≡ service_of text.now }
{
    if text == "sda" {
        Some(Service::Sda)
    } else if text == "sdn" {
        Some(Service::Sdn)
    } else if text == "srd" {
        Some(Service::Srd)
    } else {
        None
    }
}

/// Whether a text may be the name of a tap: 1 to 16 ASCII letters or digits.
#[tactic(auto, unfolding(crate::specs::Words::is_name))]
pub(crate) fn is_name(text: &str) -> bool
    ensures { result ≡ is_name text.now }
{
    let octets = text.as_bytes();
    1 <= octets.len() && octets.len() <= 16 && are_letters_or_digits(octets)
}

/// Whether a text may be the name of a tap in version 3: 1 to 32 ASCII letters, digits, `-` or `_`.
#[tactic(auto, unfolding(crate::specs::Words::is_long_name))]
pub(crate) fn is_long_name(text: &str) -> bool
    ensures { result ≡ is_long_name text.now }
{
    let octets = text.as_bytes();
    1 <= octets.len() && octets.len() <= 32 && are_of_long_names(octets)
}

fn are_of_long_names(octets: &[u8]) -> bool
    ensures { result ≡ list_all is_of_long_names octets.now }
{
    octets.iter().all(|octet| is_of_long_names(*octet))
}

fn is_of_long_names(octet: u8) -> bool
    ensures { result ≡ is_of_long_names octet }
{
    octet.is_ascii_alphanumeric() || octet == b'-' || octet == b'_'
}

fn are_letters_or_digits(octets: &[u8]) -> bool
    ensures { result ≡ list_all is_ascii_alphanumeric octets.now }
{
    octets.iter().all(|octet| octet.is_ascii_alphanumeric())
}

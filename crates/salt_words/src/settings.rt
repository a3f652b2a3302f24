//! The settings of a run.

ghost use Rattle.salt_place.specs.declared.placement.PlaceKind.TheVariants.{Remainder};
ghost use Rattle.salt_promise.specs.Words.{all_given, begins_with_dash, count_said, given_by, given_in, given_to, kind_called, once, setting_named, settings_said, value_in};
ghost use Rattle.salt_promise.specs.Words as words;
ghost use Rattle.salt_values.specs.declared.limits.TheConstants.{PARTITIONS_MOST};
ghost use Rattle.salt_words.specs.Meanings.{first_meant, given_meant, settings_behind, settings_meant};
ghost use Rattle.std.specs.Option.{option_copied};
ghost use Rattle.std.specs.Prelude.{◌<◌, ◌≡◌, ◌∷◌, IfSome, List, MatchOption, None, Some, [], length, map, option_map, option_to_list, string_bytes};

use crate::counts::count_in;
use salt_place::PlaceKind;
use salt_promise::Setting;
use salt_values::limits::PARTITIONS_MOST;

fn setting_named(name: &str) -> Option<Setting>
    ensures { result ≡ setting_named name.now }
{
    if name.as_bytes() == b"--parts".as_slice() {
        Some(Setting::Parts)
    } else if name.as_bytes() == b"--dir".as_slice() {
        Some(Setting::Folder)
    } else if name.as_bytes() == b"--place".as_slice() {
        Some(Setting::Place)
    } else {
        None
    }
}

/// What words give to a run.
#[derive(Clone, Copy)]
pub enum Given<'a> {
    /// A value to a setting.
    Value { setting: Setting, value: &'a str },
    /// Leave for its openings to end early.
    Early,
    /// Its commits over to messages.
    OverNet,
}

/// A value that is given to a setting of this name.
fn given_to<'a>(name: &str, value: &'a str) -> Option<Given<'a>>
    ensures { option_map given_meant result ≡ given_to name.now value.now }
{
    match setting_named(name) {
        Some(setting) => Some(Given::Value { setting, value }),
        None => None,
    }
}

/// A value that one word gives.
fn value_in(word: &str) -> Option<Given<'_>>
    ensures { option_map given_meant result ≡ value_in word.now }
{
    match word.split_once('=') {
        Some((name, value)) => given_to(name, value),
        None => None,
    }
}

/// What one word gives.
fn given_in(word: &str) -> Option<Given<'_>>
    ensures { option_map given_meant result ≡ given_in word.now }
{
    if word.as_bytes() == b"--early".as_slice() {
        Some(Given::Early)
    } else if word.as_bytes() == b"--net".as_slice() {
        Some(Given::OverNet)
    } else {
        value_in(word)
    }
}

fn begins_with_dash(word: &str) -> bool
    ensures { result ≡ begins_with_dash word.now }
{
    matches!(word.as_bytes(), [b'-', ..])
}

/// What two words give.
fn given_by<'a>(name: &str, value: &'a str) -> Option<Given<'a>>
    ensures { option_map given_meant result ≡ given_by name.now value.now }
{
    if begins_with_dash(value) {
        None
    } else {
        given_to(name, value)
    }
}

/// What words give first, and the words behind it.
#[derive(Clone, Copy)]
struct First<'a> {
    given: Given<'a>,
    behind: &'a [String],
}

/// What a word and the first of those behind it give.
fn first_by_two<'a>(name: &str, words: &'a [String]) -> Option<First<'a>>
    requires { given_in name.now ≡ None }
    ensures all { MatchOption result (all_given (name.now ∷ map string_bytes words.now) ≡ None)
        (λ first. all_given (name.now ∷ map string_bytes words.now)
        ≡ option_map (λ gs. first_meant first ∷ gs) (all_given (map string_bytes first.behind.now))) }
    ensures shorter { IfSome result (λ first. length first.behind.now < length words.now) }
{
    match words {
        [next, behind @ ..] => match given_by(name, next) {
            Some(given) => Some(First { given, behind }),
            None => None,
        },
        [] => None,
    }
}

/// What words give first, in one word or in two.
fn first_given<'a>(words: &'a [String]) -> Option<First<'a>>
    requires { 0 < length words.now }
    ensures all { MatchOption result (all_given (map string_bytes words.now) ≡ None)
        (λ first. all_given (map string_bytes words.now)
        ≡ option_map (λ gs. first_meant first ∷ gs) (all_given (map string_bytes first.behind.now))) }
    ensures shorter { IfSome result (λ first. length first.behind.now < length words.now) }
{
    match words {
        [word, behind @ ..] => match given_in(word) {
            Some(given) => Some(First { given, behind }),
            None => first_by_two(word, behind),
        },
        [] => None,
    }
}

/// The value that each setting was given, where it was given one, whether openings may end early, and whether commits go over
/// messages.
#[derive(Clone, Copy)]
struct Said<'a> {
    parts: Option<&'a str>,
    folder: Option<&'a str>,
    place: Option<&'a str>,
    early: bool,
    over_net: bool,
}

/// With a value for a setting that had none.
fn said_of<'a>(said: Said<'a>, setting: Setting, value: &'a str) -> Option<Said<'a>>
    ensures { MatchOption result ((gs : List words.Given) → settings_behind said.entry (words.given setting value.now ∷ gs) ≡ None)
        (λ after. (gs : List words.Given) → settings_behind after gs ≡ settings_behind said.entry (words.given setting value.now ∷ gs)) }
{
    match (setting, said.parts, said.folder, said.place) {
        (Setting::Parts, None, folder, place) => Some(Said {
            parts: Some(value),
            folder,
            place,
            early: said.early,
            over_net: said.over_net,
        }),
        (Setting::Folder, parts, None, place) => Some(Said {
            parts,
            folder: Some(value),
            place,
            early: said.early,
            over_net: said.over_net,
        }),
        (Setting::Place, parts, folder, None) => Some(Said {
            parts,
            folder,
            place: Some(value),
            early: said.early,
            over_net: said.over_net,
        }),
        _ => None,
    }
}

/// With what was not given before.
fn said_with<'a>(said: Said<'a>, given: Given<'a>) -> Option<Said<'a>>
    ensures { MatchOption result ((gs : List words.Given) → settings_behind said.entry (given_meant given.entry ∷ gs) ≡ None)
        (λ after. (gs : List words.Given) → settings_behind after gs ≡ settings_behind said.entry (given_meant given.entry ∷ gs)) }
{
    match given {
        Given::Value { setting, value } => said_of(said, setting, value),
        Given::Early if said.early => None,
        Given::Early => Some(Said {
            early: true,
            ..said
        }),
        Given::OverNet if said.over_net => None,
        Given::OverNet => Some(Said {
            over_net: true,
            ..said
        }),
    }
}

/// What the words say, where they give no setting twice and say nothing else.
fn said_in<'a>(words: &'a [String]) -> Option<Said<'a>>
    ensures { MatchOption result (settings_said (map string_bytes words.now) ≡ None)
        (λ said. settings_said (map string_bytes words.now) ≡ settings_behind said []) }
{
    let mut said = Said {
        parts: None,
        folder: None,
        place: None,
        early: false,
        over_net: false,
    };
    let mut rest = words;
    while !rest.is_empty() {
        let first = first_given(rest)?;
        said = said_with(said, first.given)?;
        rest = first.behind;
    }
    Some(said)
}

/// How many partitions a run has.
fn parts_in(count: Option<&str>) -> Option<u8>
    ensures { result ≡ once 2 (count_said PARTITIONS_MOST) (option_to_list (option_copied count.entry)) }
{
    match count {
        Some(word) => match count_in(u64::from(PARTITIONS_MOST), word) {
            Some(parts) => Some(parts as u8),
            None => None,
        },
        None => Some(2),
    }
}

fn kind_called(word: &str) -> Option<PlaceKind>
    ensures { result ≡ kind_called word.now }
{
    if word.as_bytes() == b"remainder".as_slice() {
        Some(PlaceKind::Remainder)
    } else if word.as_bytes() == b"bands".as_slice() {
        Some(PlaceKind::Bands)
    } else {
        None
    }
}

/// How a run's rows are spread.
fn kind_in(place: Option<&str>) -> Option<PlaceKind>
    ensures { result ≡ once Remainder kind_called (option_to_list (option_copied place.entry)) }
{
    match place {
        Some(word) => kind_called(word),
        None => Some(PlaceKind::Remainder),
    }
}

/// The settings of a run.
#[derive(Clone, Copy)]
pub struct Settings<'a> {
    /// How many partitions there are.
    pub parts: u8,
    /// The folder of their files, where one is named.
    pub folder: Option<&'a str>,
    /// How rows are spread.
    pub kind: PlaceKind,
    /// Whether openings end before accepted programs are finished.
    pub early: bool,
    /// Whether commits go over messages.
    pub over_net: bool,
}

/// The settings that words say.
pub fn settings_in<'a>(words: &'a [String]) -> Option<Settings<'a>>
    ensures { option_map settings_meant result ≡ settings_said (map string_bytes words.now) }
{
    let said = said_in(words)?;
    let parts = parts_in(said.parts)?;
    let kind = kind_in(said.place)?;
    match said.folder {
        Some(path) if path.is_empty() => None,
        folder => Some(Settings {
            parts,
            folder,
            kind,
            early: said.early,
            over_net: said.over_net,
        }),
    }
}

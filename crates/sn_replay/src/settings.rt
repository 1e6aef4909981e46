//! The settings of a script from line to line, and the words that a line draws.

ghost use Rattle.std.specs.Prelude.{◌≡◌};
ghost use Rattle.sn_course.specs.Settings.{AreFirst, line_seed, settings_after, words_of};
ghost use Rattle.sn_replay.specs.Lines.{reports};

use sn_course::Settings;
use sn_items::Words;
use sn_script::Line;

/// A line's number, and the settings that it finds.
#[derive(Clone, Copy, Debug)]
pub(crate) struct Moment {
    pub(crate) number: u64,
    pub(crate) settings: Settings,
}

/// Before any line: a seed of zeros, cost 1, and the clock at 0.
pub(crate) fn first_settings() -> Settings
    ensures { AreFirst result }
{
    Settings {
        seed: [0; 32],
        cost: 1,
        clock: 0,
    }
}

/// What a line leaves of the settings.
pub(crate) fn after_line(settings: Settings, line: &Line) -> Settings
    ensures { result ≡ settings_after settings line.now }
{
    match line {
        Line::Seed(seed) => Settings {
            seed: *seed,
            ..settings
        },
        Line::Cost(cost) => Settings {
            cost: *cost,
            ..settings
        },
        Line::Clock(clock) => Settings {
            clock: *clock,
            ..settings
        },
        Line::Register { .. }
        | Line::SignIn { .. }
        | Line::Put { .. }
        | Line::Edit { .. }
        | Line::Delete { .. }
        | Line::Sync { .. }
        | Line::Passwd { .. }
        | Line::Late { .. }
        | Line::Show => settings,
    }
}

/// Whether a line reports: it is no setting.
pub(crate) fn reports(line: &Line) -> bool
    ensures { result ≡ reports line.now }
{
    match line {
        Line::Seed(_) | Line::Cost(_) | Line::Clock(_) => false,
        Line::Register { .. }
        | Line::SignIn { .. }
        | Line::Put { .. }
        | Line::Edit { .. }
        | Line::Delete { .. }
        | Line::Sync { .. }
        | Line::Passwd { .. }
        | Line::Late { .. }
        | Line::Show => true,
    }
}

/// The words of a line, none of them drawn.
pub(crate) fn line_words(moment: &Moment) -> Words
    ensures { result ≡ words_of moment.now.settings moment.now.number }
{
    Words::from_seed(line_seed(&moment.settings.seed, moment.number))
}

// The seed with a line's number mixed into its last 8 bytes, as a big-endian number.
fn line_seed(seed: &[u8; 32], number: u64) -> [u8; 32]
    ensures { result ≡ line_seed seed.now number }
{
    let mut mixed = *seed;
    let mut back = [0u8; 8];
    back.copy_from_slice(&seed[24..]);
    let last = u64::from_be_bytes(back) ^ number;
    mixed[24..].copy_from_slice(&last.to_be_bytes());
    mixed
}

ghost use Rattle.std.specs.Prelude.{◌≡◌, ◌≤◌, Some, None, IfOk, IfErr};
ghost use Rattle.ccan_line.specs.Limits.{most_nodes};
ghost use Rattle.ccan_c.specs.Settings.{map_numbered, profile_numbered, settings_fault};

use crate::code::{NODES_RANGE, PROFILE_RANGE, TRIES_RANGE};
use ccan_chip::Map;
use ccan_object::Profile;
use ccan_ram::Tries;

/// What a chip is opened with.
#[derive(Clone, Copy, Debug)]
pub(crate) struct Settings {
    pub profile: Profile,
    pub nodes: u8,
    pub tries: Tries,
    ghost few: { nodes ≤ most_nodes },
}

/// The profile of this number.
fn profile_numbered(number: u32) -> Option<Profile>
    ensures { result ≡ profile_numbered number }
{
    match number {
        1 => Some(Profile::One),
        2 => Some(Profile::Two),
        _ => None,
    }
}

/// The layout of the registers of this number.
pub fn map_numbered(number: u32) -> Option<Map>
    ensures { result ≡ map_numbered number }
{
    match number {
        0 => Some(Map::Narrow),
        1 => Some(Map::Wide),
        2 => Some(Map::Dcan),
        _ => None,
    }
}

impl Settings {
    /// Reads the settings that C gives, or reports the first that is out of its range.
    pub(crate) fn read(profile: u32, nodes: u32, tries: u32) -> Result<Settings, u32>
        ensures fault { IfErr result
            (λ code. settings_fault profile nodes tries ≡ Some code) }
        ensures none { IfOk result (λ settings. settings_fault profile nodes tries ≡ None) }
        ensures read { IfOk result (λ settings. (profile_numbered profile ≡ Some settings.profile)
            × (settings.nodes ≡ nodes) × (settings.tries ≡ tries)) }
    {
        let Some(profile) = profile_numbered(profile) else {
            return Err(PROFILE_RANGE);
        };
        if nodes > 8 {
            return Err(NODES_RANGE);
        }
        if tries < 1 || tries > 1000 {
            return Err(TRIES_RANGE);
        }
        let Some(tries) = Tries::new(tries as u16) else {
            return Err(TRIES_RANGE);
        };
        Ok(Settings {
            profile,
            nodes: nodes as u8,
            tries,
        })
    }
}

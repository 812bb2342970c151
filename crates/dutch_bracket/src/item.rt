// The items of a quality, in the order in which they count, and the first in which two qualities differ (C.04.3 C.6 to
// C.19).
ghost use Rattle.std.specs.Prelude.{◌≡◌};
ghost use Rattle.dutch_bracket.specs.Quality.{compared_in, first_difference};
ghost use Rattle.dutch_bracket.specs.QualityIn.{quality_in};

use crate::quality::Quality;
use std::cmp::Ordering;

/// An item of a quality, in the order in which the items count.
#[derive(Clone, Copy)]
pub enum Item {
    /// The PSD (C.6).
    Psd,
    /// The pairs of the next bracket, and the least PSD with as many pairs (C.7).
    NextBracket,
    /// Players in pairs with a topscorer who get a colour difference over +2 or under -2 (C.8).
    WideDifferences,
    /// Players in pairs with a topscorer who get the colour of their last two games (C.9).
    ThirdColours,
    /// Players in pairs who do not get the colour of their preference (C.10).
    MissedPreferences,
    /// Players in pairs who do not get the colour of a strong preference (C.11).
    MissedStrong,
    /// Players who go down and had a downfloat in the last round (C.12).
    DownAgain,
    /// Players who go up and had an upfloat in the last round (C.13).
    UpAgain,
    /// Players who go down and had a downfloat in the round before the last (C.14).
    DownAgainBefore,
    /// Players who go up and had an upfloat in the round before the last (C.15).
    UpAgainBefore,
    /// The differences of the players of C.12 (C.16).
    DownAgainBy,
    /// The differences of the players of C.13 (C.17).
    UpAgainBy,
    /// The differences of the players of C.14 (C.18).
    DownAgainBeforeBy,
    /// The differences of the players of C.15 (C.19).
    UpAgainBeforeBy,
}

/// All items in the order in which they count.
pub const ITEMS: [Item; 14] = [
    Item::Psd,
    Item::NextBracket,
    Item::WideDifferences,
    Item::ThirdColours,
    Item::MissedPreferences,
    Item::MissedStrong,
    Item::DownAgain,
    Item::UpAgain,
    Item::DownAgainBefore,
    Item::UpAgainBefore,
    Item::DownAgainBy,
    Item::UpAgainBy,
    Item::DownAgainBeforeBy,
    Item::UpAgainBeforeBy,
];

impl Quality {
    /// How it compares with another one by an item alone: `Less` is in front.
    fn compared_in(&self, other: &Quality, item: Item) -> Ordering
        ensures { result ≡ compared_in item (quality_in self.now) (quality_in other.now) }
    {
        match item {
            Item::Psd => self.psd().cmp(other.psd()),
            Item::NextBracket => {
                let by_pairs = other.next_pairs().cmp(&self.next_pairs());
                by_pairs.then(self.next_psd().cmp(other.next_psd()))
            }
            Item::WideDifferences => self.wide_differences().cmp(&other.wide_differences()),
            Item::ThirdColours => self.third_colours().cmp(&other.third_colours()),
            Item::MissedPreferences => self.missed_preferences().cmp(&other.missed_preferences()),
            Item::MissedStrong => self.missed_strong().cmp(&other.missed_strong()),
            Item::DownAgain => self.down_again().cmp(&other.down_again()),
            Item::UpAgain => self.up_again().cmp(&other.up_again()),
            Item::DownAgainBefore => self.down_again_before().cmp(&other.down_again_before()),
            Item::UpAgainBefore => self.up_again_before().cmp(&other.up_again_before()),
            Item::DownAgainBy => self.down_again_by().cmp(other.down_again_by()),
            Item::UpAgainBy => self.up_again_by().cmp(other.up_again_by()),
            Item::DownAgainBeforeBy => self
                .down_again_before_by()
                .cmp(other.down_again_before_by()),
            Item::UpAgainBeforeBy => self.up_again_before_by().cmp(other.up_again_before_by()),
        }
    }

    /// The first item in which it differs from another one; none if all are equal (C.6 to C.19).
    #[tactic(auto, using(crate::proofs::ItemOrder::none_to_come))]
    pub fn first_difference(&self, other: &Quality) -> Option<Item>
        ensures { result ≡ first_difference (quality_in self.now) (quality_in other.now) }
    {
        for item in ITEMS {
            if self.compared_in(other, item).is_ne() {
                return Some(item);
            }
        }
        None
    }
}

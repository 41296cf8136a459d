// The keys of two images, taken in turn: which is next, and whether one has two kinds. Floor 7: it stands on feed and keys.
#![tactic(auto)]

ghost use Rattle.std.specs.Prelude.{◌≡◌, true, ◌≤◌, Some};
ghost use Rattle.format.specs.File.{accepted};
ghost use Rattle.format.specs.Merge.{kinds_clash};
ghost use Rattle.feed.specs.Feeds.{Stands, Done};
ghost use Rattle.key_merge.specs.Turns.{Started, Standing, ordered_turn, TurnAs, chosen_key, chosen_kind, EntrySkippedAs, KeyDone, differs, meaning_of};

use feed::Feed;
use format::Kind;
use index::{Index, Step};
use std::cmp::Ordering;

// The two images of a merge.
#[derive(Clone, Copy)]
pub struct Images<'a> {
    pub older: &'a [u8],
    pub newer: &'a [u8],
}

// Where both are read.
#[derive(Clone, Copy)]
pub struct Feeds {
    pub older: Feed,
    pub newer: Feed,
}

// Which images have a key.
#[derive(Clone, Copy, Debug, PartialEq, Eq)]
pub enum Owner {
    Older,
    Newer,
    Both,
}

// The next key of a merge, and which images have it. The feed of an image that has it is at the key; the other stays.
#[derive(Clone, Copy)]
pub struct Turn {
    pub feeds: Feeds,
    pub owner: Owner,
}

impl Turn {
    // The bytes of the key: the newer's, where that image has it.
    pub fn key<'a>(self, images: Images<'a>) -> &'a [u8]
        requires { Stands images.older.now self.feeds.older × Stands images.newer.now self.feeds.newer }
        ensures { result.now ≡ chosen_key images.entry self }
    {
        match self.owner {
            Owner::Older => self.feeds.older.key(images.older),
            Owner::Newer | Owner::Both => self.feeds.newer.key(images.newer),
        }
    }

    // Its kind: the newer's, where that image has it.
    pub fn kind(self) -> Kind
        ensures { result ≡ chosen_kind self }
    {
        match self.owner {
            Owner::Older => self.feeds.older.cursor.kind,
            Owner::Newer | Owner::Both => self.feeds.newer.cursor.kind,
        }
    }

    // Whether both images have the key, with two kinds.
    fn kinds_differ(self) -> bool
        ensures { result ≡ differs self }
    {
        self.owner == Owner::Both && self.feeds.older.cursor.kind != self.feeds.newer.cursor.kind
    }
}

// The feed before the first key of an image, all of whose series are good.
pub fn first(image: &[u8]) -> Feed
    requires { accepted image.now ≡ true }
    ensures { Started image.now result }
{
    feed::first(image)
}

// Which of two opened keys is next, or both; the feed of a key that is not next stays before it.
fn order_keys(images: Images<'_>, at: Feeds, opened: Feeds) -> Turn
    requires { Stands images.older.now opened.older × Stands images.newer.now opened.newer }
    ensures { result ≡ ordered_turn images.entry at opened }
{
    let older = opened.older.key(images.older);
    let newer = opened.newer.key(images.newer);
    match keys::compare(older, newer) {
        Ordering::Less => Turn {
            feeds: Feeds {
                older: opened.older,
                ..at
            },
            owner: Owner::Older,
        },
        Ordering::Greater => Turn {
            feeds: Feeds {
                newer: opened.newer,
                ..at
            },
            owner: Owner::Newer,
        },
        Ordering::Equal => Turn {
            feeds: opened,
            owner: Owner::Both,
        },
    }
}

// The next key of both images; none where there is no key left.
pub fn next_turn(images: Images<'_>, at: Feeds) -> Option<Turn>
    requires { Standing images at }
    ensures { TurnAs images.entry at result }
{
    let older = at.older.next_key(images.older);
    let newer = at.newer.next_key(images.newer);
    match (older, newer) {
        (Some(older), Some(newer)) => Some(order_keys(images, at, Feeds { older, newer })),
        (Some(older), None) => Some(Turn {
            feeds: Feeds { older, ..at },
            owner: Owner::Older,
        }),
        (None, Some(newer)) => Some(Turn {
            feeds: Feeds { newer, ..at },
            owner: Owner::Newer,
        }),
        (None, None) => None,
    }
}

// The feed past the next entry of the open key, whose block is not decoded; none where no entry is left.
fn skip_entry(image: &[u8], feed: Feed) -> Option<Feed>
    requires { Stands image.now feed }
    ensures { EntrySkippedAs image.now feed result }
{
    if feed.cursor.left == 0 {
        return None;
    }
    let Ok(step) = Index::part_of(image, feed.start).next(feed.cursor) else {
        return None;
    };
    let Step::Entry(_, cursor) = step else {
        return None;
    };
    Some(Feed {
        start: feed.start,
        cursor,
        next: 0,
        count: 0,
    })
}

// The feed past all entries of the open key, of which no block is decoded.
fn skip_entries(image: &[u8], from: Feed) -> Feed
    requires { Stands image.now from × (from.count ≤ from.next) }
    ensures { KeyDone image.now from result }
{
    let mut on = from;
    while let Some(past) = skip_entry(image, on) {
        on = past;
    }
    on
}

// Whether a key has two kinds.
pub fn kinds_clash(images: Images<'_>) -> bool
    requires { (accepted images.older.now ≡ true) × (accepted images.newer.now ≡ true) }
    ensures { result ≡ kinds_clash (meaning_of images.entry.older.now) (meaning_of images.entry.newer.now) }
{
    let mut at = Feeds {
        older: first(images.older),
        newer: first(images.newer),
    };
    while let Some(turn) = next_turn(images, at) {
        if turn.kinds_differ() {
            return true;
        }
        at = Feeds {
            older: skip_entries(images.older, turn.feeds.older),
            newer: skip_entries(images.newer, turn.feeds.newer),
        };
    }
    false
}

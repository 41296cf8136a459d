// The points of an image that was found good by a full check, one after the other: key by key, block by block, the block
// being read in lent columns. No step can be refused. Floor 5: it stands on index and block.
#![tactic(auto)]

ghost use Rattle.std.specs.Prelude.{◌≡◌, true, ◌+◌, ◌≤◌, length};
ghost use Rattle.format.specs.Refusals.{is_ok};
ghost use Rattle.format.specs.Block.{read_block};
ghost use Rattle.format.specs.File.{block_of, accepted};
ghost use Rattle.block.specs.Answers.{block_answer, PointsLaid};
ghost use Rattle.index.specs.Frames.{InImage};
ghost use Rattle.feed.specs.Feeds.{key_of, blocks_left, at_cursor, past_block, Stands, Done, Begun, OnKey, OnBlock};

use format::{Columns, Entry, ImagePlace, READ_BLOCK_MOST};
use index::{Cursor, Index, Step};

// Where a feed stands in an image.
#[derive(Clone, Copy)]
pub struct Feed {
    // Where the index starts.
    pub start: ImagePlace,
    // The next entry of the open key, or the next key.
    pub cursor: Cursor,
    // The next point of the decoded block, and the number of its points.
    pub next: usize,
    pub count: usize,
}

// The feed before the first key.
pub fn first(image: &[u8]) -> Feed
    requires { accepted image.now ≡ true }
    ensures { Begun image.now result }
{
    Feed {
        start: index::check_frame(image).unwrap(),
        cursor: index::first(),
        next: 0,
        count: 0,
    }
}

// Decodes an entry's block, which is known to be good: the number of its points.
fn open_block(image: &[u8], entry: Entry, columns: &mut Columns<READ_BLOCK_MOST>) -> usize
    requires { (is_ok (read_block entry (block_of image.now entry)) ≡ true) × InImage image.now entry }
    ensures count { Ok result ≡ block_answer (read_block entry (block_of image.now entry)) }
    ensures cells { PointsLaid (read_block entry (block_of image.now entry)) columns.old.times columns.new.times columns.old.values columns.new.values }
{
    block::read_good(index::block_part(image, entry), entry, columns)
}

// The number of points of an entry's block, which is known to be good.
fn count_block(image: &[u8], entry: Entry) -> usize
    requires { (is_ok (read_block entry (block_of image.now entry)) ≡ true) × InImage image.now entry }
    ensures { Ok result ≡ block_answer (read_block entry (block_of image.now entry)) }
{
    block::count_good(index::block_part(image, entry), entry)
}

// The image is lent to each step, and is no part of a feed: where two feeds of one image are compared (before and after a step,
// in a turn of a merge), each clause would have to say first that their images are one.
impl Feed {
    // The same image's feed at a cursor, with no block decoded.
    fn at(self, cursor: Cursor) -> Feed
        ensures { result ≡ at_cursor self.start cursor }
    {
        Feed {
            start: self.start,
            cursor,
            next: 0,
            count: 0,
        }
    }

    // The feed at the next key, from one whose open key has no point left; none where there is no key left.
    pub fn next_key(self, image: &[u8]) -> Option<Feed>
        requires { Stands image.now self × Done self }
        ensures { OnKey image.now self result }
    {
        match Index::part_of(image, self.start).next(self.cursor) {
            Ok(Step::Key(cursor)) => Some(self.at(cursor)),
            Ok(Step::Entry(_, _)) => None,
            Ok(Step::End) => None,
            Err(_) => None,
        }
    }

    // The open key, as a part of the image.
    pub fn key(self, image: &[u8]) -> &[u8]
        requires { Stands image.now self }
        ensures { result.now ≡ key_of image.now self }
    {
        let key = self.cursor.key;
        let from = key.at.in_image(self.start).0;
        &image[from..from + key.len]
    }

    // The feed at the next block of the open key, which is decoded; none where there is no block left.
    pub fn next_block(self, image: &[u8], columns: &mut Columns<READ_BLOCK_MOST>) -> Option<Feed>
        requires { Stands image.now self }
        ensures { OnBlock image.now self columns.new.times columns.new.values result }
    {
        if self.cursor.left == 0 {
            return None;
        }
        match Index::part_of(image, self.start).next(self.cursor) {
            Ok(Step::Entry(entry, on)) => {
                let count = open_block(image, entry, columns);
                Some(Feed {
                    count,
                    ..self.at(on)
                })
            }
            Ok(Step::Key(_)) => None,
            Ok(Step::End) => None,
            Err(_) => None,
        }
    }

    // The feed after all points of the decoded block.
    pub fn past_block(self) -> Feed
        ensures { result ≡ past_block self }
    {
        self.at(self.cursor)
    }

    // The number of points of the open key whose blocks are not decoded yet. It decodes none; the feed stays.
    pub fn count_points(self, image: &[u8]) -> usize
        requires { Stands image.now self }
        ensures { result ≡ length (blocks_left image.now self) }
    {
        let index = Index::part_of(image, self.start);
        let mut cursor = self.cursor;
        let mut count: usize = 0;
        for _ in 0..self.cursor.left {
            match index.next(cursor) {
                Ok(Step::Entry(entry, on)) => {
                    count += count_block(image, entry);
                    cursor = on;
                }
                Ok(Step::Key(_)) => return count,
                Ok(Step::End) => return count,
                Err(_) => return count,
            }
        }
        count
    }
}

//! The topics about which two boards differ.

ghost use Rattle.std.specs.Prelude.{◌≡◌, ◌<◌, length, true};
ghost use Rattle.ps_rows.specs.PlaneTopics.{AreFiveOfBoth, AreMotionsOfBoth, AreObjectsOfBoth};
ghost use Rattle.ps_rows.specs.Showing.{motions_from};

use crate::row_board::RowBoard;
use ps_board::{Board, ColumnWords};
use ps_match::{Columns, Topics, motion_topic, object_topic, with_topic};
use ps_model::{LayerId, ObjectId};

impl<W: ColumnWords> RowBoard<W> {
    /// Whether the planes of a layer's motions have the same rows on another board.
    fn has_same_motions(&self, other: &RowBoard<W>, layer: u32) -> bool
        requires height { other.now.planes.height ≡ self.now.planes.height }
        requires layers { other.now.layers ≡ self.now.layers }
        requires table { other.now.members.table.items ≡ self.now.members.table.items }
        requires layer { layer < self.now.layers }
        ensures { let p = self.now.planes in let first = motions_from self.now.members.table.items layer in
            result ≡ true → AreFiveOfBoth p.height p.words.items other.now.planes.words.items first }
    {
        let first = self.motions_from(layer);
        for motion in 0..5 {
            if !self.has_same_plane(other, first + motion) {
                return false;
            }
        }
        true
    }

    /// The topics of the objects whose planes may have other rows on another board.
    pub(crate) fn differing_objects(&self, other: &RowBoard<W>) -> Topics
        requires height { other.now.planes.height ≡ self.now.planes.height }
        requires layers { other.now.layers ≡ self.now.layers }
        requires table { other.now.members.table.items ≡ self.now.members.table.items }
        ensures { let p = self.now.planes in let count = length self.now.members.table.items in
            AreObjectsOfBoth p.height p.words.items other.now.planes.words.items result count }
    {
        let mut topics = Columns::none();
        for object in 0..self.objects() {
            let same = self.has_same_plane(other, object);
            topics = with_topic(topics, object_topic(ObjectId(object)), !same);
        }
        topics
    }

    /// The topics of the motions on the layers whose planes may have other rows on another board.
    pub(crate) fn differing_motions(&self, other: &RowBoard<W>) -> Topics
        requires height { other.now.planes.height ≡ self.now.planes.height }
        requires layers { other.now.layers ≡ self.now.layers }
        requires table { other.now.members.table.items ≡ self.now.members.table.items }
        ensures { let p = self.now.planes in let table = self.now.members.table.items in
            AreMotionsOfBoth table p.height p.words.items other.now.planes.words.items result self.now.layers }
    {
        let mut topics = Columns::none();
        for layer in 0..self.layers() {
            let same = self.has_same_motions(other, layer);
            topics = with_topic(topics, motion_topic(LayerId(layer)), !same);
        }
        topics
    }
}

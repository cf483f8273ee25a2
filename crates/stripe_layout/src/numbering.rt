//! A piece by its number, and how many there are, without the list of them: a judge meets the pieces of a
//! call one after another, and whoever went through those before it each time would take half the square of
//! their number. The pieces of whole units are numbered as the blocks of an array are, whose units have a
//! block for each piece.

ghost use Rattle.std.specs.Prelude.{◌≡◌, ◌≤◌, ◌<◌, ◌+◌, min, length, map, slice_get};
ghost use Rattle.stripe_layout.specs.Layout.{IsArray, capacity_of, room_in_unit};
ghost use Rattle.stripe_layout.specs.Pieces.{pieces_of};
ghost use Rattle.stripe_layout.specs.PieceNumbers.{pieces_in, area_pieces, in_pieces, number_of, begin_of, walk};

use crate::areas::{Area, Areas};
use crate::geometry::Geometry;
use crate::pieces::Piece;

/// How many pieces there are of blocks of one unit.
fn pieces_in(max: u32, blocks: u32) -> u32
    requires { 1 ≤ max }
    ensures value { result ≡ pieces_in max blocks }
    ensures few { result ≤ blocks }
{
    ((u64::from(blocks) + (u64::from(max) - 1)) / u64::from(max)) as u32
}

fn area_pieces(max: u32, area: &Area) -> Area
    requires { 1 ≤ max }
    ensures { result ≡ area_pieces max area.now }
{
    Area {
        unit: pieces_in(max, area.unit),
        stripes: area.stripes,
    }
}

fn areas_in_pieces(max: u32, areas: &[Area]) -> Areas
    requires some { 1 ≤ max }
    requires few { length areas.now ≤ 8 }
    ensures { result ≡ map (area_pieces max) areas.now }
{
    let mut counted = Areas::none();
    for area in areas {
        counted.push(area_pieces(max, area));
    }
    counted
}

impl Geometry {
    /// The array whose blocks are the pieces of this one's whole units.
    fn in_pieces(&self, max: u32) -> Geometry
        requires array { IsArray self.now }
        requires some { 1 ≤ max }
        ensures value { result ≡ in_pieces self.now max }
        ensures array { IsArray result }
    {
        Geometry {
            targets: self.targets,
            block: self.block,
            areas: areas_in_pieces(max, self.areas.as_slice()),
        }
    }

    /// The number of the piece that a block is in.
    fn number_of(&self, pieces: &Geometry, max: u32, lba: u32) -> u32
        requires array { IsArray self.now }
        requires pieces { pieces.now ≡ in_pieces self.now max }
        requires pieces_array { IsArray pieces.now }
        requires some { 1 ≤ max }
        requires in_range { lba < capacity_of self.now }
        ensures value { result ≡ number_of self.now max lba }
        ensures in_range { result < capacity_of pieces.now }
    {
        let found = self.stripe_offset(lba);
        let unit = (found.offset / found.rows.count) as u8;
        let piece = found.offset % found.rows.count / max;
        let first = pieces.first_row(found.stripe);
        pieces.lba_at(found.stripe, unit, first + piece)
    }

    /// The block that the piece of a number begins with.
    fn begin_of(&self, pieces: &Geometry, max: u32, number: u32) -> u32
        requires array { IsArray self.now }
        requires pieces { pieces.now ≡ in_pieces self.now max }
        requires pieces_array { IsArray pieces.now }
        requires some { 1 ≤ max }
        requires in_range { number < capacity_of pieces.now }
        ensures value { result ≡ begin_of self.now max number }
        ensures in_range { result < capacity_of self.now }
    {
        let found = pieces.stripe_offset(number);
        let unit = (found.offset / found.rows.count) as u8;
        let piece = found.offset % found.rows.count;
        let first = self.first_row(found.stripe);
        self.lba_at(found.stripe, unit, first + piece * max)
    }

    /// The block that a piece begins with, so many pieces behind one that begins here, or the end of all blocks.
    fn piece_begin(&self, lba: u32, max: u32, number: u32) -> u64
        requires array { IsArray self.now }
        requires some { 1 ≤ max }
        requires in_range { lba < capacity_of self.now }
        ensures { result ≡ min (walk self.now max lba number) (capacity_of self.now) }
    {
        let room = self.room_in_unit(lba);
        let head = pieces_in(max, room);
        if number < head {
            return u64::from(lba) + u64::from(number) * u64::from(max);
        }
        let next = u64::from(lba) + u64::from(room);
        if next >= self.capacity() {
            return self.capacity();
        }
        let pieces = self.in_pieces(max);
        let reached = u64::from(self.number_of(&pieces, max, next as u32))
            + u64::from(number - head);
        if reached >= pieces.capacity() {
            return self.capacity();
        }
        u64::from(self.begin_of(&pieces, max, reached as u32))
    }

    /// How many pieces there are of blocks that reach past the unit of the first.
    fn pieces_past(&self, lba: u32, count: u32, max: u32) -> u32
        requires array { IsArray self.now }
        requires in_range { lba + count ≤ capacity_of self.now }
        requires some { 1 ≤ max }
        requires past { room_in_unit self.now lba < count }
        ensures { result ≡ length (pieces_of self.now max lba count) }
    {
        let room = self.room_in_unit(lba);
        let pieces = self.in_pieces(max);
        let first = self.number_of(&pieces, max, lba + room);
        let last = self.number_of(&pieces, max, lba + (count - 1));
        pieces_in(max, room) + (last - first + 1)
    }

    /// How many pieces some blocks are cut into.
    pub fn piece_count(&self, lba: u32, count: u32, max: u32) -> u32
        requires array { IsArray self.now }
        requires in_range { lba + count ≤ capacity_of self.now }
        requires some { 1 ≤ max }
        ensures value { result ≡ length (pieces_of self.now max lba count) }
        ensures few { result ≤ count }
    {
        if count == 0 {
            return 0;
        }
        if count <= self.room_in_unit(lba) {
            return pieces_in(max, count);
        }
        self.pieces_past(lba, count, max)
    }

    /// The piece of a number, of those that some blocks are cut into, from 0.
    pub fn piece_at(&self, lba: u32, count: u32, max: u32, number: u32) -> Option<Piece>
        requires array { IsArray self.now }
        requires in_range { lba + count ≤ capacity_of self.now }
        requires some { 1 ≤ max }
        ensures { result ≡ slice_get (pieces_of self.now max lba count) number }
    {
        if count == 0 {
            return None;
        }
        let begin = self.piece_begin(lba, max, number);
        let end = u64::from(lba) + u64::from(count);
        if begin >= end {
            return None;
        }
        Some(self.first_piece(begin as u32, (end - begin) as u32, max))
    }
}

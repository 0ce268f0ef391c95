// The cells that became definitions are listed, unpacked and transposed, with their marks. A slot for each remainder of marks by
// 4,096 holds 1 + the latest of them with such a mark, or 0, and the slot 4,096 further on the one before it.
ghost use Rattle.std.specs.Prelude.{◌≡◌, [], ◌+◌, ◌%◌, ◌<◌, get_or, set, IfSome};
ghost use Rattle.lists.specs.Search.{least};
ghost use Rattle.pack_classes.specs.Turned.{can_make};
ghost use Rattle.pack_classes.specs.Mark.{mark_of};
ghost use Rattle.pack_turns.specs.Rows.{transpose_of};
ghost use Rattle.pack_search.specs.Bounds.{Kept, Makes, Found};

use pack_cells::mark;
use pack_turns::{transpose, turn_marked};

// The definition that draws a cell, and the turn by which it does.
#[derive(Clone, Copy)]
pub struct Match {
    pub tile: usize,
    pub turn: usize,
}

// The listed cells. A slot stays a plain number: an Option of one takes twice the memory.
#[derive(Drop)]
pub struct Table {
    pixels: [[u8; 64]; 256],
    transposes: [[u8; 64]; 256],
    marks: [u32; 256],
    slots: [u16; 8192],
    count: usize,
}

impl Table {
    // No cell is listed.
    pub fn new() -> Self
        ensures { (result.count ≡ 0) × (Kept result) }
    {
        Table {
            pixels: [[0; 64]; 256],
            transposes: [[0; 64]; 256],
            marks: [0; 256],
            slots: [0; 8192],
            count: 0,
        }
    }

    pub fn len(&self) -> usize
        ensures { result ≡ self.now.count }
    {
        self.count
    }

    // The first listed cell that can be turned into a cell, and the smallest turn that does so.
    fn find_match(&self, cell: &[u8; 64], theirs: u32) -> Option<Match>
        requires { (theirs ≡ mark_of cell.now) × (Kept self.now) }
        ensures { Found self.now.pixels cell.now self.now.count result }
    {
        for k in 0..self.count {
            if let Some(turn) = turn_marked(
                &self.pixels[k],
                &self.transposes[k],
                cell,
                self.marks[k],
                theirs,
            ) {
                return Some(Match { tile: k, turn });
            }
        }
        None
    }

    // The listed cell of a slot and the smallest turn by which it makes a cell. A slot holds 1 + a listed cell's number, or 0.
    fn slot_match(&self, cell: &[u8; 64], theirs: u32, slot: usize) -> Option<Match>
        requires { (theirs ≡ mark_of cell.now) × (Kept self.now) }
        ensures { IfSome result (λ m. (m.tile + 1 ≡ slot) × Makes self.now.pixels cell.now self.now.count m) }
    {
        let tile = slot.checked_sub(1)?;
        if self.count <= tile {
            return None;
        }
        let turn = turn_marked(
            &self.pixels[tile],
            &self.transposes[tile],
            cell,
            self.marks[tile],
            theirs,
        )?;
        Some(Match { tile, turn })
    }

    // What `find_match` finds, by the slots of the cell's mark: an empty one means that no listed cell can be turned into it, and the
    // two latest with such a mark are tried before all others.
    pub fn locate(&self, cell: &[u8; 64]) -> Option<Match>
        requires { Kept self.now }
        ensures { Found self.now.pixels cell.now self.now.count result }
    {
        let theirs = mark(cell);
        let h = (theirs % 4096) as usize;
        let latest = usize::from(self.slots[h]);
        if latest == 0 {
            return None;
        }
        if let Some(m) = self.slot_match(cell, theirs, latest) {
            return Some(m);
        }
        let older = usize::from(self.slots[h + 4096]);
        if let Some(m) = self.slot_match(cell, theirs, older) {
            return Some(m);
        }
        self.find_match(cell, theirs)
    }

    // Lists a cell that none of the listed can be turned into.
    pub fn list(&mut self, cell: &[u8; 64])
        requires { (Kept self.old) × (self.old.count < 256) × (self.old.count ≡ least (λ k. can_make (get_or self.old.pixels k []) cell.now) self.old.count) }
        ensures { (self.new.pixels ≡ set self.old.pixels self.old.count cell.now)
            × (self.new.transposes ≡ set self.old.transposes self.old.count (transpose_of cell.now))
            × (self.new.marks ≡ set self.old.marks self.old.count (mark_of cell.now))
            × (self.new.slots ≡ set (set self.old.slots (mark_of cell.now % 4096 + 4096) (get_or self.old.slots (mark_of cell.now % 4096) 0)) (mark_of cell.now % 4096) (self.old.count + 1))
            × (self.new.count ≡ self.old.count + 1) × (Kept self.new) }
    {
        let n = self.count;
        let ours = mark(cell);
        let mut transposed = [0u8; 64];
        transpose(cell, &mut transposed);
        self.pixels[n] = *cell;
        self.transposes[n] = transposed;
        self.marks[n] = ours;
        let h = (ours % 4096) as usize;
        let older = self.slots[h];
        self.slots[h + 4096] = older;
        self.slots[h] = (n + 1) as u16;
        self.count = n + 1;
    }
}

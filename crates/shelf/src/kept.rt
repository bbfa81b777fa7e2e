// The recipes that are kept, and the room that the next compiles are lent.
ghost use Rattle.std.specs.Prelude.{◌≤◌};
ghost use Rattle.std.specs.BTreeMap.{btree_map_len};

use std::collections::BTreeMap;

// An accepted text, with the image that it compiled to.
#[derive(Debug, Drop)]
pub struct Recipe {
    pub text: Vec<u8>,
    pub image: Vec<u32>,
}

// So many words of image and of work table.
#[derive(Clone, Copy, PartialEq, Eq, Debug)]
pub struct Room {
    pub image: u32,
    pub table: u32,
}

// At most 100 names.
#[derive(Drop)]
pub struct Shelf {
    pub(crate) recipes: BTreeMap<Vec<u8>, Recipe>,
    pub(crate) room: Room,
    ghost few: { btree_map_len recipes ≤ 100 },
}
